//! The pictures that events show, without a game.
ghost use Rattle.std.specs.Prelude.{◌≡◌, [], ◌∷◌, List, Bool, All, ◌<◌};
ghost use Rattle.dgt_frame.specs.declared.events.Event.{Event};
ghost use Rattle.dgt_frame.specs.declared.events.Message.{Message};
ghost use Rattle.board_events.specs.History.{IsInRange};
ghost use Rattle.board_events.specs.Pictures.{pictures};

use crate::session::{picture_of, square_of};
use dgt_frame::{Event, Message};

/// What an event does to the picture of a board.
#[derive(Clone, Copy, Debug, PartialEq, Eq)]
pub enum Change {
    /// It shows none, or the one before again.
    Nothing,
    /// It shows the one before with another code on a square.
    Square { square: u8, code: u8 },
    /// It shows another picture, or the first.
    Picture,
}

/// Follows the pictures of a board: from a dump on until a fault, each dump and each update shows one. With `rotated`,
/// field n means square 63 - n. Takes no memory.
#[derive(Clone, Copy, Debug)]
pub struct View {
    rotated: bool,
    trusted: bool,
    seen: bool,
    picture: [u8; 64],
    ghost in_range: { All (λ code. code < 16) picture },
}

impl View {
    ghost use Rattle.board_events.specs.Pictures.{ChangesPictures, IsLast, IsOnBoard};
    ghost use Rattle.board_events.specs.View.{Views};

    /// A view that has taken no event.
    pub fn new(rotated: bool) -> View
        ensures { Views result rotated [] }
    {
        View {
            rotated,
            trusted: false,
            seen: false,
            picture: no_pieces(),
        }
    }

    /// Takes the next event, and says what it does to the picture; `picture` has what it shows. Codes are at most 15
    /// and fields at most 63, as the decoder gives them.
    pub fn see(&mut self, event: &Event) -> Change
        requires { IsInRange event.now }
        ensures views { (rotated : Bool) (past : List Event) → Views self.old rotated past → Views self.new rotated (event.now ∷ past) }
        ensures shown { (rotated : Bool) (past : List Event) → Views self.old rotated past
            → ChangesPictures result (pictures rotated past) (pictures rotated (event.now ∷ past)) }
        ensures inside { IsOnBoard result }
    {
        match event {
            Event::Message(Message::Dump(codes)) => self.see_dump(codes),
            Event::Message(Message::Update { field, code }) => self.see_update(*field, *code),
            Event::Message(Message::Time(_) | Message::Other { .. }) => Change::Nothing,
            Event::Fault(_) => {
                self.trusted = false;
                Change::Nothing
            }
        }
    }

    /// The picture that was shown last: 64 codes of at most 15, by square number. Where none was shown yet, it is an
    /// empty board; the contract then says of it no more than the range of its codes.
    pub fn picture(&self) -> &[u8; 64]
        ensures last { (rotated : Bool) (past : List Event) → Views self.now rotated past → IsLast result.now (pictures rotated past) }
        ensures codes { All (λ code. code < 16) result.now }
    {
        &self.picture
    }

    fn see_dump(&mut self, codes: &[u8; 64]) -> Change
        requires { All (λ code. code < 16) codes.now }
        ensures views { (rotated : Bool) (past : List Event) → Views self.old rotated past
            → Views self.new rotated (Event.Message (Message.Dump codes.now) ∷ past) }
        ensures shown { (rotated : Bool) (past : List Event) → Views self.old rotated past
            → ChangesPictures result (pictures rotated past) (pictures rotated (Event.Message (Message.Dump codes.now) ∷ past)) }
        ensures inside { IsOnBoard result }
    {
        let picture = picture_of(self.rotated, *codes);
        self.trusted = true;
        if self.seen && self.picture == picture {
            return Change::Nothing;
        }
        self.seen = true;
        self.picture = picture;
        Change::Picture
    }

    fn see_update(&mut self, field: u8, code: u8) -> Change
        requires field { field < 64 }
        requires code { code < 16 }
        ensures views { (rotated : Bool) (past : List Event) → Views self.old rotated past
            → Views self.new rotated (Event.Message (Message.Update field code) ∷ past) }
        ensures shown { (rotated : Bool) (past : List Event) → Views self.old rotated past
            → ChangesPictures result (pictures rotated past) (pictures rotated (Event.Message (Message.Update field code) ∷ past)) }
        ensures inside { IsOnBoard result }
    {
        if !self.trusted {
            return Change::Nothing;
        }
        let square = square_of(self.rotated, field).number();
        if self.picture[square as usize] == code {
            return Change::Nothing;
        }
        self.picture[square as usize] = code;
        Change::Square { square, code }
    }
}

/// The picture of an empty board.
fn no_pieces() -> [u8; 64]
    ensures { All (λ code. code < 16) result }
{
    [0; 64]
}
