//! Sessions with a board.
ghost use Rattle.std.specs.Prelude.{◌≡◌, ◌<◌, ◌≤◌, ◌-◌, length, ◌∷◌, [], List, ℕ, All, OnOk, OnErr, IfOk, IsOk, Ok, None, false};
ghost use Rattle.dgt_frame.specs.declared.events.Event.{Event};
ghost use Rattle.dgt_frame.specs.declared.events.Message.{Message};
ghost use Rattle.settle_core.specs.Entries.{deduplicated};
ghost use Rattle.settle_core.specs.Folding.{Folds};
ghost use Rattle.settle_core.specs.Settler.{HasSettled};
ghost use Rattle.board_events.specs.Settings.{Setting};
ghost use Rattle.board_events.specs.History.{IsInRange, is_trusted, picture_of, reading_at, turned};
ghost use Rattle.board_events.specs.Entries.{Idle};
ghost use Rattle.board_events.specs.Game.{IsGameOf};
ghost use Rattle.board_events.specs.Session.{HasTakenEvents, TakesInto, TellsTaken, WantsMemory, entries_in};

use chess_clock::Reading;
use chess_game::{Game, Tags};
use chess_rules::{Position, Square};
use dgt_frame::{Event, First, Message, read_time};
use settle_core::{Seen, Settler};
use std::alloc::{AllocError, Global};
use std::marker::Model;

/// What an event led to.
#[derive(Clone, Copy, Debug, PartialEq, Eq)]
pub struct Taken {
    /// The event was a fault: the board is to be asked for a dump.
    pub asks_dump: bool,
    /// What the picture showed, where one was seen.
    pub seen: Option<Seen>,
}

/// An event that showed no picture and asks for nothing.
const NOTHING: Taken = Taken {
    asks_dump: false,
    seen: None,
};

/// Follows the events of a board: which pictures are trusted, what the clocks show, and the game.
///
/// Pictures are trusted from a dump on until a fault. A fault leaves the last picture and the reading, but updates
/// after it count for nothing until the next dump.
#[derive(Drop)]
pub struct Session {
    settler: Settler,
    first: First,
    rotated: bool,
    trusted: bool,
    reading: Option<Reading>,
}

impl Model for Session {
    ghost use Rattle.std.specs.Prelude.{◌≡◌, true};
    ghost use Rattle.settle_core.specs.Settler.{has_seen};
    ghost use Rattle.board_events.specs.States.{State};

    ghost Value = { State };

    ghost view = { λ s. record { settler = s.settler; first = s.first; rotated = s.rotated; trusted = s.trusted; reading = s.reading } };

    // What is trusted was seen.
    ghost invariant = { λ s. s.trusted ≡ true → has_seen s.settler ≡ true };
}

impl Session {
    /// A session that has taken no event: not trusted, and without a reading. Takes no memory.
    ///
    /// With `rotated`, field n means square 63 - n, in dumps and updates.
    pub fn new(alloc: Global, start: Position, first: First, rotated: bool) -> Session
        ensures { let setting : Setting = record { start = start; first = first; rotated = rotated } in HasTakenEvents result setting [] }
    {
        Session {
            settler: Settler::new(alloc, start),
            first,
            rotated,
            trusted: false,
            reading: None,
        }
    }

    /// Takes the next event, for callers who have it by value. Codes are at most 15 and fields at most 63, as the
    /// decoder gives them.
    ///
    /// # Errors
    ///
    /// Memory is taken only where the event gives a move. Where there is none, nothing has changed.
    pub fn take(&mut self, event: Event) -> Result<Taken, AllocError>
        requires { IsInRange event }
        ensures stands { (setting : Setting) (past : List Event) → HasTakenEvents self.old setting past
            → OnOk result (HasTakenEvents self.new setting (event ∷ past)) }
        ensures tells { (setting : Setting) (past : List Event) → HasTakenEvents self.old setting past
            → IfOk result (TellsTaken setting past event) }
        // An idle event leaves the session as it was.
        ensures idle { (setting : Setting) (past : List Event) → HasTakenEvents self.old setting past
            → Idle setting.first setting.rotated past event → (self.new ≡ self.old) × IsOk result }
        ensures err { OnErr result (self.new ≡ self.old) }
        ensures memory { (setting : Setting) (past : List Event) → HasTakenEvents self.old setting past
            → OnErr result (WantsMemory setting past event) }
    {
        self.take_ref(&event)
    }

    /// The same, of an event that stays where it stands.
    ///
    /// # Errors
    ///
    /// As `take`.
    #[inline(always)]
    pub fn take_ref(&mut self, event: &Event) -> Result<Taken, AllocError>
        requires { IsInRange event.now }
        ensures { TakesInto self.old event.now result self.new }
    {
        match event {
            Event::Message(Message::Dump(codes)) => self.take_dump(*codes),
            Event::Message(Message::Update { field, code }) => self.take_update(*field, *code),
            Event::Message(Message::Time(times)) => {
                self.take_time(*times);
                Ok(NOTHING)
            }
            Event::Message(Message::Other { .. }) => Ok(NOTHING),
            Event::Fault(_) => {
                self.trusted = false;
                Ok(Taken {
                    asks_dump: true,
                    seen: None,
                })
            }
        }
    }

    #[inline(always)]
    fn take_dump(&mut self, codes: [u8; 64]) -> Result<Taken, AllocError>
        requires { All (λ code. code < 16) codes }
        ensures { TakesInto self.old (Event.Message (Message.Dump codes)) result self.new }
    {
        let picture = picture_of(self.rotated, codes);
        let seen = self.settler.see(&picture, self.reading)?;
        self.trusted = true;
        Ok(Taken {
            asks_dump: false,
            seen: Some(seen),
        })
    }

    #[inline(always)]
    fn take_update(&mut self, field: u8, code: u8) -> Result<Taken, AllocError>
        requires field { field < 64 }
        requires code { code < 16 }
        ensures { TakesInto self.old (Event.Message (Message.Update field code)) result self.new }
    {
        if !self.trusted {
            return Ok(NOTHING);
        }
        let square = square_of(self.rotated, field);
        let seen = self.settler.see_field(square, code, self.reading)?;
        Ok(Taken {
            asks_dump: false,
            seen: Some(seen),
        })
    }

    fn take_time(&mut self, times: [u8; 7])
        ensures { TakesInto self.old (Event.Message (Message.Time times)) (Ok (record { asks_dump = false; seen = None })) self.new }
    {
        self.reading = read_time(&times, self.first, self.reading);
    }

    /// Whether updates count: a dump was taken, and no fault after it. For callers who show a session while it goes on.
    pub fn trusted(&self) -> bool
        ensures { (setting : Setting) (past : List Event) → HasTakenEvents self.now setting past → result ≡ is_trusted past }
    {
        self.trusted
    }

    /// What the clocks show, by the last time message that counts. For such callers too.
    pub fn reading(&self) -> Option<Reading>
        ensures { (setting : Setting) (past : List Event) → HasTakenEvents self.now setting past → result ≡ reading_at setting.first past }
    {
        self.reading
    }

    /// The settler of the pictures that were seen.
    pub fn settler(&self) -> &Settler
        ensures same { result.now ≡ self.now.settler }
        ensures stands { (setting : Setting) (past : List Event) → HasTakenEvents self.now setting past
            → HasSettled result.now setting.start (entries_in setting past) }
    {
        &self.settler
    }

    /// The game of the events taken, under these tags.
    pub fn into_game(self, tags: Tags) -> Game
        ensures game { (setting : Setting) (past : List Event) → HasTakenEvents self setting past → IsGameOf result setting tags past }
        // No event gives more than one move.
        ensures count { (setting : Setting) (past : List Event) → HasTakenEvents self setting past → length result.plies ≤ length past }
    {
        let Session { settler, .. } = self;
        let (start, plies, sign) = settler.into_parts();
        Game::new(tags, start, plies, sign)
    }
}

/// The codes by square.
pub(crate) fn picture_of(rotated: bool, codes: [u8; 64]) -> [u8; 64]
    requires { All (λ code. code < 16) codes }
    ensures picture { (past : List Event) → result ≡ picture_of rotated (Event.Message (Message.Dump codes) ∷ past) }
    ensures codes { All (λ code. code < 16) result }
{
    if !rotated {
        return codes;
    }
    let mut turned = codes;
    turned.reverse();
    turned
}

/// The square of a field.
pub(crate) fn square_of(rotated: bool, field: u8) -> Square
    requires { field < 64 }
    ensures { result ≡ turned rotated field }
{
    let number = if rotated { 63 - field } else { field };
    let Some(square) = Square::new(number) else {
        unreachable!();
    };
    square
}
