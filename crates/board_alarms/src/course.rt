//! The last positions of a game, and what is heard of its plies.
ghost use Rattle.std.specs.Prelude.{◌≡◌, ◌≢◌, ◌↔◌, ◌∷◌, ◌&&◌, ◌||◌, [], Bool, List, IsTrue, Some, drop, length, nat_le};
ghost use Rattle.std.specs.Str.{bytes_eq};
ghost use Rattle.chess_rules.specs.declared.parts.Parts.{Parts};
ghost use Rattle.settle_core.specs.declared.plies.Ply.{Ply as PlyOf};
ghost use Rattle.settle_core.specs.Masks.{IsDiff};
ghost use Rattle.board_doubts.specs.declared.heard.Heard.TheVariants.{Shows};
ghost use Rattle.board_alarms.specs.Hearing.{SeesApart, agrees as agrees_with, shown_at, stands as stands_on};
ghost use Rattle.board_alarms.specs.Inside.{DiffersBy, Grows};
ghost use Rattle.board_alarms.specs.Keeping.{KeepsCourse, KeepsPositions};
ghost use Rattle.board_alarms.specs.Plies.{HearsPlies, heard_ply, is_black as is_black_of, position, repeats as repeats_of};

use crate::news::Sight;
use board_doubts::{Heard, Played, Ply, Seen, seen};
use chess_rules::{Position, Side};
use settle_core::Settler;

/// The last positions of a game, as pictures.
#[derive(Clone, Copy)]
pub struct Positions {
    here: [u8; 64],
    /// The position before the last ply, the one before that, and so on. Before the start it is the start.
    first: [u8; 64],
    second: [u8; 64],
    third: [u8; 64],
    fourth: [u8; 64],
    fifth: [u8; 64],
    sixth: [u8; 64],
    seventh: [u8; 64],
    eighth: [u8; 64],
}

/// How far a game has come.
#[derive(Clone, Copy)]
pub struct Course {
    /// How many plies it has.
    pub count: u64,
    /// Black is to move.
    black: bool,
    positions: Positions,
}

/// News of the plies.
#[derive(Clone, Copy)]
pub struct PliesHeard {
    pub news: Option<Heard>,
    pub ply: Option<Heard>,
}

fn is_black(position: &Position) -> bool
    ensures { result ≡ is_black_of position.now.side }
{
    match position.parts().side {
        Side::White => false,
        Side::Black => true,
    }
}

/// The last ply as it is heard.
fn ply_of(settler: &Settler) -> Option<Ply>
    ensures { (ply : PlyOf) (earlier : List PlyOf) → settler.now.score.plies ≡ ply ∷ earlier → result ≡ Some (heard_ply settler.now.start ply earlier) }
{
    match settler.last_ply() {
        Some(last) => Some(Ply {
            from: last.1.mv.from.number(),
            to: last.1.mv.to.number(),
            black: is_black(&last.0),
        }),
        None => None,
    }
}

/// Whether the two positions are the same, and so many plies were made.
fn was_there(n: u64, count: u64, here: &[u8; 64], other: &[u8; 64]) -> bool
    ensures { result ≡ (nat_le n count && bytes_eq here.now other.now) }
{
    n <= count && *here == *other
}

fn either(one: bool, other: bool) -> bool
    ensures { result ≡ (one || other) }
{
    one || other
}

/// For its clause: there are 64 squares.
fn count_squares(picture: &[u8; 64])
    ensures { length picture.now ≡ 64 }
{}

/// Whether two pictures are the same, if they differ on these squares.
fn is_none(differs: u64, one: &[u8; 64], other: &[u8; 64]) -> bool
    ensures { IsDiff differs one.now other.now → result ≡ bytes_eq other.now one.now }
{
    count_squares(one);
    count_squares(other);
    differs == 0
}

impl Positions {
    /// A game that begins with this one.
    fn new(start: [u8; 64]) -> Positions
        ensures { (parts : Parts) → start ≡ position parts [] → KeepsPositions result parts [] }
    {
        Positions {
            here: start,
            first: start,
            second: start,
            third: start,
            fourth: start,
            fifth: start,
            sixth: start,
            seventh: start,
            eighth: start,
        }
    }

    /// These, and one more.
    fn with(&self, here: [u8; 64]) -> Positions
        ensures { (start : Parts) (old new : List PlyOf) → KeepsPositions self.now start old → here ≡ position start new → ((ply : PlyOf) × (new ≡ ply ∷ old))
            → KeepsPositions result start new }
    {
        Positions {
            here,
            first: self.here,
            second: self.first,
            third: self.second,
            fourth: self.third,
            fifth: self.fourth,
            sixth: self.fifth,
            seventh: self.sixth,
            eighth: self.seventh,
        }
    }

    /// These, with this one as the last.
    fn instead(&self, here: [u8; 64]) -> Positions
        ensures { (start : Parts) (old new : List PlyOf) → KeepsPositions self.now start old → here ≡ position start new → drop 1 new ≡ drop 1 old
            → KeepsPositions result start new }
    {
        Positions { here, ..*self }
    }

    /// Whether the last one was there before, in a game of so many plies.
    fn repeats(&self, count: u64) -> bool
        ensures { (start : Parts) (plies : List PlyOf) → KeepsPositions self.now start plies → count ≡ length plies → result ≡ repeats_of start plies }
    {
        let late = either(
            was_there(2, count, &self.here, &self.second),
            was_there(4, count, &self.here, &self.fourth),
        );
        let early = either(
            was_there(6, count, &self.here, &self.sixth),
            was_there(8, count, &self.here, &self.eighth),
        );
        either(late, early)
    }
}

impl Course {
    /// A game that begins with this position.
    pub fn new(start: &Position) -> Course
        ensures { KeepsCourse result start.now [] }
    {
        Course {
            count: 0,
            black: is_black(start),
            positions: Positions::new(start.picture()),
        }
    }

    /// The positions of the game, once it has so many plies and this position.
    fn positions_after(&self, count: u64, here: [u8; 64]) -> Positions
        ensures { (start : Parts) (old new : List PlyOf) → KeepsCourse self.now start old → here ≡ position start new → count ≡ length new → Grows old new
            → KeepsPositions result start new }
    {
        if self.count < count {
            self.positions.with(here)
        } else {
            self.positions.instead(here)
        }
    }

    /// Goes on to the plies of the settler, which are others, and says what is heard of them.
    #[inline(never)]
    pub fn go_on(&mut self, settler: &Settler) -> PliesHeard
        ensures keeps { (start : Parts) (old : List PlyOf) → KeepsCourse self.old start old → settler.now.start ≡ start
            → Grows old settler.now.score.plies → KeepsCourse self.new start settler.now.score.plies }
        ensures heard { (start : Parts) (agrees : Bool) (old : List PlyOf) → KeepsCourse self.old start old → settler.now.start ≡ start
            → Grows old settler.now.score.plies → settler.now.score.plies ≢ old → HearsPlies start agrees old settler.now.score.plies result.news result.ply }
    {
        let next = self.after(settler);
        let heard = next.plies_heard(self, settler);
        *self = next;
        heard
    }

    /// The game after an event.
    fn after(&self, settler: &Settler) -> Course
        ensures { (start : Parts) (old : List PlyOf) → KeepsCourse self.now start old → settler.now.start ≡ start → Grows old settler.now.score.plies
            → KeepsCourse result start settler.now.score.plies }
    {
        let count = settler.moves().len() as u64;
        let position = settler.position();
        let picture = position.picture();
        let positions = self.positions_after(count, picture);
        Course {
            count,
            black: is_black(position),
            positions,
        }
    }

    /// What another picture shows, before the game goes on with it.
    pub fn seen(&self, picture: &[u8; 64]) -> Seen
        ensures { (start : Parts) (plies : List PlyOf) → KeepsCourse self.now start plies → SeesApart start plies picture.now (Some (Shows result)) }
    {
        let played = Played {
            black: self.black,
            position: &self.positions.here,
            before: &self.positions.first,
            earlier: &self.positions.second,
        };
        seen(&played, picture)
    }

    /// Whether an event shows the game's position, if this is the last picture then, and differs from it on these squares.
    pub fn agrees(&self, sight: Sight, differs: u64, picture: &[u8; 64]) -> bool
        ensures { (start : Parts) (plies : List PlyOf) → KeepsCourse self.now start plies → DiffersBy sight differs (position start plies) picture.now
            → result ≡ agrees_with start plies (shown_at sight picture.now) }
    {
        match sight {
            Sight::Nothing => false,
            Sight::Again => is_none(differs, &self.positions.here, picture),
            Sight::Another => is_none(differs, &self.positions.here, picture),
            Sight::Moves => is_none(differs, &self.positions.here, picture),
        }
    }

    /// The same by its last picture.
    pub fn stands(&self, last: &Option<[u8; 64]>) -> bool
        ensures { (start : Parts) (plies : List PlyOf) → KeepsCourse self.now start plies → result ≡ stands_on start plies last.now }
    {
        match last {
            None => false,
            Some(picture) => *picture == self.positions.here,
        }
    }

    /// What is heard of the plies, which are others than those of the old course before an event.
    fn plies_heard(&self, old: &Course, settler: &Settler) -> PliesHeard
        ensures { (start : Parts) (agrees : Bool) (before : List PlyOf) → KeepsCourse old.now start before → settler.now.start ≡ start
            → KeepsCourse self.now start settler.now.score.plies → Grows before settler.now.score.plies → settler.now.score.plies ≢ before
            → HearsPlies start agrees before settler.now.score.plies result.news result.ply }
    {
        let Some(ply) = ply_of(settler) else {
            return PliesHeard {
                news: None,
                ply: None,
            };
        };
        let repeats = self.positions.repeats(self.count);
        if old.count < self.count {
            return PliesHeard {
                news: Some(Heard::Moves { repeats }),
                ply: Some(Heard::Plays(ply)),
            };
        }
        PliesHeard {
            news: Some(Heard::Corrects { repeats }),
            ply: Some(Heard::Replaces(ply)),
        }
    }
}
