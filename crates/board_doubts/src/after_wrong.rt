//! Moves that are made while the row says WRONG, and what nobody may have played when a result is given.
ghost use Rattle.std.specs.Prelude.{◌≡◌, ◌∷◌, [], ℕ, Bool, List};
ghost use Rattle.board_doubts.specs.declared.heard.Event.{Event as EventOf};
ghost use Rattle.board_doubts.specs.declared.heard.Heard.TheVariants.{Agrees, Shows};
ghost use Rattle.board_doubts.specs.declared.heard.Seen.{Seen as SeenOf};
ghost use Rattle.board_doubts.specs.Keeping.{AfterWrongStandsFor};
ghost use Rattle.board_doubts.specs.Unplayed.{apart_by, odd as odd_of, odd_by, or_else, tried_of};

use crate::heard::{Event, Heard};
use crate::logic::one_more;
use crate::stopped_clock::{MOST, Tried};
use square_runs::{carried, lasted};

/// The row says WRONG once the board has shown something else for this long, in milliseconds.
const WRONG: u64 = 10_000;

/// Counts the moves that are made while the row says WRONG.
#[derive(Clone, Copy)]
pub struct AfterWrong {
    /// Since when the board shows something else than the game's position.
    apart_since: Option<u64>,
    odd: u64,
}

fn apart_after(what: Heard, at: u64, since: Option<u64>) -> Option<u64>
    ensures { result ≡ apart_by what at since }
{
    match what {
        Heard::Shows(_) => carried(true, at, since),
        Heard::Moves { .. } | Heard::Corrects { .. } | Heard::Agrees => None,
        _ => since,
    }
}

fn odd_after(what: Heard, is_added: bool, is_wrong: bool, before: u64) -> u64
    ensures { result ≡ odd_by what is_added is_wrong before }
{
    match what {
        Heard::Moves { .. } => {
            if is_added {
                0
            } else if is_wrong {
                one_more(MOST, before)
            } else {
                0
            }
        }
        Heard::Looked => 0,
        _ => before,
    }
}

/// So many moves, if there is one.
pub fn some_moves(moves: u64, plies: u64) -> Option<Tried>
    ensures { result ≡ tried_of moves plies }
{
    if 0 < moves {
        Some(Tried { moves, plies })
    } else {
        None
    }
}

/// The first one, or else the other one.
pub fn first_of(one: Option<Tried>, other: Option<Tried>) -> Option<Tried>
    ensures { result ≡ or_else one other }
{
    match one {
        None => other,
        Some(tried) => Some(tried),
    }
}

impl AfterWrong {
    /// Nothing was heard.
    pub fn new() -> AfterWrong
        ensures { AfterWrongStandsFor result [] }
    {
        AfterWrong {
            apart_since: None,
            odd: 0,
        }
    }

    /// Takes what is heard.
    pub fn take(&mut self, event: Event)
        ensures { (past : List EventOf) → AfterWrongStandsFor self.old past → AfterWrongStandsFor self.new (event ∷ past) }
    {
        let is_wrong = lasted(WRONG, event.at, self.apart_since);
        self.odd = odd_after(event.what, event.is_added, is_wrong, self.odd);
        self.apart_since = apart_after(event.what, event.at, self.apart_since);
    }

    /// Takes a picture, as `take` does.
    pub fn see(&mut self, at: u64)
        ensures { (seen : SeenOf) (added : Bool) (past : List EventOf) → AfterWrongStandsFor self.old past
            → AfterWrongStandsFor self.new (record { at = at; is_added = added; what = Shows seen } ∷ past) }
    {
        self.apart_since = carried(true, at, self.apart_since);
    }

    /// Takes the news that the board shows the game's position, as `take` does.
    pub fn agree(&mut self)
        ensures { (at : ℕ) (added : Bool) (past : List EventOf) → AfterWrongStandsFor self.old past
            → AfterWrongStandsFor self.new (record { at = at; is_added = added; what = Agrees } ∷ past) }
    {
        self.apart_since = None;
    }

    /// How many moves were made one after the other while the row said WRONG.
    pub fn odd(&self) -> u64
        ensures { (past : List EventOf) → AfterWrongStandsFor self.now past → result ≡ odd_of past }
    {
        self.odd
    }
}
