//! Moves that are made while the clock is stopped: players try moves after they have agreed on a draw, or the clock was
//! forgotten.
ghost use Rattle.std.specs.Prelude.{◌≡◌, ◌&&◌, ◌||◌, ◌∷◌, [], not, List};
ghost use Rattle.square_runs.specs.Lasting.{has_lasted};
ghost use Rattle.board_doubts.specs.declared.heard.Event.{Event as EventOf};
ghost use Rattle.board_doubts.specs.Clock.{acknowledges as acknowledges_of, ago, ago_by, has_no_clock as has_no_clock_of, has_stopped as has_stopped_of, is_after as is_after_of, is_stopped as is_stopped_of, most, run_by, running, seen_late, stands_by, stands_since, tried as tried_in, tried_by, tries_of};
ghost use Rattle.board_doubts.specs.Keeping.{ClockStandsFor};

use crate::heard::{Event, Heard};
use crate::logic::one_more;
use crate::unheard::unheard_after;
use square_runs::{carried, lasted};

/// In the low four bits of a byte: the message acknowledges a command to the clock.
const ACKNOWLEDGES: u8 = 10;

/// A move that was made before the clock was stopped may be seen within this after it, in milliseconds.
const SEEN_LATE: u64 = 3_000;

/// No more moves are counted than this.
pub const MOST: u64 = 9_999;

/// Moves that were made one after the other while the clock was stopped.
#[derive(Clone, Copy)]
pub struct Tried {
    /// How many: 9,999 at most.
    pub moves: u64,
    /// How many plies ago the last one before them was made: more than they are, if others were typed between them.
    pub plies: u64,
}

fn acknowledges(bytes: &[u8; 7]) -> bool
    ensures { result ≡ acknowledges_of bytes.now }
{
    bytes[0] % 16 == ACKNOWLEDGES || bytes[3] % 16 == ACKNOWLEDGES
}

fn has_no_clock(bytes: &[u8; 7]) -> bool
    ensures { result ≡ has_no_clock_of bytes.now }
{
    bytes[6] / 32 % 2 == 1
}

/// Whether the clock runs, by the seven bytes of a time message; `None` where they don't say.
pub fn runs(bytes: &[u8; 7]) -> Option<bool>
    ensures { result ≡ running bytes.now }
{
    if acknowledges(bytes) || has_no_clock(bytes) {
        return None;
    }
    Some(bytes[6] % 2 == 1)
}

/// Counts the moves that are made while the clock is stopped.
#[derive(Clone, Copy)]
pub struct StoppedClock {
    has_run: bool,
    stands_since: Option<u64>,
    /// It has said nothing since the board wasn't heard for a time.
    is_unheard: bool,
    tried: u64,
    ago: u64,
}

fn run_after(what: Heard, before: bool) -> bool
    ensures { result ≡ run_by what before }
{
    match what {
        Heard::Clock { runs } => runs || before,
        _ => before,
    }
}

fn stands_after(what: Heard, at: u64, is_unheard: bool, since: Option<u64>) -> Option<u64>
    ensures { result ≡ stands_by what at is_unheard since }
{
    match what {
        Heard::Clock { runs } => if runs { None } else { carried(true, at, since) },
        Heard::Presses | Heard::Counts { .. } => if is_unheard { None } else { since },
        _ => since,
    }
}

/// Whether a move that is seen now was made after the stop, if none was seen since then, or some were.
fn was_made_after(is_none: bool, now: u64, since: Option<u64>) -> bool
    ensures { result ≡ (not is_none || has_lasted seen_late now since) }
{
    !is_none || lasted(SEEN_LATE, now, since)
}

fn tried_after(what: Heard, is_added: bool, is_stopped: bool, before: u64) -> u64
    ensures { result ≡ tried_by what is_added is_stopped before }
{
    match what {
        Heard::Moves { .. } => {
            if is_added {
                before
            } else if is_stopped {
                one_more(MOST, before)
            } else {
                0
            }
        }
        Heard::Clock { runs } => if runs { 0 } else { before },
        Heard::Looked => 0,
        _ => before,
    }
}

fn ago_after(what: Heard, is_added: bool, is_none: bool, before: u64) -> u64
    ensures { result ≡ ago_by what is_added is_none before }
{
    match what {
        Heard::Moves { .. } => if is_none && !is_added {
            1
        } else {
            one_more(MOST, before)
        },
        _ => before,
    }
}

impl StoppedClock {
    /// Nothing was heard.
    pub fn new() -> StoppedClock
        ensures { ClockStandsFor result [] }
    {
        StoppedClock {
            has_run: false,
            stands_since: None,
            is_unheard: false,
            tried: 0,
            ago: 0,
        }
    }

    /// Takes what is heard. If it is a move that was made while the clock was stopped, returns how many were made so.
    pub fn take(&mut self, event: Event) -> Option<Tried>
        ensures stands { (past : List EventOf) → ClockStandsFor self.old past → ClockStandsFor self.new (event ∷ past) }
        ensures tried { (past : List EventOf) → ClockStandsFor self.old past → result ≡ tries_of event past }
    {
        let since = self.stands_since;
        let is_stopped = self.is_stopped();
        let is_none = self.tried == 0;
        self.ago = ago_after(event.what, event.is_added, is_none, self.ago);
        self.tried = tried_after(event.what, event.is_added, is_stopped, self.tried);
        self.has_run = run_after(event.what, self.has_run);
        self.stands_since = stands_after(event.what, event.at, self.is_unheard, since);
        self.is_unheard = unheard_after(event.what, self.is_unheard);
        let is_after = was_made_after(is_none, event.at, since);
        self.tries(event, is_stopped && is_after)
    }

    /// How many moves were made one after the other while the clock was stopped, and how many plies ago the last one before them.
    pub fn tried(&self) -> Tried
        ensures { (past : List EventOf) → ClockStandsFor self.now past → result ≡ record { moves = tried_in past; plies = ago past } }
    {
        Tried {
            moves: self.tried,
            plies: self.ago,
        }
    }

    /// Whether the clock has run, and stood when it spoke last.
    pub fn has_stopped(&self) -> bool
        ensures { (past : List EventOf) → ClockStandsFor self.now past → result ≡ has_stopped_of past }
    {
        let stood = self.stands_since.is_some();
        self.has_run && stood
    }

    /// Whether the clock has run, and stands now.
    fn is_stopped(&self) -> bool
        ensures { (past : List EventOf) → ClockStandsFor self.now past → result ≡ is_stopped_of past }
    {
        self.has_run && self.stands_since.is_some() && !self.is_unheard
    }

    /// What is counted, if this is a move, and moves are made while the clock is stopped.
    fn tries(&self, event: Event, is_tried: bool) -> Option<Tried>
        ensures { (past : List EventOf) → ClockStandsFor self.now (event ∷ past)
            → is_tried ≡ (is_stopped_of past && is_after_of event.at past) → result ≡ tries_of event past }
    {
        match event.what {
            Heard::Moves { .. } if is_tried && !event.is_added => Some(Tried {
                moves: self.tried,
                plies: self.ago,
            }),
            _ => None,
        }
    }
}
