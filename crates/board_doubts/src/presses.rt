//! Whether players press their clock after a ply.
ghost use Rattle.std.specs.Prelude.{◌≡◌, ◌≤◌, ◌+◌, ◌&&◌, ◌∷◌, [], not, List, ℕ, min, if◌then◌else◌};
ghost use Rattle.board_doubts.specs.declared.heard.Event.{Event as EventOf};
ghost use Rattle.board_doubts.specs.Pace.{last_within, quickest};
ghost use Rattle.board_doubts.specs.Presses.{counts_now as counts_now_of, is_early as is_early_of, is_left_by, is_press as is_press_of, is_used as is_used_of, known as known_of, many, most_quiet, pressed_at, pressed_at_by, presses, quiet as quiet_of, quiet_by, runs, runs_by, unpressed, unpressed_by};
ghost use Rattle.board_doubts.specs.Unheard.{is_unheard as is_unheard_of};
ghost use Rattle.board_doubts.specs.Unplayed.{unpressed_last as unpressed_last_of};
ghost use Rattle.board_doubts.specs.Waiting.{ply_times};
ghost use Rattle.board_doubts.specs.Keeping.{KeepsPresses};

use crate::heard::{Event, Heard};
use crate::logic::one_more;
use crate::thinking::is_other;

/// Players who use a clock press it at least once in so many plies.
const MANY: u64 = 6;

/// A press may be heard so long before its ply, in milliseconds.
const EARLY: u64 = 500;

/// No more plies without a press are counted than this.
const MOST_QUIET: u64 = 4;

/// What is known of presses of the clock.
#[derive(Clone, Copy)]
pub struct Presses {
    /// When it was pressed last since the last ply.
    pressed_at: Option<u64>,
    /// How many of the last plies have no press.
    quiet: u64,
    runs: bool,
    /// How many plies were made since it was pressed, while it ran.
    unpressed: u64,
}

/// Whether somebody presses the clock, of which this side's time has gone down last.
pub fn is_press(what: Heard, counting: Option<bool>) -> bool
    ensures { result ≡ is_press_of what counting }
{
    match (what, counting) {
        (Heard::Presses, _) => true,
        (Heard::Counts { black }, Some(before)) => is_other(black, before),
        _ => false,
    }
}

fn pressed_at_after(what: Heard, at: u64, is_press: bool, before: Option<u64>) -> Option<u64>
    ensures { result ≡ pressed_at_by what at is_press before }
{
    match what {
        Heard::Plays(_) => None,
        _ => if is_press { Some(at) } else { before },
    }
}

/// Whether a ply that is made now was pressed for already.
fn is_early(now: u64, pressed_at: Option<u64>) -> bool
    ensures { result ≡ is_early_of now pressed_at }
{
    match pressed_at {
        None => false,
        Some(at) => now.saturating_sub(at) <= EARLY,
    }
}

/// What is known of a count while the clock is heard, or isn't.
pub fn known(is_unheard: bool, count: u64) -> u64
    ensures { result ≡ known_of is_unheard count }
{
    if is_unheard { 0 } else { count }
}

fn quiet_after(what: Heard, is_press: bool, is_early: bool, is_unheard: bool, before: u64) -> u64
    ensures { result ≡ quiet_by what is_press is_early is_unheard before }
{
    match what {
        Heard::Plays(_) => if is_early {
            0
        } else {
            one_more(MOST_QUIET, known(is_unheard, before))
        },
        _ => if is_press { 0 } else { before },
    }
}

fn runs_after(what: Heard, before: bool) -> bool
    ensures { result ≡ runs_by what before }
{
    match what {
        Heard::Clock { runs } => runs,
        _ => before,
    }
}

/// One ply more, if it counts.
fn with_ply(counts: bool, before: u64) -> u64
    ensures { result ≡ (if counts then min many (before + 1) else before) }
{
    if counts {
        one_more(MANY, before)
    } else {
        before
    }
}

fn unpressed_after(what: Heard, is_press: bool, counts: bool, before: u64) -> u64
    ensures { result ≡ unpressed_by what is_press counts before }
{
    match what {
        Heard::Plays(_) => with_ply(counts, before),
        _ => if is_press { 0 } else { before },
    }
}

/// Whether with this ply so many were made without a press, if it counts.
fn is_left(what: Heard, counts: bool, count: u64) -> bool
    requires { count ≤ many }
    ensures { result ≡ is_left_by what counts count }
{
    match what {
        Heard::Plays(_) => counts && count + 1 == MANY,
        _ => false,
    }
}

impl Presses {
    /// Nothing was heard.
    pub fn new() -> Presses
        ensures { KeepsPresses result [] }
    {
        Presses {
            pressed_at: None,
            quiet: 0,
            runs: false,
            unpressed: MANY,
        }
    }

    /// Takes what is heard. It may be a press; the clock may not have been heard; and the last ply may have been a quick one.
    pub fn take(&mut self, event: Event, is_press: bool, is_unheard: bool, is_quick: bool)
        ensures { (past : List EventOf) → is_press ≡ presses event.what past → is_unheard ≡ is_unheard_of past
            → is_quick ≡ last_within quickest (ply_times past) → KeepsPresses self.old past → KeepsPresses self.new (event ∷ past) }
    {
        let counts = self.counts_now(is_quick);
        let is_early = is_early(event.at, self.pressed_at);
        self.quiet = quiet_after(event.what, is_press, is_early, is_unheard, self.quiet);
        self.unpressed = unpressed_after(
            event.what,
            is_press,
            counts && !event.is_added,
            self.unpressed,
        );
        self.pressed_at = pressed_at_after(event.what, event.at, is_press, self.pressed_at);
        self.runs = runs_after(event.what, self.runs);
    }

    /// Whether the players use a clock.
    pub fn is_used(&self) -> bool
        ensures { (past : List EventOf) → KeepsPresses self.now past → result ≡ is_used_of past }
    {
        self.unpressed < MANY
    }

    /// Whether the clock runs, by what it said last.
    pub fn runs(&self) -> bool
        ensures { (past : List EventOf) → KeepsPresses self.now past → result ≡ runs past }
    {
        self.runs
    }

    /// Whether a ply that is made now counts.
    fn counts_now(&self, is_quick: bool) -> bool
        ensures { (past : List EventOf) → is_quick ≡ last_within quickest (ply_times past) → KeepsPresses self.now past → result ≡ counts_now_of past }
    {
        self.runs && !is_quick
    }

    /// Whether with this ply many were made one after the other while the clock ran, and nobody pressed it.
    pub fn is_left(&self, what: Heard, is_quick: bool) -> bool
        ensures { (past : List EventOf) → is_quick ≡ last_within quickest (ply_times past) → KeepsPresses self.now past
            → result ≡ is_left_by what (counts_now_of past) (unpressed past) }
    {
        is_left(what, self.counts_now(is_quick), self.unpressed.min(MANY))
    }

    /// How many of the last plies have no press, but for the first of these.
    pub fn unpressed_last(&self) -> u64
        ensures { (past : List EventOf) → KeepsPresses self.now past → result ≡ unpressed_last_of past }
    {
        if self.is_used() {
            self.unpressed.saturating_sub(1)
        } else {
            0
        }
    }

    /// How many of the last plies have no press.
    pub fn quiet(&self) -> u64
        ensures { (past : List EventOf) → KeepsPresses self.now past → result ≡ quiet_of past }
    {
        self.quiet
    }
}
