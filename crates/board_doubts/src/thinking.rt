//! On whose time players think.
ghost use Rattle.std.specs.Prelude.{◌≡◌, ◌∷◌, [], Bool, List, None, count_by, if◌then◌else◌};
ghost use Rattle.board_doubts.specs.declared.heard.Event.{Event as EventOf};
ghost use Rattle.board_doubts.specs.Pace.{pace_of};
ghost use Rattle.board_doubts.specs.Thinking.{are_most_lent, counting as counting_of, counting_by, is_exchanged as is_exchanged_of, is_other as is_other_of, is_unknown as is_unknown_of, lent_by};
ghost use Rattle.board_doubts.specs.Keeping.{KeepsThinking, filled};

use crate::heard::{Event, Heard};
use crate::logic::both;

/// Of the last eight plies.
const MOST: usize = 7;

/// On whose time the last plies were thought about.
#[derive(Clone, Copy)]
pub struct Thinking {
    /// Whether it is Black's time that runs.
    counting: Option<bool>,
    /// Of the last eight plies whether each was thought about on the other side's time, the latest first.
    lent: [bool; 8],
}

fn counting_after(what: Heard, before: Option<bool>) -> Option<bool>
    ensures { result ≡ counting_by what before }
{
    match what {
        Heard::Counts { black } => Some(black),
        Heard::Presses => None,
        Heard::Clock { runs } => if runs { before } else { None },
        _ => before,
    }
}

pub fn is_other(one: bool, other: bool) -> bool
    ensures { result ≡ is_other_of one other }
{
    if one { !other } else { other }
}

/// Whose time runs, unless it isn't known.
fn known(is_unknown: bool, counting: Option<bool>) -> Option<bool>
    ensures { result ≡ (if is_unknown then None else counting) }
{
    if is_unknown { None } else { counting }
}

/// With one ply more.
fn with(one: bool, last: [bool; 8]) -> [bool; 8]
    ensures { (plies : List Bool) → last ≡ filled pace_of plies → result ≡ filled pace_of (one ∷ plies) }
{
    [
        one, last[0], last[1], last[2], last[3], last[4], last[5], last[6],
    ]
}

fn lent_after(what: Heard, is_added: bool, counting: Option<bool>, before: [bool; 8]) -> [bool; 8]
    ensures { (plies : List Bool) → before ≡ filled pace_of plies → result ≡ filled pace_of (lent_by what is_added counting plies) }
{
    match (what, counting) {
        (Heard::Plays(ply), Some(black)) if !is_added => with(is_other(black, ply.black), before),
        _ => before,
    }
}

fn count(lent: &[bool; 8]) -> usize
    ensures { result ≡ count_by (λ one. one) lent.now }
{
    lent.iter().filter(|one| **one).count()
}

/// Whether seven or more of them were.
fn are_most(lent: &[bool; 8]) -> bool
    ensures { (plies : List Bool) → lent.now ≡ filled pace_of plies → result ≡ are_most_lent plies }
{
    MOST <= count(lent)
}

impl Thinking {
    /// Nothing was heard.
    pub fn new() -> Thinking
        ensures { KeepsThinking result [] }
    {
        Thinking {
            counting: None,
            lent: [false; 8],
        }
    }

    /// Whose time has gone down last.
    pub fn counting(&self) -> Option<bool>
        ensures { (past : List EventOf) → KeepsThinking self.now past → result ≡ counting_of past }
    {
        self.counting
    }

    /// Takes what is heard, where it isn't known before whose time runs, or is.
    pub fn take(&mut self, event: Event, is_unknown: bool)
        ensures { (past : List EventOf) → is_unknown ≡ is_unknown_of past → KeepsThinking self.old past → KeepsThinking self.new (event ∷ past) }
    {
        let counting = known(is_unknown, self.counting);
        self.lent = lent_after(event.what, event.is_added, counting, self.lent);
        self.counting = counting_after(event.what, self.counting);
    }

    /// Whether with this ply seven of the last eight were thought about on the other side's time, and before it not so many.
    pub fn is_exchanged(&self, what: Heard, is_unknown: bool) -> bool
        ensures { (past : List EventOf) → is_unknown ≡ is_unknown_of past → KeepsThinking self.now past → result ≡ is_exchanged_of what past }
    {
        let counting = known(is_unknown, self.counting);
        let lent = lent_after(what, false, counting, self.lent);
        let are = are_most(&lent);
        let were = are_most(&self.lent);
        both(are, !were)
    }
}
