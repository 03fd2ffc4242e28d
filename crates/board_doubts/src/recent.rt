//! What was heard since the last news.
ghost use Rattle.std.specs.Prelude.{◌≡◌, ◌∷◌, [], is_some, List};
ghost use Rattle.board_doubts.specs.declared.heard.Event.{Event as EventOf};
ghost use Rattle.board_doubts.specs.declared.heard.Heard.TheVariants.{Shows};
ghost use Rattle.board_doubts.specs.Doubts.{may_be_moved as may_be_moved_of};
ghost use Rattle.board_doubts.specs.Pictures.{Laid, by_both_perhaps, has_stood, own, stands};
ghost use Rattle.board_doubts.specs.Recent.{first_by, gap as gap_of, gap_by, has_gap as has_gap_of, is_news as is_news_of, is_restart as is_restart_of, pictures, restart_by, touched as touched_of, touched_by, with_picture};
ghost use Rattle.board_doubts.specs.Keeping.{KeepsRecent, KeepsSince};

use crate::heard::{Event, Gap, Heard, Seen};
use crate::since::Since;

/// No time counts for longer than a day, in milliseconds.
pub const DAY: u64 = 86_400_000;

/// What was heard since the last news.
#[derive(Clone, Copy)]
pub struct Recent {
    since: Since,
    gap: Option<u64>,
    is_restart: bool,
    comes_first: bool,
    touched: bool,
}

/// Whether it is news.
pub fn is_news(what: Heard) -> bool
    ensures { result ≡ is_news_of what }
{
    match what {
        Heard::Moves { .. }
        | Heard::Corrects { .. }
        | Heard::Agrees
        | Heard::Ends
        | Heard::Reopens => true,
        _ => false,
    }
}

fn first_after(what: Heard, before: bool) -> bool
    ensures { result ≡ first_by what before }
{
    match what {
        Heard::Away(_) => true,
        Heard::Shows(_) => false,
        _ => before,
    }
}

/// The time of a gap, added to one before it.
fn added(gap: Gap, before: Option<u64>) -> u64
    ensures { Some result ≡ gap_by (Heard.Away gap) before }
{
    let sum = gap.lasted.min(DAY) + before.unwrap_or(0).min(DAY);
    sum.min(DAY)
}

fn gap_after(what: Heard, before: Option<u64>) -> Option<u64>
    ensures { result ≡ gap_by what before }
{
    match what {
        Heard::Away(gap) => Some(added(gap, before)),
        _ => before,
    }
}

fn restart_after(what: Heard, before: bool) -> bool
    ensures { result ≡ restart_by what before }
{
    match what {
        Heard::Away(gap) => gap.is_restart,
        _ => before,
    }
}

fn touched_after(what: Heard, away: bool, before: bool) -> bool
    ensures { result ≡ touched_by what away before }
{
    match what {
        Heard::Shows(seen) => before || (away && seen.in_hand),
        _ => before,
    }
}

/// Takes the picture that is shown, if one is. Those before a pair that is put in belong to the pair.
fn show(since: &mut Since, at: u64, first: bool, what: Heard)
    ensures { (past : List Laid) → KeepsSince since.old past → KeepsSince since.new (with_picture what at first past) }
{
    match what {
        Heard::Shows(seen) => since.show(at, first, &seen),
        Heard::PutsIn => since.clear(),
        _ => {}
    }
}

impl Recent {
    /// Nothing was heard.
    pub fn new() -> Recent
        ensures { KeepsRecent result [] }
    {
        Recent {
            since: Since::new(),
            gap: None,
            is_restart: false,
            comes_first: false,
            touched: false,
        }
    }

    /// Begins anew, as if nothing had been heard.
    pub fn clear(&mut self)
        ensures { KeepsRecent self.new [] }
    {
        self.since.clear();
        self.gap = None;
        self.is_restart = false;
        self.comes_first = false;
        self.touched = false;
    }

    /// Takes what is heard.
    pub fn take(&mut self, event: Event)
        ensures { (past : List EventOf) → KeepsRecent self.old past → KeepsRecent self.new (event ∷ past) }
    {
        show(&mut self.since, event.at, self.comes_first, event.what);
        self.touched = touched_after(event.what, self.gap.is_some(), self.touched);
        self.comes_first = first_after(event.what, self.comes_first);
        self.gap = gap_after(event.what, self.gap);
        self.is_restart = restart_after(event.what, self.is_restart);
    }

    /// Takes a picture.
    pub fn see(&mut self, at: u64, is_added: bool, seen: &Seen)
        ensures { let event : EventOf = record { at = at; is_added = is_added; what = Shows seen.now } in (past : List EventOf)
            → KeepsRecent self.old past → KeepsRecent self.new (event ∷ past) }
    {
        self.since.show(at, self.comes_first, seen);
        self.touched = self.touched || (self.gap.is_some() && seen.in_hand);
        self.comes_first = false;
    }

    /// How long the board wasn't heard, if there was such a time.
    pub fn gap(&self) -> Option<u64>
        ensures { (past : List EventOf) → KeepsRecent self.now past → result ≡ gap_of past }
    {
        self.gap
    }

    /// Whether there was.
    pub fn has_gap(&self) -> bool
        ensures { (past : List EventOf) → KeepsRecent self.now past → result ≡ has_gap_of past }
    {
        self.gap.is_some()
    }

    /// Whether the recorder was away then.
    pub fn is_restart(&self) -> bool
        ensures { (past : List EventOf) → KeepsRecent self.now past → result ≡ is_restart_of past }
    {
        self.is_restart
    }

    /// Whether a piece of the side that moved last was in a hand since then.
    pub fn touched(&self) -> bool
        ensures { (past : List EventOf) → KeepsRecent self.now past → result ≡ touched_of past }
    {
        self.touched
    }

    /// Whether both sides may have moved, or one if the board wasn't heard for a time.
    pub fn may_be_moved(&self) -> bool
        ensures { (past : List EventOf) → KeepsRecent self.now past → result ≡ may_be_moved_of past }
    {
        let by_both = self.since.by_both();
        let by_one = self.since.by_one();
        by_both || (self.gap.is_some() && by_one)
    }

    /// Whether both may have, if the piece that moved last doesn't stay where it belongs.
    pub fn by_both_perhaps(&self) -> bool
        ensures { (past : List EventOf) → KeepsRecent self.now past → result ≡ by_both_perhaps (pictures past) }
    {
        self.since.by_both_perhaps()
    }

    /// Whether the side to move may have.
    pub fn by_own(&self) -> bool
        ensures { (past : List EventOf) → KeepsRecent self.now past → result ≡ has_stood own stands (pictures past) }
    {
        self.since.by_own()
    }
}
