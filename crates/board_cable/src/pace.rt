//! When a board is asked for a dump.
ghost use Rattle.std.specs.Prelude.{◌≡◌, ◌≢◌, ◌<◌, ◌^◌, ◌∷◌, [], ℕ, List, IfSome, if◌then◌else◌};
ghost use Rattle.board_cable.specs.Lasting.{has_come};
ghost use Rattle.board_cable.specs.declared.line.Event.{Event as EventOf};
ghost use Rattle.board_cable.specs.declared.line.Happening.TheVariants.{Dumps, Updates};
ghost use Rattle.board_cable.specs.Line.{asked_by, dumped_by, is_unanswered, open_by, unanswered_by, unfinished_by, updated_by, wanted_by};
ghost use Rattle.board_cable.specs.Pace.{HasPace, asks, AsksAlike, would_help};

use crate::lasting::{after, at_once_or_after, has_come, later, sooner, to_come};
use crate::line::{Event, Happening};

/// What the pace of the requests depends on.
#[derive(Clone, Copy)]
pub struct Pace {
    is_open: bool,
    is_wanted: bool,
    is_unanswered: bool,
    asked: Option<u64>,
    unfinished: Option<u64>,
    updated: Option<u64>,
    dumped: Option<u64>,
}

fn opened(what: Happening, before: bool) -> bool
    ensures { result ≡ open_by what before }
{
    match what {
        Happening::Opens => true,
        Happening::Begins | Happening::Closes | Happening::HangsUp => false,
        _ => before,
    }
}

fn wanted(what: Happening, before: bool) -> bool
    ensures { result ≡ wanted_by what before }
{
    match what {
        Happening::Opens | Happening::Faults | Happening::Interrupts => true,
        Happening::Begins | Happening::Dumps(_) => false,
        _ => before,
    }
}

fn unanswered(what: Happening, before: bool) -> bool
    ensures { result ≡ unanswered_by what before }
{
    match what {
        Happening::Asks(_) => true,
        Happening::Begins | Happening::Opens | Happening::Dumps(_) | Happening::Interrupts => false,
        _ => before,
    }
}

fn asked(what: Happening, at: u64, before: Option<u64>) -> Option<u64>
    ensures { result ≡ asked_by what at before }
{
    match what {
        Happening::Asks(_) => Some(at),
        Happening::Begins | Happening::Opens => None,
        _ => before,
    }
}

fn unfinished(what: Happening, at: u64, before: Option<u64>) -> Option<u64>
    ensures { result ≡ unfinished_by what at before }
{
    match what {
        Happening::Comes(unfinished) => if unfinished { Some(at) } else { None },
        Happening::Begins | Happening::Opens | Happening::Interrupts => None,
        _ => before,
    }
}

fn updated(what: Happening, at: u64, before: Option<u64>) -> Option<u64>
    ensures { result ≡ updated_by what at before }
{
    match what {
        Happening::Updates => Some(at),
        Happening::Begins | Happening::Opens => None,
        _ => before,
    }
}

fn dumped(
    what: Happening,
    at: u64,
    unanswered: bool,
    asked: Option<u64>,
    before: Option<u64>,
) -> Option<u64>
    ensures { result ≡ dumped_by what at unanswered asked before }
{
    match what {
        Happening::Opens => Some(at),
        Happening::Dumps(_) => if unanswered { asked } else { Some(at) },
        Happening::Begins => None,
        _ => before,
    }
}

/// For how long a request keeps others back.
fn between(is_unanswered: bool) -> u64
    ensures span { result ≡ (if is_unanswered then 1000 else 200) }
    ensures some { 0 < result }
{
    if is_unanswered { 1000 } else { 200 }
}

impl Pace {
    /// Nothing has happened.
    pub fn new() -> Pace
        ensures { HasPace result [] }
    {
        Pace {
            is_open: false,
            is_wanted: false,
            is_unanswered: false,
            asked: None,
            unfinished: None,
            updated: None,
            dumped: None,
        }
    }

    /// Takes what happens.
    pub fn take(&mut self, event: Event)
        ensures { (past : List EventOf) → HasPace self.old past → HasPace self.new (event ∷ past) }
    {
        self.dumped = dumped(
            event.what,
            event.at,
            self.is_unanswered,
            self.asked,
            self.dumped,
        );
        self.is_open = opened(event.what, self.is_open);
        self.is_wanted = wanted(event.what, self.is_wanted);
        self.is_unanswered = unanswered(event.what, self.is_unanswered);
        self.asked = asked(event.what, event.at, self.asked);
        self.unfinished = unfinished(event.what, event.at, self.unfinished);
        self.updated = updated(event.what, event.at, self.updated);
    }

    /// Takes an update.
    pub fn take_update(&mut self, at: u64)
        ensures { let event : EventOf = record { at = at; what = Updates } in (past : List EventOf) → HasPace self.old past → HasPace self.new (event ∷ past) }
    {
        self.updated = Some(at);
    }

    /// Takes a dump.
    pub fn take_dump(&mut self, at: u64)
        ensures { (event : EventOf) (picture : List ℕ) (past : List EventOf) → event.at ≡ at → event.what ≡ Dumps picture → HasPace self.old past → HasPace self.new (event ∷ past) }
    {
        self.dumped = if self.is_unanswered {
            self.asked
        } else {
            Some(at)
        };
        self.is_wanted = false;
        self.is_unanswered = false;
    }

    /// Whether a request was sent that is still to be answered.
    pub fn is_unanswered(&self) -> bool
        ensures { (past : List EventOf) → HasPace self.now past → result ≡ is_unanswered past }
    {
        self.is_unanswered
    }

    /// When a dump would help.
    fn helps_from(&self) -> Option<u64>
        ensures { (now : ℕ) (past : List EventOf) → now < 2 ^ 64 → HasPace self.now past → has_come now result ≡ would_help now past }
    {
        if self.is_wanted {
            return Some(0);
        }
        let finished = after(200, self.unfinished);
        let old = after(1000, self.dumped);
        let quiet = at_once_or_after(500, self.updated);
        let oldest = after(4000, self.dumped);
        sooner(finished, sooner(later(old, quiet), oldest))
    }

    /// When the board is asked, if nothing happens.
    fn asks_from(&self) -> Option<u64>
        ensures { (now : ℕ) (past : List EventOf) → now < 2 ^ 64 → HasPace self.now past → has_come now result ≡ asks now past }
    {
        if !self.is_open {
            return None;
        }
        let may_ask = at_once_or_after(between(self.is_unanswered), self.asked);
        later(may_ask, self.helps_from())
    }

    /// Whether the board is asked now.
    pub fn asks(&self, now: u64) -> bool
        ensures { (past : List EventOf) → HasPace self.now past → result ≡ asks now past }
    {
        has_come(now, self.asks_from())
    }

    /// When the board is asked, if it isn't now and nothing happens.
    pub fn due(&self, now: u64) -> Option<u64>
        ensures later { IfSome result (λ due. now < due) }
        ensures waits { (past : List EventOf) → HasPace self.now past → AsksAlike now past result }
        ensures asks { (past : List EventOf) → HasPace self.now past → IfSome result (λ due. asks due past ≢ asks now past) }
    {
        to_come(now, self.asks_from())
    }
}
