//! Which board is on the cable, and what is done with what it sends.
ghost use Rattle.std.specs.Prelude.{◌≡◌, ◌≢◌, ◌<◌, ◌∷◌, [], ℕ, List, IfSome};
ghost use Rattle.std.specs.Str.{bytes_eq};
ghost use Rattle.board_cable.specs.declared.line.Event.{Event as EventOf};
ghost use Rattle.board_cable.specs.declared.line.Happening.TheVariants.{Dumps};
ghost use Rattle.board_cable.specs.Whose.{HandledAlike, HasWhose, awaited_by, dumps_by, handling_at, handling_by, handling_of, is_awaited, is_number_asked, is_own, known_by, left_by, own_by, own_number, sends_own, shown_by, shown_number};

use crate::lasting::{after, lasted, to_come};
use crate::line::{Event, Happening, Request};

/// What is done with what a board sends.
#[derive(Clone, Copy)]
pub enum Handling {
    /// It goes into the game's capture.
    Keep,
    /// It is held until the board's number has come.
    Hold,
    /// The board with this serial number sends it, and not the game's.
    Other([u8; 5]),
}

/// What decides whose board it is.
#[derive(Clone, Copy)]
pub struct Whose {
    own: Option<[u8; 5]>,
    shown: Option<[u8; 5]>,
    /// Whether the number of the game's board was known when the line was opened, or the call began; or was said since.
    was_known: bool,
    awaited: Option<u64>,
    dumps: u8,
    left: u8,
}

fn own(what: Happening, before: Option<[u8; 5]>) -> Option<[u8; 5]>
    ensures { result ≡ own_by what before }
{
    match what {
        Happening::Owns(number) => Some(number),
        Happening::Numbers(number) => match before {
            None => Some(number),
            Some(own) => Some(own),
        },
        _ => before,
    }
}

fn shown(what: Happening, before: Option<[u8; 5]>) -> Option<[u8; 5]>
    ensures { result ≡ shown_by what before }
{
    match what {
        Happening::Numbers(number) => Some(number),
        Happening::Begins | Happening::Opens => None,
        _ => before,
    }
}

/// Whether the number of the game's board was known when the line was opened, or the call began; or was said since.
fn known(what: Happening, own: &Option<[u8; 5]>, before: bool) -> bool
    ensures { result ≡ known_by what own.now before }
{
    match what {
        Happening::Owns(_) => true,
        Happening::Begins | Happening::Opens => own.is_some(),
        _ => before,
    }
}

fn awaited(what: Happening, at: u64, before: Option<u64>) -> Option<u64>
    ensures { result ≡ awaited_by what at before }
{
    match what {
        Happening::Opens => Some(at),
        Happening::Asks(Request::Start) => match before {
            None => Some(at),
            Some(since) => Some(since),
        },
        Happening::Answers => match before {
            None => None,
            Some(_) => Some(at),
        },
        Happening::Begins | Happening::Numbers(_) => None,
        _ => before,
    }
}

fn dumps(what: Happening, awaited: Option<u64>, before: u8) -> u8
    ensures { result ≡ dumps_by what awaited before }
{
    match what {
        Happening::Dumps(_) => before.saturating_add(1).min(3),
        Happening::Asks(Request::Start) => match awaited {
            None => 0,
            Some(_) => before,
        },
        Happening::Begins | Happening::Opens | Happening::Answers => 0,
        _ => before,
    }
}

fn left(what: Happening, own: &Option<[u8; 5]>, before: u8) -> u8
    ensures { result ≡ left_by what own.now before }
{
    match what {
        Happening::Asks(Request::Start) => match own {
            None => 0,
            Some(_) => 2,
        },
        Happening::Asks(Request::Numbered) => before.saturating_sub(1),
        Happening::Begins | Happening::Numbers(_) => 0,
        _ => before,
    }
}

/// Whether the number is still awaited: for 5 s, or three dumps.
fn is_awaited(now: u64, since: Option<u64>, dumps: u8) -> bool
    ensures { result ≡ is_awaited now since dumps }
{
    since.is_some() && !lasted(5000, now, since) && dumps < 3
}

fn are_same(number: &[u8], other: &[u8]) -> bool
    ensures { result ≡ bytes_eq number.now other.now }
{
    *number == *other
}

/// Whether the board on the cable has sent the number that the game's board has.
fn sends_own(shown: &Option<[u8; 5]>, own: &Option<[u8; 5]>) -> bool
    ensures { result ≡ sends_own shown.now own.now }
{
    match (shown, own) {
        (Some(shown), Some(own)) => are_same(shown, own),
        _ => false,
    }
}

/// What is done with what the board with this number sends, if another one may be the game's.
fn handling_of(shown: [u8; 5], own: &[u8; 5]) -> Handling
    ensures { result ≡ handling_of shown own.now }
{
    if are_same(&shown, own) {
        Handling::Keep
    } else {
        Handling::Other(shown)
    }
}

fn handling_by(is_awaited: bool, own: &Option<[u8; 5]>, shown: Option<[u8; 5]>) -> Handling
    ensures { result ≡ handling_by is_awaited own.now shown }
{
    let Some(own) = own else {
        return Handling::Keep;
    };
    if is_awaited {
        return Handling::Hold;
    }
    match shown {
        None => Handling::Keep,
        Some(shown) => handling_of(shown, own),
    }
}

impl Whose {
    /// Nothing has happened.
    pub fn new() -> Whose
        ensures { HasWhose result [] }
    {
        Whose {
            own: None,
            shown: None,
            was_known: false,
            awaited: None,
            dumps: 0,
            left: 0,
        }
    }

    /// Takes what happens.
    pub fn take(&mut self, event: Event)
        ensures { (past : List EventOf) → HasWhose self.old past → HasWhose self.new (event ∷ past) }
    {
        self.left = left(event.what, &self.own, self.left);
        self.dumps = dumps(event.what, self.awaited, self.dumps);
        self.awaited = awaited(event.what, event.at, self.awaited);
        self.was_known = known(event.what, &self.own, self.was_known);
        self.own = own(event.what, self.own);
        self.shown = shown(event.what, self.shown);
    }

    /// Takes a dump.
    pub fn take_dump(&mut self)
        ensures { (event : EventOf) (picture : List ℕ) (past : List EventOf) → event.what ≡ Dumps picture → HasWhose self.old past → HasWhose self.new (event ∷ past) }
    {
        self.dumps = self.dumps.saturating_add(1).min(3);
    }

    /// The number of the game's board, if it is known.
    pub fn own(&self) -> Option<[u8; 5]>
        ensures { (past : List EventOf) → HasWhose self.now past → result ≡ own_number past }
    {
        self.own
    }

    /// The number of the board on the cable, if it has sent one since the line was opened.
    pub fn shown(&self) -> Option<[u8; 5]>
        ensures { (past : List EventOf) → HasWhose self.now past → result ≡ shown_number past }
    {
        self.shown
    }

    /// Whether the board on the cable is the game's own: since the line was opened it has sent the number that was known then, or was
    /// said since.
    pub fn is_own(&self) -> bool
        ensures { (past : List EventOf) → HasWhose self.now past → result ≡ is_own past }
    {
        self.was_known && sends_own(&self.shown, &self.own)
    }

    /// Whether the number is asked for with the next request, though it doesn't ask for updates.
    pub fn is_asked(&self) -> bool
        ensures { (past : List EventOf) → HasWhose self.now past → result ≡ is_number_asked past }
    {
        0 < self.left
    }

    /// What is done now with what the board sends.
    pub fn handling(&self, now: u64) -> Handling
        ensures { (past : List EventOf) → HasWhose self.now past → result ≡ handling_at now past }
    {
        handling_by(
            is_awaited(now, self.awaited, self.dumps),
            &self.own,
            self.shown,
        )
    }

    /// When what is held is held no longer, if nothing happens.
    pub fn due(&self, now: u64) -> Option<u64>
        ensures later { IfSome result (λ due. now < due) }
        ensures waits { (past : List EventOf) → HasWhose self.now past → HandledAlike now past result }
        ensures ends { (past : List EventOf) → HasWhose self.now past → IfSome result (λ due. handling_at due past ≢ handling_at now past) }
    {
        if self.own.is_none() || 3 <= self.dumps {
            return None;
        }
        to_come(now, after(5000, self.awaited))
    }
}
