//! The result that stands.
ghost use Rattle.std.specs.Prelude.{◌≡◌, ◌<◌, ◌^◌, ℕ};
ghost use Rattle.game_over.specs.Result.{given_by, has_come, has_passed as has_passed_of, has_stood as has_stood_of, new_given, resumed as resumed_of, waits as waits_of};

use crate::happened::{Event, Happening, Outcome};
use square_runs::lasted;

/// A result ends the game when it has stood for this, in milliseconds.
const STANDS: u64 = 10_000;

/// A result that the board has shown ends the game after this, if the board isn't heard.
const UNHEARD: u64 = 17_000;

/// A result that the game has.
#[derive(Clone, Copy)]
pub struct Given {
    pub outcome: Outcome,
    /// When it was given, or the board was heard again after that.
    pub at: u64,
    /// So many bytes the capture has with it.
    pub bytes: u64,
    /// The kings or an arbiter gave it; else it is mate or stalemate.
    pub is_declared: bool,
    /// An arbiter gave it, or added the move with which it came.
    pub is_added: bool,
}

fn give(outcome: Outcome, is_declared: bool, is_added: bool, event: Event) -> Given
    ensures { result ≡ new_given outcome is_declared is_added event.at event.bytes }
{
    Given {
        outcome,
        at: event.at,
        bytes: event.bytes,
        is_declared,
        is_added,
    }
}

/// The result stands from now on, if there is one.
fn resumed(at: u64, given: Option<Given>) -> Option<Given>
    ensures { result ≡ resumed_of at given }
{
    match given {
        None => None,
        Some(given) => Some(Given { at, ..given }),
    }
}

/// The result that stands after this event, if before it this one stood.
pub fn given_after(event: Event, before: Option<Given>) -> Option<Given>
    ensures { result ≡ given_by event.what event.at event.bytes before }
{
    match event.what {
        Happening::Ends { outcome, is_added } => Some(give(outcome, false, is_added, event)),
        Happening::Declares { outcome, is_added } => Some(give(outcome, true, is_added, event)),
        Happening::Moves(_) | Happening::Reopens => None,
        Happening::Resumes => resumed(event.at, before),
        _ => before,
    }
}

/// Whether the result has stood long enough.
pub fn has_stood(now: u64, given: Option<Given>) -> bool
    ensures { result ≡ has_stood_of now given }
{
    match given {
        None => false,
        Some(given) => lasted(STANDS, now, Some(given.at)),
    }
}

/// How long a result must stand that nobody sees standing.
fn waits(given: Given) -> u64
    ensures { result ≡ waits_of given }
{
    if given.is_added { STANDS } else { UNHEARD }
}

/// Whether it ends the game by time alone.
pub fn has_passed(now: u64, given: Option<Given>) -> bool
    ensures { result ≡ has_passed_of now given }
{
    match given {
        None => false,
        Some(given) => lasted(waits(given), now, Some(given.at)),
    }
}

/// When it will.
pub fn stands_until(given: Option<Given>) -> Option<u64>
    ensures { (time : ℕ) → time < 2 ^ 64 → has_come time result ≡ has_passed_of time given }
{
    match given {
        None => None,
        Some(given) => given.at.checked_add(waits(given)),
    }
}
