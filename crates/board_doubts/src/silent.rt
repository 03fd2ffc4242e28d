//! Plies for which nobody presses a clock that is used.
ghost use Rattle.std.specs.Prelude.{◌≡◌};
ghost use Rattle.board_doubts.specs.Silent.{needed as needed_of, pending_by, silent_by, suspects as suspects_of};

use crate::heard::{Heard, Why};

/// What a ply is suspected for if nobody presses, where both sides have gone back with it, or on, or the position has been there
/// before.
pub fn suspects(back: bool, on: bool, again: bool) -> Option<Why>
    ensures { result ≡ suspects_of back on again }
{
    if back {
        return Some(Why::TakenBack);
    }
    if on {
        return Some(Why::MovedOn);
    }
    if again { Some(Why::Returned) } else { None }
}

/// What the last ply is suspected for after this is heard.
pub fn pending_after(
    what: Heard,
    is_unheard: bool,
    new: Option<Why>,
    before: Option<Why>,
) -> Option<Why>
    ensures { result ≡ pending_by what is_unheard new before }
{
    match what {
        Heard::Plays(_) | Heard::Replaces(_) => new,
        Heard::Shows(_) => if is_unheard { before } else { None },
        Heard::Clock { .. } | Heard::Reopens | Heard::PutsBack => None,
        _ => before,
    }
}

/// So many of the last plies must have no press.
fn needed(why: Why) -> u64
    ensures { result ≡ needed_of why }
{
    match why {
        Why::Returned => 4,
        _ => 2,
    }
}

/// Why the last ply is doubted now, if so many have none.
pub fn silent(count: u64, pending: Option<Why>) -> Option<Why>
    ensures { result ≡ silent_by count pending }
{
    match pending {
        None => None,
        Some(why) => if count < needed(why) { None } else { Some(why) },
    }
}
