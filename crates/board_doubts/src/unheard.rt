//! Times in which the clock wasn't heard.
ghost use Rattle.std.specs.Prelude.{◌≡◌};
ghost use Rattle.board_doubts.specs.Unheard.{unheard_by};

use crate::heard::Heard;

/// Whether the clock has said nothing since the board wasn't heard for a time.
pub fn unheard_after(what: Heard, before: bool) -> bool
    ensures { result ≡ unheard_by what before }
{
    match what {
        Heard::Away(_) => true,
        Heard::Clock { .. } => false,
        _ => before,
    }
}
