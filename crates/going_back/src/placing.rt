//! Where a line of moves comes in.
ghost use Rattle.std.specs.Prelude.{◌≤◌, ℕ, IfNone, IfOk, IfSome, length};
ghost use Rattle.settle_core.specs.Folding.{moves_of};
ghost use Rattle.settle_core.specs.Settling.{Line};
ghost use Rattle.going_back.specs.Placing.{IsPlace};

use chess_rules::Position;
use settle_core::Ply;
use std::alloc::{AllocError, Global};
use typed_lines::begins_at;

/// Behind how many plies the next move has the number with which the text begins; none where it has it nowhere.
///
/// # Errors
///
/// Where there is no memory.
pub fn place_of(
    alloc: Global,
    start: &Position,
    plies: &[Ply],
    text: &[u8],
) -> Result<Option<usize>, AllocError>
    requires { Line start.now (moves_of plies.now) }
    ensures some { IfOk result (λ found. IfSome found (λ k. (k ≤ length plies.now) × IsPlace start.now plies.now text.now k)) }
    ensures none { IfOk result (λ found. IfNone found ((k : ℕ) → IsPlace start.now plies.now text.now k → ⊥)) }
{
    let mut position = *start;
    let mut number = 0;
    for ply in plies {
        if begins_at(alloc, &position, text)? {
            return Ok(Some(number));
        }
        position = position.play(ply.mv);
        number += 1;
    }
    if begins_at(alloc, &position, text)? {
        return Ok(Some(number));
    }
    Ok(None)
}
