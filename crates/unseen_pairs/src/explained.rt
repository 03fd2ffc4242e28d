//! Whether a pair of plies that no picture showed explains a picture.
ghost use Rattle.std.specs.Prelude.{◌≡◌, ◌≢◌, ◌↔◌, IfOk, IsTrue, Some};
ghost use Rattle.chess_rules.specs.declared.chess_move.Move.{Move as MoveOf};
ghost use Rattle.settle_core.specs.Folding.{moves_of};
ghost use Rattle.unseen_pairs.specs.Pairs.{IsExplained};
ghost use Rattle.unseen_pairs.specs.Inside.Explaining.{IsBegunOtherwise};

use crate::explaining::pairs_that_explain;
use chess_rules::{Move, Position};
use settle_core::Settler;
use std::alloc::{AllocError, Global};

/// Whether this is the move.
fn is_move(other: &Option<Move>, m: &Move) -> bool
    ensures { IsTrue result ↔ (other.now ≡ Some m.now) }
{
    match other {
        Some(n) => *n == *m,
        None => false,
    }
}

/// Whether a pair from this position explains the picture, and begins with another move than this one.
fn is_begun_otherwise(
    alloc: Global,
    p: &Position,
    last: &Option<Move>,
    seen: &[u8; 64],
) -> Result<bool, AllocError>
    ensures { IfOk result (λ found. IsTrue found ↔ IsBegunOtherwise p.now last.now seen.now) }
{
    let pairs = pairs_that_explain(alloc, p, seen)?;
    'pairs: for two in pairs.as_slice() {
        if !is_move(last, &two.first) {
            return Ok(true);
        }
    }
    Ok(false)
}

/// Whether some pair of plies explains the picture, behind the settler's plies or in place of the last of them.
///
/// # Errors
///
/// Where there was no memory.
pub fn is_explained(alloc: Global, settler: &Settler, seen: &[u8; 64]) -> Result<bool, AllocError>
    ensures { IfOk result (λ found. IsTrue found ↔ IsExplained settler.now.start (moves_of settler.now.score.plies) seen.now) }
{
    if is_begun_otherwise(alloc, settler.position(), &None, seen)? {
        return Ok(true);
    }
    let Some(last) = settler.last_ply() else {
        return Ok(false);
    };
    let instead = is_begun_otherwise(alloc, &last.0, &Some(last.1.mv), seen)?;
    Ok(instead)
}
