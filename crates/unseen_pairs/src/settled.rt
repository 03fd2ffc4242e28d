//! The move that a picture settles in a position.
ghost use Rattle.std.specs.Prelude.{◌≡◌, ◌<◌, ◌^◌, ◌↔◌, IfSome, IfNone, IsTrue, Some};
ghost use Rattle.chess_rules.specs.declared.chess_move.Move.{Move as MoveOf};
ghost use Rattle.chess_rules.specs.Picture.{picture};
ghost use Rattle.settle_core.specs.Masks.{IsNoMove};
ghost use Rattle.settle_core.specs.Settling.{Settles};

use chess_rules::laws::pictures_tell_moves;
use chess_rules::{Move, Position};
use settle_core::laws::candidate;
use settle_core::masks::diff_mask;

/// Whether the picture settles this move.
fn settles(p: &Position, seen: &[u8; 64], m: &Move) -> bool
    ensures { IsTrue result ↔ Settles p.now seen.now m.now }
{
    // For its clause: the position is valid, and no other legal move gives the same picture.
    p.parts();
    pictures_tell_moves();
    p.is_legal(m.copy()) && p.play(m.copy()).picture() == *seen
}

/// Whether no move changes as many squares as the mask has.
fn is_no_move(mask: u64) -> bool
    ensures no_move { IsTrue result → IsNoMove mask }
    ensures fits { mask < 2 ^ 64 }
{
    let bits = mask.count_ones();
    bits < 2 || bits > 4
}

/// The one move that the squares may show on which the picture differs from the position's, if any.
fn candidate_in(p: &Position, before: &[u8; 64], seen: &[u8; 64]) -> Option<Move>
    ensures { before.now ≡ picture p.now → (m : MoveOf) → Settles p.now seen.now m → result ≡ Some m }
{
    // For its clause: the position is valid.
    p.parts();
    let mask = diff_mask(before, seen);
    if is_no_move(mask) {
        return None;
    }
    candidate(before, seen, mask)
}

/// The move that the picture settles in the position, if any: the one candidate is tested. The first picture is that of
/// the position.
pub fn settled_in(p: &Position, before: &[u8; 64], seen: &[u8; 64]) -> Option<Move>
    ensures some { IfSome result (Settles p.now seen.now) }
    ensures none { before.now ≡ picture p.now → IfNone result ((m : MoveOf) → ¬ Settles p.now seen.now m) }
{
    let m = candidate_in(p, before, seen)?;
    if settles(p, seen, &m) { Some(m) } else { None }
}
