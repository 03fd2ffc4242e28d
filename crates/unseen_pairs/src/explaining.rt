//! The pairs of plies that explain a picture.
ghost use Rattle.std.specs.Prelude.{◌≡◌, ◌<◌, ◌↔◌, ◌^◌, ℕ, List, Contains, count_ones, IfOk, OnOk, IsTrue, slice_index};
ghost use Rattle.chess_rules.specs.declared.chess_move.Move.{Move as MoveOf};
ghost use Rattle.chess_rules.specs.declared.parts.Parts.{Parts as PartsOf};
ghost use Rattle.chess_rules.specs.After.{after};
ghost use Rattle.chess_rules.specs.Picture.{picture};
ghost use Rattle.chess_rules.specs.Legal.{Legal};
ghost use Rattle.unseen_pairs.specs.declared.pair.TwoPlies.{TwoPlies as TwoPliesOf};
ghost use Rattle.unseen_pairs.specs.Pairs.{IsAfterTwo};
ghost use Rattle.settle_core.specs.Lost.{Loses, LosesAt};
ghost use Rattle.unseen_pairs.specs.Inside.Explaining.{AddsPairs};

use crate::beginning::first_plies;
use crate::pair::TwoPlies;
use crate::settled::settled_in;
use chess_rules::{Move, Position, Side, kind_on};
use settle_core::masks::diff_mask;
use std::alloc::{AllocError, Global};

/// Whether a piece of this side stands on the square and the picture shows something else there.
fn loses_at(p: &Position, before: &[u8; 64], seen: &[u8; 64], side: Side, square: u8) -> bool
    requires low { square < 64 }
    requires before { before.now ≡ picture p.now }
    ensures { IsTrue result ↔ LosesAt p.now seen.now side square }
{
    // For its clause: the position is valid.
    let parts = p.parts();
    if before[square as usize] == seen[square as usize] {
        return false;
    }
    match kind_on(&parts.board, side, square) {
        Some(_) => true,
        None => false,
    }
}

/// Whether the picture shows something else where a piece of this side stands.
fn loses(p: &Position, before: &[u8; 64], seen: &[u8; 64], side: Side) -> bool
    requires { before.now ≡ picture p.now }
    ensures { IsTrue result ↔ Loses p.now seen.now side }
{
    for square in 0..64u8 {
        if loses_at(p, before, seen, side, square) {
            return true;
        }
    }
    false
}

/// Whether the mask has more squares than these.
pub fn has_more(mask: u64, most: u32) -> bool
    ensures more { IsTrue result → most < count_ones mask }
    ensures fits { mask < 2 ^ 64 }
{
    mask.count_ones() > most
}

/// Whether each side has left a square, and no more than eight squares differ: without that, no pair explains the
/// picture.
pub fn may_be_explained(p: &Position, seen: &[u8; 64]) -> bool
    ensures { (m n : MoveOf) → IsAfterTwo p.now seen.now m n → IsTrue result }
{
    // For its clause: the position is valid.
    let side = p.parts().side;
    let before = p.picture();
    if has_more(diff_mask(&before, seen), 8) {
        return false;
    }
    if !loses(p, &before, seen, side) {
        return false;
    }
    loses(p, &before, seen, side.other())
}

/// Whether the square that the move leaves is as it was: then no pair that explains the picture begins with this move.
fn stays(before: &[u8; 64], seen: &[u8; 64], m: &Move) -> bool
    ensures { IsTrue result ↔ (slice_index before.now m.now.from ≡ slice_index seen.now m.now.from) }
{
    let from = m.from.number() as usize;
    before[from] == seen[from]
}

/// Adds the pair with this first ply that explains the picture, if any: its second ply is the one that the picture
/// settles.
fn push_pair_with(
    pairs: &mut Vec<TwoPlies>,
    p: &Position,
    before: &[u8; 64],
    seen: &[u8; 64],
    first: &Move,
) -> Result<(), AllocError>
    requires first { Legal p.now first.now }
    requires before { before.now ≡ picture p.now }
    ensures { OnOk result (AddsPairs p.now seen.now first.now pairs.old.items pairs.new.items) }
{
    // For its clause: the position is valid.
    p.parts();
    if stays(before, seen, first) {
        return Ok(());
    }
    let middle = p.play(first.copy());
    let shown = middle.picture();
    let Some(second) = settled_in(&middle, &shown, seen) else {
        return Ok(());
    };
    pairs.push(TwoPlies {
        first: first.copy(),
        second,
    })?;
    Ok(())
}

/// The pairs of plies that give the picture from this position.
pub fn pairs_that_explain(
    alloc: Global,
    p: &Position,
    seen: &[u8; 64],
) -> Result<Vec<TwoPlies>, AllocError>
    ensures { IfOk result (λ pairs. (x : TwoPliesOf) → Contains pairs.items x ↔ IsAfterTwo p.now seen.now x.first x.second) }
{
    let mut pairs = Vec::new(alloc);
    let before = p.picture();
    let moves = first_plies(alloc, p, &before, seen)?;
    for first in moves.as_slice() {
        push_pair_with(&mut pairs, p, &before, seen, first)?;
    }
    Ok(pairs)
}
