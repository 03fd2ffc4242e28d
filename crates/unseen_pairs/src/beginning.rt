//! The first plies of the pairs that may explain a picture, as the squares tell on which it differs from the
//! position's.
ghost use Rattle.std.specs.Prelude.{◌≡◌, ◌<◌, IfOk, IsTrue, OnOk, Some};
ghost use Rattle.std.specs.Int.{bit_at};
ghost use Rattle.chess_rules.specs.declared.pieces.Kind.TheVariants.{Pawn};
ghost use Rattle.chess_rules.specs.Board.{on, piece_of};
ghost use Rattle.chess_rules.specs.Legal.{IsOfficer};
ghost use Rattle.chess_rules.specs.Picture.{picture};
ghost use Rattle.settle_core.specs.Masks.{IsDiff};
ghost use Rattle.unseen_pairs.specs.Inside.Beginning.{AddsMoves, Begins, EndsAmong, IsBetween, IsPlainPawn, ListsFirst, TheirsLand};

use chess_rules::{Kind, Move, Position, Side, Square, kind_on};
use settle_core::codes::{BLACK_PAWN, WHITE_PAWN, is_owned};
use settle_core::masks::{diff_mask, first_square, landed, shown_in, without};
use std::alloc::{AllocError, Global};

/// Whether a pawn that is lost here is not taken in passing, and does not promote.
fn is_plain_pawn(p: &Position, seen: &[u8; 64], from: u8) -> bool
    requires { from < 64 }
    ensures { IsTrue result → IsPlainPawn p.now seen.now from }
{
    let row = from / 8;
    match p.parts().side {
        Side::White => row > 1 && seen[(from - 8) as usize] != BLACK_PAWN,
        Side::Black => row < 6 && seen[(from + 8) as usize] != WHITE_PAWN,
    }
}

/// Whether a piece of the side that is not to move landed.
fn lands_theirs(p: &Position, seen: &[u8; 64], mask: u64) -> bool
    ensures { IsTrue result → IsDiff mask (picture p.now) seen.now → TheirsLand p.now seen.now }
{
    let side = p.parts().side.other();
    let mut rest = mask;
    while rest > 0 {
        let square = first_square(rest);
        if is_owned(side, seen[square as usize]) {
            return true;
        }
        rest = without(rest, square);
    }
    false
}

/// Whether the position has no pawn of the side to move on this square, or one that is not taken in passing and does
/// not promote.
fn is_plain_on(p: &Position, seen: &[u8; 64], from: u8) -> bool
    requires { from < 64 }
    ensures { IsTrue result → on p.now.board from ≡ piece_of p.now.side Pawn → IsPlainPawn p.now seen.now from }
{
    // For its clause: the position is valid.
    let parts = p.parts();
    match kind_on(&parts.board, parts.side, from) {
        Some(Kind::Pawn) => is_plain_pawn(p, seen, from),
        _ => true,
    }
}

/// The squares to which the first ply of a pair goes, unless it is that of a pawn which promotes or is taken in passing:
/// a piece is seen there. Where a piece of the other side landed, one landed there.
fn first_targets(p: &Position, seen: &[u8; 64], mask: u64) -> u64
    ensures { IsDiff mask (picture p.now) seen.now → EndsAmong p.now seen.now result }
{
    // For its clause: the position is valid.
    p.parts();
    let shown = shown_in(seen);
    if lands_theirs(p, seen, mask) {
        landed(mask, shown)
    } else {
        shown
    }
}

fn move_between(from: Square, to: Square, promotion: Option<Kind>) -> Move
    ensures { IsBetween from to promotion result }
{
    Move {
        from,
        to,
        promotion,
    }
}

/// Adds the move, where it is legal.
fn push_move(
    moves: &mut Vec<Move>,
    p: &Position,
    from: Square,
    to: Square,
    promotion: Option<Kind>,
) -> Result<(), AllocError>
    ensures { OnOk result (AddsMoves p.now (IsBetween from to promotion) moves.old.items moves.new.items) }
{
    if p.is_legal(move_between(from, to, promotion)) {
        moves.push(move_between(from, to, promotion))?;
    }
    Ok(())
}

/// As `push_move`, between the squares of these numbers.
fn push_between(
    moves: &mut Vec<Move>,
    p: &Position,
    from: u8,
    to: u8,
    promotion: Option<Kind>,
) -> Result<(), AllocError>
    requires from { from < 64 }
    requires to { to < 64 }
    ensures { OnOk result (AddsMoves p.now (IsBetween from to promotion) moves.old.items moves.new.items) }
{
    let Some(from) = Square::new(from) else {
        unreachable!();
    };
    let Some(to) = Square::new(to) else {
        unreachable!();
    };
    push_move(moves, p, from, to, promotion)
}

/// Adds the moves from a square to these that name no promotion.
fn push_from(moves: &mut Vec<Move>, p: &Position, targets: u64, from: u8) -> Result<(), AllocError>
    requires { from < 64 }
    ensures { OnOk result (AddsMoves p.now (λ m. (m.promotion ≡ None) × (m.from ≡ from) × (m.to < 64) × (bit_at targets m.to ≡ 1))
        moves.old.items moves.new.items) }
{
    let mut rest = targets;
    'squares: while rest > 0 {
        let to = first_square(rest);
        push_between(moves, p, from, to, None)?;
        rest = without(rest, to);
    }
    Ok(())
}

/// Adds the promotions from a square to another.
fn push_promotions(moves: &mut Vec<Move>, p: &Position, from: u8, to: u8) -> Result<(), AllocError>
    requires from { from < 64 }
    requires to { to < 64 }
    ensures { OnOk result (AddsMoves p.now (λ m. (m.from ≡ from) × (m.to ≡ to) × IsOfficer m.promotion) moves.old.items moves.new.items) }
{
    push_between(moves, p, from, to, Some(Kind::Queen))?;
    push_between(moves, p, from, to, Some(Kind::Rook))?;
    push_between(moves, p, from, to, Some(Kind::Bishop))?;
    push_between(moves, p, from, to, Some(Kind::Knight))
}

/// Adds all moves from a square to another.
fn push_each(moves: &mut Vec<Move>, p: &Position, from: u8, to: u8) -> Result<(), AllocError>
    requires from { from < 64 }
    requires to { to < 64 }
    ensures { OnOk result (AddsMoves p.now (λ m. (m.from ≡ from) × (m.to ≡ to)) moves.old.items moves.new.items) }
{
    // For its clause: the position is valid.
    p.parts();
    push_between(moves, p, from, to, None)?;
    if to < 8 || to >= 56 {
        return push_promotions(moves, p, from, to);
    }
    Ok(())
}

/// Adds all moves from a square.
fn push_all_from(moves: &mut Vec<Move>, p: &Position, from: u8) -> Result<(), AllocError>
    requires { from < 64 }
    ensures { OnOk result (AddsMoves p.now (λ m. m.from ≡ from) moves.old.items moves.new.items) }
{
    // For its clause: the position is valid.
    p.parts();
    for to in 0..64u8 {
        push_each(moves, p, from, to)?;
    }
    Ok(())
}

/// Adds the first plies from a square.
fn push_first(
    moves: &mut Vec<Move>,
    p: &Position,
    seen: &[u8; 64],
    targets: u64,
    from: u8,
) -> Result<(), AllocError>
    requires { from < 64 }
    ensures { EndsAmong p.now seen.now targets
        → OnOk result (AddsMoves p.now (λ m. (m.from ≡ from) × Begins p.now seen.now m) moves.old.items moves.new.items) }
{
    if is_plain_on(p, seen, from) {
        push_from(moves, p, targets, from)
    } else {
        push_all_from(moves, p, from)
    }
}

/// Legal moves, among them the first ply of each pair that explains the picture.
pub fn first_plies(
    alloc: Global,
    p: &Position,
    before: &[u8; 64],
    seen: &[u8; 64],
) -> Result<Vec<Move>, AllocError>
    requires { before.now ≡ picture p.now }
    ensures { IfOk result (λ moves. ListsFirst p.now seen.now moves.items) }
{
    // For its clause: the position is valid.
    p.parts();
    let mask = diff_mask(before, seen);
    let targets = first_targets(p, seen, mask);
    let mut moves = Vec::new(alloc);
    let mut rest = mask;
    'squares: while rest > 0 {
        let from = first_square(rest);
        push_first(&mut moves, p, seen, targets, from)?;
        rest = without(rest, from);
    }
    Ok(moves)
}
