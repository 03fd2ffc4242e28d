//! The legal moves of a position: every piece of the mover, every square that it may reach.
ghost use Rattle.std.specs.Prelude.{◌≡◌, ◌≢◌, ◌<◌, ◌+◌, IfSome, IfNone, IfOk, OnOk, OnErr, IsTrue, ◌↔◌};
ghost use Rattle.chess_rules.specs.Board.{on, piece_of, file, row};
ghost use Rattle.chess_rules.specs.Attack.{gap};
ghost use Rattle.chess_rules.specs.Valid.{Valid};
ghost use Rattle.chess_rules.specs.Inside.Reach.{MayReach, MayPromote};
ghost use Rattle.chess_rules.specs.Legal.{Legal, Mated, Stale};
ghost use Rattle.chess_rules.specs.Moves.{ListsLegal, promotion_place};
ghost use Rattle.chess_rules.specs.Inside.Places.{ListsBelow, HasNone, first_place};

use crate::chess_move::Move;
use crate::parts::{Parts, Status};
use crate::pieces::{Kind, Side};
use crate::position::is_legal_in;
use crate::rules::{is_in_check, last_row_of};
use crate::square::Square;
use std::alloc::{AllocError, Global};

/// The square of a number that is known to be one.
fn square_at(number: u8) -> Square
    requires { number < 64 }
    ensures { result ≡ number }
{
    match Square::new(number) {
        Some(square) => square,
        None => unreachable!(),
    }
}

/// Whether the squares lie to one another as some move of such a piece wants it.
fn may_reach(kind: Kind, from: Square, to: Square) -> bool
    ensures { IsTrue result ↔ MayReach kind (gap (file from) (file to)) (gap (row from) (row to)) }
{
    let files = from.file().abs_diff(to.file());
    let rows = from.rank().abs_diff(to.rank());
    match kind {
        Kind::Rook => files == 0 || rows == 0,
        Kind::Bishop => files == rows,
        Kind::Queen => files == 0 || rows == 0 || files == rows,
        Kind::Knight => (files == 1 && rows == 2) || (files == 2 && rows == 1),
        Kind::King => files < 3 && rows < 2,
        Kind::Pawn => files < 2 && rows < 3,
    }
}

/// The kind of the mover's piece on the square.
fn kind_at(parts: &Parts, square: Square) -> Option<Kind>
    ensures some { IfSome result (λ kind. on parts.now.board square ≡ piece_of parts.now.side kind) }
    ensures none { IfNone result ((kind : Kind) → on parts.now.board square ≢ piece_of parts.now.side kind) }
{
    if let Some(piece) = parts.board[square.number() as usize]
        && piece.side.is(parts.side)
    {
        Some(piece.kind)
    } else {
        None
    }
}

/// Whether the piece on `from` may go to `to`, as far as the two squares and what stands there show.
fn may_go(parts: &Parts, kind: Kind, from: Square, to: Square) -> bool
    requires valid { Valid parts.now }
    requires stands { on parts.now.board from ≡ piece_of parts.now.side kind }
    ensures { ¬ IsTrue result
        → HasNone parts.now (first_place from to) (first_place from to + 5) }
{
    // For its clause: a square is below 64.
    let _to = to.number();
    if !may_reach(kind, from, to) {
        return false;
    }
    match kind_at(parts, to) {
        Some(_) => false,
        None => true,
    }
}

/// Whether the piece on `from` is promoted on `to`.
fn promotes(parts: &Parts, kind: Kind, from: Square, to: Square) -> bool
    requires valid { Valid parts.now }
    requires stands { on parts.now.board from ≡ piece_of parts.now.side kind }
    ensures { ¬ IsTrue result
        → HasNone parts.now (first_place from to + 1) (first_place from to + 5) }
{
    // For its clause: a square is below 64.
    let _from = from.number();
    may_promote(parts.side, kind, to)
}

fn may_promote(side: Side, kind: Kind, to: Square) -> bool
    ensures { IsTrue result ↔ MayPromote side kind to }
{
    let row = to.number() / 8;
    let last = last_row_of(side);
    kind.is(Kind::Pawn) && row == last
}

/// Adds the move where it is legal.
fn push_legal(
    moves: &mut Vec<Move>,
    parts: &Parts,
    from: Square,
    to: Square,
    promotion: Option<Kind>,
) -> Result<(), AllocError>
    requires valid { Valid parts.now }
    requires named { promotion_place promotion < 5 }
    requires below { ListsBelow parts.now moves.old.items (first_place from to + promotion_place promotion) }
    ensures listed { OnOk result
        (ListsBelow parts.now moves.new.items (first_place from to + promotion_place promotion + 1)) }
    ensures memory { OnErr result ((m : Move) × Legal parts.now m) }
{
    // For its clause: squares are below 64.
    let _numbers = (from.number(), to.number());
    let m = Move {
        from,
        to,
        promotion,
    };
    if is_legal_in(parts, &m) {
        moves.push(m)?;
    }
    Ok(())
}

/// Adds the legal moves of the piece on `from` to `to`.
fn push_moves_to(
    moves: &mut Vec<Move>,
    parts: &Parts,
    kind: Kind,
    from: Square,
    to: Square,
) -> Result<(), AllocError>
    requires valid { Valid parts.now }
    requires stands { on parts.now.board from ≡ piece_of parts.now.side kind }
    requires below { ListsBelow parts.now moves.old.items (first_place from to) }
    ensures listed { OnOk result (ListsBelow parts.now moves.new.items (first_place from to + 5)) }
    ensures memory { OnErr result ((m : Move) × Legal parts.now m) }
{
    if !may_go(parts, kind, from, to) {
        return Ok(());
    }
    push_legal(moves, parts, from, to, None)?;
    if promotes(parts, kind, from, to) {
        push_legal(moves, parts, from, to, Some(Kind::Queen))?;
        push_legal(moves, parts, from, to, Some(Kind::Rook))?;
        push_legal(moves, parts, from, to, Some(Kind::Bishop))?;
        push_legal(moves, parts, from, to, Some(Kind::Knight))?;
    }
    Ok(())
}

/// Adds the legal moves from this square, if a piece of the mover stands there.
fn push_moves_from(moves: &mut Vec<Move>, parts: &Parts, from: Square) -> Result<(), AllocError>
    requires valid { Valid parts.now }
    requires below { ListsBelow parts.now moves.old.items (first_place from 0) }
    ensures listed { OnOk result (ListsBelow parts.now moves.new.items (first_place (from + 1) 0)) }
    ensures memory { OnErr result ((m : Move) × Legal parts.now m) }
{
    let Some(kind) = kind_at(parts, from) else {
        return Ok(());
    };
    for to in 0..64u8 {
        push_moves_to(moves, parts, kind, from, square_at(to))?;
    }
    Ok(())
}

/// The legal moves, in order.
pub fn legal_moves_in(alloc: Global, parts: &Parts) -> Result<Vec<Move>, AllocError>
    requires { Valid parts.now }
    ensures listed { IfOk result (λ moves. ListsLegal parts.now moves.items) }
    ensures memory { OnErr result ((m : Move) × Legal parts.now m) }
{
    let mut moves = Vec::new(alloc);
    for from in 0..64u8 {
        push_moves_from(&mut moves, parts, square_at(from))?;
    }
    Ok(moves)
}

/// Whether the move is legal.
fn has_legal(parts: &Parts, from: Square, to: Square, promotion: Option<Kind>) -> bool
    requires valid { Valid parts.now }
    requires named { promotion_place promotion < 5 }
    ensures some { IsTrue result → (m : Move) × Legal parts.now m }
    ensures none { let n = first_place from to + promotion_place promotion in
        ¬ IsTrue result → HasNone parts.now n (n + 1) }
{
    // For its clause: squares are below 64.
    let _numbers = (from.number(), to.number());
    let m = Move {
        from,
        to,
        promotion,
    };
    is_legal_in(parts, &m)
}

/// Whether the piece on `from` has a legal move to `to`.
fn has_move_to(parts: &Parts, kind: Kind, from: Square, to: Square) -> bool
    requires valid { Valid parts.now }
    requires stands { on parts.now.board from ≡ piece_of parts.now.side kind }
    ensures some { IsTrue result → (m : Move) × Legal parts.now m }
    ensures none { ¬ IsTrue result
        → HasNone parts.now (first_place from to) (first_place from to + 5) }
{
    if !may_go(parts, kind, from, to) {
        return false;
    }
    if has_legal(parts, from, to, None) {
        return true;
    }
    promotes(parts, kind, from, to) && has_promotion(parts, from, to)
}

/// Whether a promotion from `from` on `to` is legal.
fn has_promotion(parts: &Parts, from: Square, to: Square) -> bool
    requires { Valid parts.now }
    ensures some { IsTrue result → (m : Move) × Legal parts.now m }
    ensures none { ¬ IsTrue result
        → HasNone parts.now (first_place from to + 1) (first_place from to + 5) }
{
    if has_legal(parts, from, to, Some(Kind::Queen)) {
        return true;
    }
    if has_legal(parts, from, to, Some(Kind::Rook)) {
        return true;
    }
    if has_legal(parts, from, to, Some(Kind::Bishop)) {
        return true;
    }
    has_legal(parts, from, to, Some(Kind::Knight))
}

/// Whether a legal move leaves this square.
fn has_move_from(parts: &Parts, from: Square) -> bool
    requires { Valid parts.now }
    ensures some { IsTrue result → (m : Move) × Legal parts.now m }
    ensures none { ¬ IsTrue result
        → HasNone parts.now (first_place from 0) (first_place (from + 1) 0) }
{
    let Some(kind) = kind_at(parts, from) else {
        return false;
    };
    for to in 0..64u8 {
        if has_move_to(parts, kind, from, square_at(to)) {
            return true;
        }
    }
    false
}

/// Whether some move is legal. Stops at the first one.
pub fn has_move(parts: &Parts) -> bool
    requires { Valid parts.now }
    ensures { IsTrue result ↔ ((m : Move) × Legal parts.now m) }
{
    for from in 0..64u8 {
        if has_move_from(parts, square_at(from)) {
            return true;
        }
    }
    false
}

/// How the game stands.
pub fn status_of(parts: &Parts) -> Status
    requires { Valid parts.now }
    ensures checkmate { result ≡ Status.Checkmate ↔ Mated parts.now }
    ensures stalemate { result ≡ Status.Stalemate ↔ Stale parts.now }
    ensures running { result ≡ Status.Running ↔ ((m : Move) × Legal parts.now m) }
{
    if has_move(parts) {
        return Status::Running;
    }
    if is_in_check(&parts.board, parts.side) {
        Status::Checkmate
    } else {
        Status::Stalemate
    }
}
