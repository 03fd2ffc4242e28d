//! Which moves are legal, tested case by case.
ghost use Rattle.std.specs.Prelude.{◌≡◌, ◌≢◌, ◌<◌, ◌↔◌, ℕ, IfSome, IfNone, IsTrue, None, ◌≤◌, ◌⊎◌};
ghost use Rattle.chess_rules.specs.Board.{Ahead, on, piece_of, other, forward, second_row, last_row};
ghost use Rattle.chess_rules.specs.Attack.{Attacks, InCheck};
ghost use Rattle.chess_rules.specs.Legal.{IsOfficer, NamesPromotion, Steps, PawnSteps, Captures, DoubleSteps, TakesEnPassant, Castles, Goes, BetweenHomes, IsWaySafe};
ghost use Rattle.chess_rules.specs.Valid.{HasOneKing};
ghost use Rattle.chess_rules.specs.Inside.Walk.{square_from_home};
ghost use Rattle.chess_rules.specs.After.{king_home, rook_home, castling_target, crossed, has_right};

use crate::chess_move::Move;
use crate::lines::Wing;
use crate::parts::{Parts, Rights};
use crate::pieces::{Kind, Piece, Side};
use crate::square::Square;
use crate::walk::{attacks_from, is_attacked};

/// The kind of this side's piece on the square, 0 to 63.
pub fn kind_on(board: &[Option<Piece>; 64], side: Side, square: u8) -> Option<Kind>
    requires { square < 64 }
    ensures some { IfSome result (λ kind. on board.now square ≡ piece_of side kind) }
    ensures none { IfNone result ((kind : Kind) → on board.now square ≢ piece_of side kind) }
{
    if let Some(piece) = board[square as usize]
        && piece.side.is(side)
    {
        Some(piece.kind)
    } else {
        None
    }
}

/// Whether nothing stands on the square.
pub fn is_empty(board: &[Option<Piece>; 64], square: u8) -> bool
    requires { square < 64 }
    ensures { IsTrue result ↔ (on board.now square ≡ None) }
{
    match board[square as usize] {
        Some(_) => false,
        None => true,
    }
}

fn is_officer(kind: Option<Kind>) -> bool
    ensures { IsTrue result ↔ IsOfficer kind }
{
    match kind {
        Some(Kind::Queen | Kind::Rook | Kind::Bishop | Kind::Knight) => true,
        _ => false,
    }
}

/// The row on which this side's pawns are promoted.
pub fn last_row_of(side: Side) -> u8
    ensures { result ≡ last_row side }
{
    match side {
        Side::White => 0,
        Side::Black => 7,
    }
}

fn names_promotion(side: Side, kind: Kind, m: &Move) -> bool
    ensures { IsTrue result ↔ NamesPromotion side kind m.now }
{
    let row = m.to.number() / 8;
    let last = last_row_of(side);
    if kind.is(Kind::Pawn) && row == last {
        is_officer(m.promotion)
    } else {
        m.promotion.is_none()
    }
}

fn is_step(parts: &Parts, m: &Move) -> bool
    ensures { IsTrue result ↔ Steps parts.now m.now }
{
    let from = m.from.number();
    let to = m.to.number();
    match kind_on(&parts.board, parts.side, from) {
        Some(kind) => {
            !kind.is(Kind::Pawn)
                && is_empty(&parts.board, to)
                && names_promotion(parts.side, kind, m)
                && attacks_from(&parts.board, parts.side, kind, from, to)
        }
        None => false,
    }
}

/// Whether `to` lies `distance` squares ahead of `from`, as this side's pawns go.
fn is_forward(side: Side, distance: u8, from: u8, to: u8) -> bool
    requires { distance < 8 }
    ensures { IsTrue result ↔ Ahead (forward side) distance from to }
{
    from % 8 == to % 8
        && match side {
            Side::White => to / 8 + distance == from / 8,
            Side::Black => to / 8 == from / 8 + distance,
        }
}

/// Whether a pawn of this side stands on the square.
pub fn is_pawn_of(board: &[Option<Piece>; 64], side: Side, square: u8) -> bool
    requires { square < 64 }
    ensures { IsTrue result ↔ (on board.now square ≡ piece_of side Kind.Pawn) }
{
    match kind_on(board, side, square) {
        Some(kind) => kind.is(Kind::Pawn),
        None => false,
    }
}

fn is_pawn_step(parts: &Parts, m: &Move) -> bool
    ensures { IsTrue result ↔ PawnSteps parts.now m.now }
{
    let from = m.from.number();
    let to = m.to.number();
    is_pawn_of(&parts.board, parts.side, from)
        && is_forward(parts.side, 1, from, to)
        && is_empty(&parts.board, to)
        && names_promotion(parts.side, Kind::Pawn, m)
}

fn is_capture(parts: &Parts, m: &Move) -> bool
    ensures { IsTrue result ↔ Captures parts.now m.now }
{
    let from = m.from.number();
    let to = m.to.number();
    match (
        kind_on(&parts.board, parts.side, from),
        kind_on(&parts.board, parts.side.other(), to),
    ) {
        (Some(kind), Some(_)) => {
            names_promotion(parts.side, kind, m)
                && attacks_from(&parts.board, parts.side, kind, from, to)
        }
        _ => false,
    }
}

fn second_row_of(side: Side) -> u8
    ensures { result ≡ second_row side }
{
    match side {
        Side::White => 6,
        Side::Black => 1,
    }
}

fn is_double_step(parts: &Parts, m: &Move) -> bool
    ensures { IsTrue result ↔ DoubleSteps parts.now m.now }
{
    let from = m.from.number();
    let to = m.to.number();
    from / 8 == second_row_of(parts.side)
        && is_forward(parts.side, 2, from, to)
        && is_pawn_of(&parts.board, parts.side, from)
        && is_empty(&parts.board, (from + to) / 2)
        && is_empty(&parts.board, to)
        && m.promotion.is_none()
}

fn is_target(target: Option<Square>, square: Square) -> bool
    ensures { IsTrue result ↔ (target ≡ Some square) }
{
    target == Some(square)
}

fn is_en_passant(parts: &Parts, m: &Move) -> bool
    ensures { IsTrue result ↔ TakesEnPassant parts.now m.now }
{
    let from = m.from.number();
    let to = m.to.number();
    is_target(parts.target, m.to)
        && is_pawn_of(&parts.board, parts.side, from)
        && m.promotion.is_none()
        && attacks_from(&parts.board, parts.side, Kind::Pawn, from, to)
}

/// The square on which this side's king starts.
pub fn king_home_of(side: Side) -> u8
    ensures { result ≡ king_home side }
{
    match side {
        Side::White => 60,
        Side::Black => 4,
    }
}

/// The square on which this side's rook of this wing starts.
pub fn rook_home_of(side: Side, wing: Wing) -> u8
    ensures { result ≡ rook_home side wing }
{
    match (side, wing) {
        (Side::White, Wing::KingSide) => 63,
        (Side::White, Wing::QueenSide) => 56,
        (Side::Black, Wing::KingSide) => 7,
        (Side::Black, Wing::QueenSide) => 0,
    }
}

fn castling_target_of(side: Side, wing: Wing) -> u8
    ensures { result ≡ castling_target side wing }
{
    match (side, wing) {
        (Side::White, Wing::KingSide) => 62,
        (Side::White, Wing::QueenSide) => 58,
        (Side::Black, Wing::KingSide) => 6,
        (Side::Black, Wing::QueenSide) => 2,
    }
}

/// The square that the king crosses where it castles.
pub fn crossed_of(side: Side, wing: Wing) -> u8
    ensures { result ≡ crossed side wing }
{
    match (side, wing) {
        (Side::White, Wing::KingSide) => 61,
        (Side::White, Wing::QueenSide) => 59,
        (Side::Black, Wing::KingSide) => 5,
        (Side::Black, Wing::QueenSide) => 3,
    }
}

/// Whether the side has the right to castle to this wing.
pub fn holds_right(rights: Rights, side: Side, wing: Wing) -> bool
    ensures { result ≡ has_right rights side wing }
{
    match (side, wing) {
        (Side::White, Wing::KingSide) => rights.white_king,
        (Side::White, Wing::QueenSide) => rights.white_queen,
        (Side::Black, Wing::KingSide) => rights.black_king,
        (Side::Black, Wing::QueenSide) => rights.black_queen,
    }
}

fn are_empty(board: &[Option<Piece>; 64], low: u8, high: u8) -> bool
    requires { high ≤ 64 }
    ensures { IsTrue result ↔ ((s : ℕ) → low < s → s < high → on board.now s ≡ None) }
{
    for square in 0..high {
        if low < square && !is_empty(board, square) {
            return false;
        }
    }
    true
}

fn is_way_empty(board: &[Option<Piece>; 64], side: Side, wing: Wing) -> bool
    ensures { IsTrue result ↔ ((s : ℕ) → BetweenHomes side wing s → on board.now s ≡ None) }
{
    let home = king_home_of(side);
    let rook = rook_home_of(side, wing);
    match wing {
        Wing::KingSide => are_empty(board, home, rook),
        Wing::QueenSide => are_empty(board, rook, home),
    }
}

fn is_safe(board: &[Option<Piece>; 64], attackers: Side, square: u8) -> bool
    requires { square < 64 }
    ensures { IsTrue result ↔ ¬ Attacks board.now attackers square }
{
    !is_attacked(board, attackers, square)
}

fn is_way_safe(board: &[Option<Piece>; 64], side: Side, wing: Wing) -> bool
    ensures { IsTrue result ↔ IsWaySafe board.now side wing }
{
    let attackers = side.other();
    if !is_safe(board, attackers, king_home_of(side)) {
        return false;
    }
    if !is_safe(board, attackers, crossed_of(side, wing)) {
        return false;
    }
    is_safe(board, attackers, castling_target_of(side, wing))
}

fn is_castling(parts: &Parts, m: &Move, wing: Wing) -> bool
    ensures { IsTrue result ↔ Castles parts.now m.now wing }
{
    let side = parts.side;
    let from = m.from.number();
    let to = m.to.number();
    from == king_home_of(side)
        && to == castling_target_of(side, wing)
        && m.promotion.is_none()
        && holds_right(parts.rights, side, wing)
        && is_way_empty(&parts.board, side, wing)
        && is_way_safe(&parts.board, side, wing)
}

fn castles(parts: &Parts, m: &Move) -> bool
    ensures { IsTrue result ↔ ((wing : Wing) × Castles parts.now m.now wing) }
{
    is_castling(parts, m, Wing::KingSide) || is_castling(parts, m, Wing::QueenSide)
}

fn pawn_goes(parts: &Parts, m: &Move) -> bool
    ensures { IsTrue result ↔ (PawnSteps parts.now m.now ⊎ (DoubleSteps parts.now m.now ⊎ TakesEnPassant parts.now m.now)) }
{
    is_pawn_step(parts, m) || is_double_step(parts, m) || is_en_passant(parts, m)
}

/// Whether the piece goes so, whether or not its own king is then attacked.
pub fn goes(parts: &Parts, m: &Move) -> bool
    ensures { IsTrue result ↔ Goes parts.now m.now }
{
    let Some(_) = kind_on(&parts.board, parts.side, m.from.number()) else {
        return castles(parts, m);
    };
    if is_step(parts, m) {
        return true;
    }
    if is_capture(parts, m) {
        return true;
    }
    if pawn_goes(parts, m) {
        return true;
    }
    castles(parts, m)
}

/// Whether a king of this side stands on the square.
pub fn is_king_of(board: &[Option<Piece>; 64], side: Side, square: u8) -> bool
    requires { square < 64 }
    ensures { IsTrue result ↔ (on board.now square ≡ piece_of side Kind.King) }
{
    // Few pieces are kings, and half of them are of a side: so the kind is asked first.
    if let Some(piece) = board[square as usize]
        && piece.kind.is(Kind::King)
        && piece.side.is(side)
    {
        true
    } else {
        false
    }
}

/// The squares by number, from this side's own end of the board on.
fn from_home(side: Side, i: u8) -> u8
    requires { i < 64 }
    ensures range { result < 64 }
    ensures value { result ≡ square_from_home side i }
{
    match side {
        Side::White => 63 - i,
        Side::Black => i,
    }
}

/// Whether this side's one king is attacked by the other side.
pub fn is_king_attacked(board: &[Option<Piece>; 64], side: Side) -> bool
    requires { HasOneKing board.now side }
    ensures { IsTrue result ↔ InCheck board.now side (other side) }
{
    let attackers = side.other();
    for i in 0..64u8 {
        let square = from_home(side, i);
        if is_king_of(board, side, square) {
            return is_attacked(board, attackers, square);
        }
    }
    false
}

/// Whether a king of this side is attacked by the other one.
pub fn is_in_check(board: &[Option<Piece>; 64], side: Side) -> bool
    ensures { IsTrue result ↔ InCheck board.now side (other side) }
{
    let attackers = side.other();
    for square in 0..64u8 {
        if is_king_of(board, side, square) && is_attacked(board, attackers, square) {
            return true;
        }
    }
    false
}

/// Whether a rook of this side stands on the square.
pub fn is_rook_of(board: &[Option<Piece>; 64], side: Side, square: u8) -> bool
    requires { square < 64 }
    ensures { IsTrue result ↔ (on board.now square ≡ piece_of side Kind.Rook) }
{
    match kind_on(board, side, square) {
        Some(kind) => kind.is(Kind::Rook),
        None => false,
    }
}
