//! The position after a move.
ghost use Rattle.std.specs.Prelude.{◌≡◌, ◌<◌, Some, ◌||◌, ◌/◌, ◌+◌, if◌then◌else◌, None, is_some};
ghost use Rattle.chess_rules.specs.Board.{on};
ghost use Rattle.chess_rules.specs.Attack.{gap};
ghost use Rattle.chess_rules.specs.After.{after, board_after as board_of, moved, with_rook, arrival, wing_of, right_after, rights_after, counted, is_pawn, is_king, is_castling as castling_test, is_en_passant as en_passant_test, is_double_step as double_step_test};

use crate::chess_move::Move;
use crate::lines::Wing;
use crate::parts::{MOST_COUNTED, Parts, Rights};
use crate::pieces::{Kind, Piece, Side};
use crate::rules::{crossed_of, holds_right, rook_home_of};
use crate::square::Square;

type Board = [Option<Piece>; 64];

fn holds_pawn(piece: Option<Piece>) -> bool
    ensures { result ≡ is_pawn piece }
{
    match piece {
        Some(piece) => piece.kind.is(Kind::Pawn),
        None => false,
    }
}

fn holds_king(piece: Option<Piece>) -> bool
    ensures { result ≡ is_king piece }
{
    match piece {
        Some(piece) => piece.kind.is(Kind::King),
        None => false,
    }
}

fn arrived(promotion: Option<Kind>, piece: Option<Piece>) -> Option<Piece>
    ensures { result ≡ arrival promotion piece }
{
    match piece {
        Some(piece) => Some(Piece {
            side: piece.side,
            kind: promotion.unwrap_or(piece.kind),
        }),
        None => None,
    }
}

fn gap_of(a: u8, b: u8) -> u8
    ensures { result ≡ gap a b }
{
    a.abs_diff(b)
}

/// Moves the piece that stands on the move's first square.
fn move_piece(board: &mut Board, m: &Move)
    ensures { board.new ≡ moved board.old m.now }
{
    let from = m.from.number() as usize;
    let to = m.to.number() as usize;
    let piece = board[from];
    board[from] = None;
    board[to] = arrived(m.promotion, piece);
}

fn move_rook(board: &mut Board, side: Side, wing: Wing)
    ensures { board.new ≡ with_rook board.old side wing }
{
    board[rook_home_of(side, wing) as usize] = None;
    board[crossed_of(side, wing) as usize] = Some(Piece {
        side,
        kind: Kind::Rook,
    });
}

/// Whether the move is a king's of two files (Article 3.8.2).
pub fn is_castling(parts: &Parts, m: &Move) -> bool
    ensures { result ≡ castling_test parts.now m.now }
{
    let from = m.from.number();
    let to = m.to.number();
    holds_king(parts.board[from as usize]) && gap_of(from % 8, to % 8) == 2
}

fn is_double_step(parts: &Parts, m: &Move) -> bool
    ensures { result ≡ double_step_test parts.now m.now }
{
    let from = m.from.number();
    let to = m.to.number();
    holds_pawn(parts.board[from as usize]) && gap_of(from / 8, to / 8) == 2
}

/// Whether the move is a pawn's to another file, on which nothing stands (Article 3.7.3).
pub fn is_en_passant(parts: &Parts, m: &Move) -> bool
    ensures { result ≡ en_passant_test parts.now m.now }
{
    let from = m.from.number();
    let to = m.to.number();
    holds_pawn(parts.board[from as usize])
        && !(from % 8 == to % 8)
        && !parts.board[to as usize].is_some()
}

/// The wing towards which the move goes: the king side where it stays on its file.
pub fn wing_towards(m: &Move) -> Wing
    ensures { result ≡ wing_of m.now }
{
    let from = m.from.number() % 8;
    let to = m.to.number() % 8;
    if from <= to {
        Wing::KingSide
    } else {
        Wing::QueenSide
    }
}

/// The board after a move.
pub fn board_after(parts: &Parts, m: &Move) -> Board
    ensures { result ≡ board_of parts.now m.now }
{
    let mut board = parts.board;
    move_piece(&mut board, m);
    if is_castling(parts, m) {
        move_rook(&mut board, parts.side, wing_towards(m));
    } else if is_en_passant(parts, m) {
        let from = m.from.number();
        let to = m.to.number();
        board[(8 * (from / 8) + to % 8) as usize] = None;
    }
    board
}

fn keeps_right(parts: &Parts, m: &Move, side: Side, wing: Wing) -> bool
    ensures { result ≡ right_after parts.now m.now side wing }
{
    let from = m.from.number();
    let to = m.to.number();
    let home = rook_home_of(side, wing);
    let king_moves = holds_king(parts.board[from as usize]) && side.is(parts.side);
    holds_right(parts.rights, side, wing) && !king_moves && from != home && to != home
}

fn rights_left(parts: &Parts, m: &Move) -> Rights
    ensures { result ≡ rights_after parts.now m.now }
{
    Rights {
        white_king: keeps_right(parts, m, Side::White, Wing::KingSide),
        white_queen: keeps_right(parts, m, Side::White, Wing::QueenSide),
        black_king: keeps_right(parts, m, Side::Black, Wing::KingSide),
        black_queen: keeps_right(parts, m, Side::Black, Wing::QueenSide),
    }
}

fn count(n: u16) -> u16
    ensures { result ≡ counted n }
{
    if n < MOST_COUNTED {
        n + 1
    } else {
        MOST_COUNTED
    }
}

fn passed_square(parts: &Parts, m: &Move) -> Option<Square>
    ensures { result ≡ (if double_step_test parts.now m.now then Some ((m.now.from + m.now.to) / 2) else None) }
{
    let from = m.from.number();
    let to = m.to.number();
    if is_double_step(parts, m) {
        Square::new((from + to) / 2)
    } else {
        None
    }
}

fn halfmove_after(parts: &Parts, m: &Move) -> u16
    ensures { result ≡ (if is_pawn (on parts.now.board m.now.from) || is_some
        (on parts.now.board m.now.to) then 0 else counted parts.now.halfmove) }
{
    let from = m.from.number() as usize;
    let to = m.to.number() as usize;
    if holds_pawn(parts.board[from]) || parts.board[to].is_some() {
        0
    } else {
        count(parts.halfmove)
    }
}

/// The position after a move.
pub fn parts_after(parts: &Parts, m: &Move) -> Parts
    ensures { result ≡ after parts.now m.now }
{
    Parts {
        board: board_after(parts, m),
        side: parts.side.other(),
        rights: rights_left(parts, m),
        target: passed_square(parts, m),
        halfmove: halfmove_after(parts, m),
        fullmove: match parts.side {
            Side::White => parts.fullmove,
            Side::Black => count(parts.fullmove),
        },
    }
}
