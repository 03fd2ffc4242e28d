//! Valid positions.
ghost use Rattle.std.specs.Prelude.{◌≡◌, ◌<◌, ◌↔◌, All, IsTrue, IsOk, IfOk, IfErr, OnErr, length};
ghost use Rattle.chess_rules.specs.Board.{on, other};
ghost use Rattle.chess_rules.specs.Attack.{InCheck};
ghost use Rattle.chess_rules.specs.After.{after, has_right};
ghost use Rattle.chess_rules.specs.Legal.{Legal, Mated, Stale};
ghost use Rattle.chess_rules.specs.Moves.{ListsLegal};
ghost use Rattle.chess_rules.specs.Picture.{picture};
ghost use Rattle.chess_rules.specs.Initial.{initial};
ghost use Rattle.chess_rules.specs.Valid.{HasCounters, HasOneKing, HasKings, HasPawns, IsAtHome, HasRights, HasEnPassant, HasNoCheck, Valid, FailsFirst, IsTarget, target_row};

use crate::advance::{board_after, parts_after};
use crate::chess_move::Move;
use crate::initial::first_board;
use crate::lines::Wing;
use crate::moves::{legal_moves_in, status_of};
use crate::parts::{Invalid, MOST_COUNTED, Parts, Rights, Status};
use crate::picture::codes_of;
use crate::pieces::{Piece, Side};
use crate::rules::{
    goes, holds_right, is_empty, is_in_check, is_king_attacked, is_king_of, is_pawn_of, is_rook_of,
    king_home_of, rook_home_of,
};
use std::alloc::{AllocError, Global};
use std::marker::Model;

type Board = [Option<Piece>; 64];

/// Whether the move is legal where these valid parts stand.
pub fn is_legal_in(parts: &Parts, m: &Move) -> bool
    requires { Valid parts.now }
    ensures { IsTrue result ↔ Legal parts.now m.now }
{
    // For its clause: a square is below 64.
    let _to = m.to.number();
    if !goes(parts, m) {
        return false;
    }
    let next = board_after(parts, m);
    !is_king_attacked(&next, parts.side)
}

fn has_counters(parts: &Parts) -> bool
    ensures { IsTrue result ↔ HasCounters parts.now }
{
    parts.halfmove <= MOST_COUNTED && parts.fullmove <= MOST_COUNTED && parts.fullmove > 0
}

fn has_one_king(board: &Board, side: Side) -> bool
    ensures { IsTrue result ↔ HasOneKing board.now side }
{
    let mut king = 64;
    for square in 0..64u8 {
        if is_king_of(board, side, square) {
            if king < 64 {
                return false;
            }
            king = square;
        }
    }
    king < 64
}

fn has_kings(parts: &Parts) -> bool
    ensures { IsTrue result ↔ HasKings parts.now }
{
    has_one_king(&parts.board, Side::White) && has_one_king(&parts.board, Side::Black)
}

fn has_pawns(board: &Board) -> bool
    ensures { IsTrue result ↔ HasPawns board.now }
{
    for square in 0..64u8 {
        if (square < 8 || square >= 56)
            && (is_pawn_of(board, Side::White, square) || is_pawn_of(board, Side::Black, square))
        {
            return false;
        }
    }
    true
}

fn is_at_home(board: &Board, side: Side, wing: Wing) -> bool
    ensures { IsTrue result ↔ IsAtHome board.now side wing }
{
    is_king_of(board, side, king_home_of(side)) && is_rook_of(board, side, rook_home_of(side, wing))
}

fn has_right_at_home(parts: &Parts, side: Side, wing: Wing) -> bool
    ensures { IsTrue result ↔ (IsTrue (has_right parts.now.rights side wing) → IsAtHome parts.now.board side wing) }
{
    !holds_right(parts.rights, side, wing) || is_at_home(&parts.board, side, wing)
}

fn has_rights(parts: &Parts) -> bool
    ensures { IsTrue result ↔ HasRights parts.now }
{
    has_rights_of(parts, Side::White) && has_rights_of(parts, Side::Black)
}

fn has_rights_of(parts: &Parts, side: Side) -> bool
    ensures { IsTrue result ↔ ((wing : Wing) → IsTrue (has_right parts.now.rights side wing) → IsAtHome parts.now.board side wing) }
{
    has_right_at_home(parts, side, Wing::KingSide)
        && has_right_at_home(parts, side, Wing::QueenSide)
}

fn has_no_check(parts: &Parts) -> bool
    ensures { IsTrue result ↔ HasNoCheck parts.now }
{
    !is_in_check(&parts.board, parts.side.other())
}

fn is_target_of(board: &Board, side: Side, target: u8) -> bool
    requires { target < 64 }
    ensures { IsTrue result ↔ IsTarget board.now side target }
{
    if target / 8 != target_row_of(side) {
        return false;
    }
    let (behind, ahead) = match side {
        Side::White => (target - 8, target + 8),
        Side::Black => (target + 8, target - 8),
    };
    is_empty(board, target) && is_empty(board, behind) && is_pawn_of(board, side.other(), ahead)
}

fn target_row_of(side: Side) -> u8
    ensures { result ≡ target_row side }
{
    match side {
        Side::White => 2,
        Side::Black => 5,
    }
}

fn has_en_passant(parts: &Parts) -> bool
    ensures { IsTrue result ↔ HasEnPassant parts.now }
{
    match parts.target {
        Some(target) => is_target_of(&parts.board, parts.side, target.number()),
        None => true,
    }
}

/// A valid position: its parts meet the six conditions that `Invalid` names. It is seen as its parts.
#[derive(Clone, Copy, PartialEq, Eq, Debug)]
pub struct Position {
    parts: Parts,
}

impl Model for Position {
    ghost use Rattle.chess_rules.specs.declared.parts.Parts.{Parts};
    ghost use Rattle.chess_rules.specs.Valid.{Valid};

    ghost Value = { Parts };

    ghost view = { λ p. p.parts };

    ghost invariant = { λ p. Valid p.parts };

    ghost inverse = { λ p. record { parts = p } };
}

/// A board has 64 squares.
pub fn count_squares(board: &Board)
    ensures { length board.now ≡ 64 }
{}

impl Position {
    /// The initial position (Article 2.3).
    pub fn initial() -> Position
        ensures { result ≡ initial }
    {
        Position {
            parts: Parts {
                board: first_board(),
                side: Side::White,
                rights: Rights {
                    white_king: true,
                    white_queen: true,
                    black_king: true,
                    black_queen: true,
                },
                target: None,
                halfmove: 0,
                fullmove: 1,
            },
        }
    }

    /// The position of these parts where they are valid, else the first condition that fails.
    pub fn new(parts: Parts) -> Result<Position, Invalid>
        ensures accepted { IsOk result ↔ Valid parts }
        ensures ok { IfOk result (λ p. p ≡ parts) }
        ensures valid { IfOk result Valid }
        ensures err { IfErr result (FailsFirst parts) }
    {
        // For its clause: a board has 64 squares.
        count_squares(&parts.board);
        if !has_counters(&parts) {
            return Err(Invalid::Counters);
        }
        if !has_kings(&parts) {
            return Err(Invalid::Kings);
        }
        if !has_pawns(&parts.board) {
            return Err(Invalid::Pawns);
        }
        if !has_rights(&parts) {
            return Err(Invalid::Rights);
        }
        if !has_en_passant(&parts) {
            return Err(Invalid::EnPassant);
        }
        if !has_no_check(&parts) {
            return Err(Invalid::Check);
        }
        Ok(Position { parts })
    }

    /// The parts, which are valid.
    pub fn parts(&self) -> &Parts
        ensures same { result.now ≡ self.now }
        ensures valid { Valid self.now }
    {
        &self.parts
    }

    /// The piece on each of the 64 squares, `None` where there is none. Place n is that of the square with number n.
    pub fn board(&self) -> &[Option<Piece>; 64]
        ensures { result.now ≡ self.now.board }
    {
        let parts = self.parts();
        &parts.board
    }

    /// Whether the king of the side to move is attacked (Article 3.9.1).
    pub fn in_check(&self) -> bool
        ensures { IsTrue result ↔ InCheck self.now.board self.now.side (other self.now.side) }
    {
        is_king_attacked(&self.parts.board, self.parts.side)
    }

    /// Whether the move is legal here (Article 3.10.1).
    pub fn is_legal(&self, m: Move) -> bool
        ensures { IsTrue result ↔ Legal self.now m }
    {
        is_legal_in(&self.parts, &m)
    }

    /// The position after a legal move. Counters at 9999 stand still.
    pub fn play(&self, m: Move) -> Position
        requires { Legal self.now m }
        ensures after { result ≡ after self.now m }
        ensures valid { Valid result }
    {
        Position {
            parts: parts_after(&self.parts, &m),
        }
    }

    /// The piece codes of the 64 squares, 0 to 12, by square number.
    pub fn picture(&self) -> [u8; 64]
        ensures shown { result ≡ picture self.now }
        ensures known { All (λ code. code < 13) result }
    {
        codes_of(&self.parts.board)
    }

    /// How the game stands. Looks no further than to the first legal move.
    pub fn status(&self) -> Status
        ensures checkmate { result ≡ Status.Checkmate ↔ Mated self.now }
        ensures stalemate { result ≡ Status.Stalemate ↔ Stale self.now }
        ensures running { result ≡ Status.Running ↔ ((m : Move) × Legal self.now m) }
    {
        status_of(&self.parts)
    }

    /// The legal moves, each once, by the square that they leave, then by the square of arrival, then by the promotion
    /// in the order none, queen, rook, bishop, knight. The only call of this crate that takes memory.
    ///
    /// # Errors
    ///
    /// Where there was no memory for a move; a position with no legal move needs none.
    pub fn legal_moves(&self, alloc: Global) -> Result<Vec<Move>, AllocError>
        ensures listed { IfOk result (λ moves. ListsLegal self.now moves.items) }
        ensures memory { OnErr result ((m : Move) × Legal self.now m) }
    {
        legal_moves_in(alloc, &self.parts)
    }
}
