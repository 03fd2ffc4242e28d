//! The codes that the board sends for a position.
ghost use Rattle.std.specs.Prelude.{◌≡◌, ◌<◌, All, map};
ghost use Rattle.chess_rules.specs.Picture.{code, code_of_piece};

use crate::pieces::{Kind, Piece, Side};

fn piece_code(side: Side, kind: Kind) -> u8
    ensures { result ≡ code_of_piece side kind }
{
    let code = match kind {
        Kind::Pawn => 1,
        Kind::Rook => 2,
        Kind::Knight => 3,
        Kind::Bishop => 4,
        Kind::King => 5,
        Kind::Queen => 6,
    };
    match side {
        Side::White => code,
        Side::Black => code + 6,
    }
}

fn code_on(piece: Option<Piece>) -> u8
    ensures { result ≡ code piece }
{
    match piece {
        Some(piece) => piece_code(piece.side, piece.kind),
        None => 0,
    }
}

/// The codes of the 64 squares.
pub fn codes_of(board: &[Option<Piece>; 64]) -> [u8; 64]
    ensures shown { result ≡ map code board.now }
    ensures known { All (λ code. code < 13) result }
{
    let mut codes = [0; 64];
    for square in 0..64usize {
        codes[square] = code_on(board[square]);
    }
    codes
}
