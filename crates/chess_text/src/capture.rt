//! Whether a move takes a piece.
ghost use Rattle.std.specs.Prelude.{◌≡◌};
ghost use Rattle.chess_text.specs.San.{is_capture as capture_test};

use chess_rules::{Move, Parts, is_en_passant};

/// Whether the move takes a piece.
pub fn is_capture(parts: &Parts, m: &Move) -> bool
    ensures { result ≡ capture_test parts.now m.now }
{
    let to = m.to.number();
    parts.board[to as usize].is_some() || is_en_passant(parts, m)
}
