//! The board of the initial position.
ghost use Rattle.std.specs.Prelude.{◌≡◌};
ghost use Rattle.chess_rules.specs.Initial.{initial_board};

use crate::pieces::{Kind, Piece, Side};

/// What stands on a square, by the letter of its piece.
macro_rules! piece {
    (_) => { None };
    (P) => { piece!(White Pawn) };
    (R) => { piece!(White Rook) };
    (N) => { piece!(White Knight) };
    (B) => { piece!(White Bishop) };
    (K) => { piece!(White King) };
    (Q) => { piece!(White Queen) };
    (p) => { piece!(Black Pawn) };
    (r) => { piece!(Black Rook) };
    (n) => { piece!(Black Knight) };
    (b) => { piece!(Black Bishop) };
    (k) => { piece!(Black King) };
    (q) => { piece!(Black Queen) };
    ($side:ident $kind:ident) => {
        Some(Piece { side: Side::$side, kind: Kind::$kind })
    };
}

/// A board from a8 to h1.
macro_rules! board {
    ($($piece:tt)*) => { [$(piece!($piece)),*] };
}

/// The pieces before the first move (Article 2.3).
pub fn first_board() -> [Option<Piece>; 64]
    ensures { result ≡ initial_board }
{
    board![
        r n b q k b n r
        p p p p p p p p
        _ _ _ _ _ _ _ _
        _ _ _ _ _ _ _ _
        _ _ _ _ _ _ _ _
        _ _ _ _ _ _ _ _
        P P P P P P P P
        R N B Q K B N R
    ]
}
