//! Moves.
ghost use Rattle.std.specs.Prelude.{◌≡◌};

use crate::pieces::Kind;
use crate::square::Square;

/// A move: the square that it leaves, the square of arrival, and what a pawn is promoted to. Castling is written as the
/// king's move of two squares, en passant as the pawn's move to the target square.
#[derive(Clone, Copy, PartialEq, Eq, Debug)]
pub struct Move {
    pub from: Square,
    pub to: Square,
    /// Queen, rook, bishop or knight where a pawn comes to its last rank, else `None`.
    pub promotion: Option<Kind>,
}

impl Move {
    /// A copy, since a move by value is given away.
    pub fn copy(&self) -> Move
        ensures { result ≡ self.now }
    {
        *self
    }
}
