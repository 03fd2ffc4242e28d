//! The parts of a position, and how a game stands in one.

use crate::pieces::{Piece, Side};
use crate::square::Square;

/// The most that a counter of a position is: there it stands still.
pub const MOST_COUNTED: u16 = 9999;

/// The castling rights (Article 3.8.2): by side, with the rook on the king side (h1, h8) or the queen side (a1, a8).
#[derive(Clone, Copy, PartialEq, Eq, Debug)]
pub struct Rights {
    pub white_king: bool,
    pub white_queen: bool,
    pub black_king: bool,
    pub black_queen: bool,
}

/// What a position is made of, valid or not: the six fields of a FEN (PGN standard, section 16.1).
#[derive(Clone, Copy, PartialEq, Eq, Debug)]
pub struct Parts {
    /// What stands on each square, by square number.
    pub board: [Option<Piece>; 64],
    /// The side to move.
    pub side: Side,
    pub rights: Rights,
    /// The square that a pawn passed over by a double step in the last move, else `None`.
    pub target: Option<Square>,
    /// The halfmove clock: plies since the last capture or pawn's move, 0 to 9999 in a position.
    pub halfmove: u16,
    /// The fullmove number, 1 to 9999 in a position. It counts after Black's move.
    pub fullmove: u16,
}

/// Why parts are no position: the first of these conditions that fails, in this order.
#[derive(Clone, Copy, PartialEq, Eq, Debug)]
pub enum Invalid {
    /// The halfmove clock is above 9999, or the fullmove number is 0 or above 9999.
    Counters,
    /// A side has no king or more than one.
    Kings,
    /// A pawn stands on rank 1 or 8.
    Pawns,
    /// A castling right is held whose king or rook is not at home.
    Rights,
    /// The target is not one that a double step of the side that just moved leaves.
    EnPassant,
    /// The king of the side that is not to move is attacked.
    Check,
}

/// How a game stands.
#[derive(Clone, Copy, PartialEq, Eq, Debug)]
pub enum Status {
    /// Some move is legal.
    Running,
    /// No move is legal and the king of the side to move is attacked: the other side has won (Article 5.1.1).
    Checkmate,
    /// No move is legal and the king of the side to move is not attacked: a draw (Article 5.2.1).
    Stalemate,
}
