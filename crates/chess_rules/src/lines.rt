//! The eight directions of the board, and the two wings of castling.

/// A direction on the board: north is towards rank 8, east towards the h-file.
#[derive(Clone, Copy, PartialEq, Eq, Debug)]
pub enum Direction {
    North,
    South,
    East,
    West,
    NorthEast,
    NorthWest,
    SouthEast,
    SouthWest,
}

/// Towards which rook a king castles (Article 3.8.2).
#[derive(Clone, Copy, PartialEq, Eq, Debug)]
pub enum Wing {
    KingSide,
    QueenSide,
}
