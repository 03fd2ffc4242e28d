//! Plies, signs of a result, and what a picture shows.
use chess_clock::Hms;
use chess_rules::Move;

/// The result of a game. The sign of the kings tells it too: with one king on e4 and one on d5 White wins, on d4 and e5
/// Black wins, and on one light and one dark of these squares it is a draw.
#[derive(Clone, Copy, PartialEq, Eq, Debug)]
pub enum Outcome {
    WhiteWins,
    BlackWins,
    Drawn,
}

/// A move, and the mover's time in the reading that came with its picture, if there was one.
#[derive(Clone, Copy, PartialEq, Eq, Debug)]
pub struct Ply {
    pub mv: Move,
    pub clock: Option<Hms>,
}

/// What a picture shows: the first of these that holds.
#[derive(Clone, Copy, PartialEq, Eq, Debug)]
pub enum Seen {
    /// The picture is the last one again: nothing has changed.
    Same,
    /// The picture is that after this legal move, whose ply was appended.
    Moved(Move),
    /// The picture is the sign of this result, which now stands.
    Sign(Outcome),
    /// The picture is that after this legal move from the position before the last ply. The move took the last ply's
    /// place.
    Replaced(Move),
    /// None of the others: the picture tells nothing yet. The plies and the sign stay as they were.
    Waits,
}
