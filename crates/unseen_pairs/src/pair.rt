//! Pairs of plies, and what a picture tells of them.
use chess_clock::Reading;
use chess_rules::{Move, Position};
use settle_core::Seen;

/// Two plies.
#[derive(Clone, Copy, PartialEq, Eq)]
pub struct TwoPlies {
    /// The first one.
    pub first: Move,
    /// The reply.
    pub second: Move,
}

/// Two plies after a line, or in the place of its last one and after that.
#[derive(Clone, Copy, PartialEq, Eq, Debug)]
pub struct Pair {
    /// Whether the first ply takes the place of the last one of the line.
    pub corrects: bool,
    pub first: Move,
    pub second: Move,
}

/// A pair that is confirmed.
#[derive(Clone, Copy, Debug)]
pub struct Recovery {
    pub pair: Pair,
    /// The position in which the pair begins.
    pub before: Position,
    /// The position after its first ply.
    pub middle: Position,
    /// The position after both.
    pub after: Position,
    /// The clocks' reading of the first picture that waited and that the pair explains.
    pub reading: Option<Reading>,
    /// What goes on from the position after both, a move or a sign.
    pub sequel: Seen,
}

/// What a picture tells, where a pair that it confirms is put elsewhere.
#[derive(Clone, Copy, PartialEq, Eq, Debug)]
pub enum SeenOrFound {
    /// What it shows by itself.
    Shown(Seen),
    /// A pair that no picture showed ply by ply.
    Recovered,
}

/// What a picture tells.
#[derive(Clone, Copy, Debug)]
pub enum SeenOrRecovered {
    /// What it shows by itself.
    Shown(Seen),
    /// A pair that no picture showed ply by ply, and what goes on from it.
    Recovered(Recovery),
}
