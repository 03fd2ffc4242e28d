//! Moves and answers by the numbers of their squares.

use chess_rules::Move;
use settle_core::{Outcome, Seen};
use unseen_pairs::Recovery;

/// The squares of a move, from and to.
pub type Way = (u8, u8);

/// What shows by itself, by numbers.
#[derive(Clone, Copy, PartialEq, Eq)]
pub enum Shown {
    Same,
    Moved(Way),
    Sign(Outcome),
    Replaced(Way),
    Waits,
}

/// What is returned, by numbers.
#[derive(Clone, Copy, PartialEq, Eq)]
pub enum Answer {
    Shown(Shown),
    /// Whether it corrects, its two plies, and what goes on from it.
    Recovered(bool, Way, Way, Shown),
}

/// The picture waits.
pub const WAITS: Answer = Answer::Shown(Shown::Waits);

/// The numbers of a move.
pub fn way_of(m: &Move) -> Way {
    (m.from.number(), m.to.number())
}

/// The numbers of what shows by itself.
pub fn shown_of(seen: &Seen) -> Shown {
    match seen {
        Seen::Same => Shown::Same,
        Seen::Moved(m) => Shown::Moved(way_of(m)),
        Seen::Sign(outcome) => Shown::Sign(*outcome),
        Seen::Replaced(m) => Shown::Replaced(way_of(m)),
        Seen::Waits => Shown::Waits,
    }
}

/// The numbers of a pair that is recovered.
pub fn recovered_of(r: &Recovery) -> Answer {
    Answer::Recovered(
        r.pair.corrects,
        way_of(&r.pair.first),
        way_of(&r.pair.second),
        shown_of(&r.sequel),
    )
}
