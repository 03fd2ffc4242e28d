//! Moves and answers by the numbers of their squares.

use chess_rules::{Kind, Move};
use settle_core::{Outcome, Seen};

/// A move by the numbers of its squares.
#[derive(Clone, Copy, PartialEq, Eq)]
pub struct Way {
    pub from: u8,
    pub to: u8,
    pub promotion: Option<Kind>,
}

/// What is returned, by numbers.
#[derive(Clone, Copy, PartialEq, Eq)]
pub enum Told {
    Same,
    Moved(Way),
    Sign(Outcome),
    Replaced(Way),
    Waits,
}

/// The picture waits.
pub const WAITS: Told = Told::Waits;

/// The numbers of a move.
pub fn way_of(m: &Move) -> Way {
    Way {
        from: m.from.number(),
        to: m.to.number(),
        promotion: m.promotion,
    }
}

/// The numbers of an answer.
pub fn told_of(seen: &Seen) -> Told {
    match seen {
        Seen::Same => Told::Same,
        Seen::Moved(m) => Told::Moved(way_of(m)),
        Seen::Sign(outcome) => Told::Sign(*outcome),
        Seen::Replaced(m) => Told::Replaced(way_of(m)),
        Seen::Waits => Told::Waits,
    }
}
