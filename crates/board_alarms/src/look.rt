//! What is told of a game, and what somebody must look at.

use board_doubts::{Doubt, Event};

/// What is told of a game.
#[derive(Clone, Copy)]
pub enum Told {
    /// This is heard of it, and then it has so many plies.
    Hears { event: Event, plies: u64 },
    /// Something is suspected that no board shows. Who tells it knows by this number what it is.
    Suspects(u64),
}

/// An alarm. A ply is named by how many the game has with it.
#[derive(Clone, Copy)]
pub enum Look {
    /// This is doubtful, where the game has so many plies.
    Doubtful { plies: u64, doubt: Doubt },
    /// After so many plies so many moves were made one after the other while the clock was stopped.
    Stopped { plies: u64, moves: u64 },
    /// The result was given, and nobody may have played the moves after so many plies.
    Unplayed { plies: u64, moves: u64 },
    /// This is suspected.
    Suspected(u64),
}
