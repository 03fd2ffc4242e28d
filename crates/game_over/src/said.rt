//! What is said to what happens in a game.

use crate::happened::Outcome;

/// Why a game is over.
#[derive(Clone, Copy, PartialEq, Eq)]
pub enum Why {
    /// Its result has stood for ten seconds.
    Stood,
    /// It has a result, and another move was made.
    PlaysOn,
    /// The kings or an arbiter gave its result, and then its last move was corrected.
    Corrected,
    /// It has a result, and the pieces were set up again.
    SetUp,
    /// It has no result, and the pieces were set up again.
    Unfinished,
}

/// How a game is over.
#[derive(Clone, Copy, PartialEq, Eq)]
pub struct Over {
    pub why: Why,
    /// Its result. That of an unfinished game is None, or mate or stalemate that was corrected by a piece of the set-up.
    pub result: Option<Outcome>,
    /// So many bytes of the capture are the game's.
    pub bytes: u64,
    /// Nobody need look at its last moves.
    pub is_sure: bool,
}

/// What is said to an event.
#[derive(Clone, Copy)]
pub enum Said {
    Nothing,
    /// The game is over.
    IsOver(Over),
    /// The game begins only now: the board has never agreed with it, and its one move was part of the set-up.
    BeginsNow,
    /// The game is over, and so many moves were made since. Somebody must look. No more than 9,999 are counted.
    GoesOn(u64),
}
