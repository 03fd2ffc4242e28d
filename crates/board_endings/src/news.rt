//! What comes of a game, and what is said of its end.

use game_over::Over;

/// What comes beside the events of a board.
#[derive(Clone, Copy)]
pub enum News {
    /// A recorder begins, or goes on: nobody listened before.
    Begins,
    /// The game has gone back: all that came so far was written for that.
    GoesBack,
    /// An arbiter takes the result off, or says that the game isn't over.
    Reopens,
    /// Time has passed: if it alone has ended the game by now, the game stays so.
    Passes,
}

/// How a game stands with its end.
#[derive(Clone, Copy)]
pub struct End {
    /// How it is over, if it is.
    pub over: Option<Over>,
    /// It is over, and so many moves were made since: somebody must look. No more than 9,999 are counted.
    pub goes_on: Option<u64>,
    /// The game began only when its capture had so many bytes: what came before was part of the set-up.
    pub begins: Option<u64>,
}
