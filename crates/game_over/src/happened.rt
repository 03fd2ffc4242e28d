//! What happens in a recorded game.

/// A result.
#[derive(Clone, Copy, PartialEq, Eq)]
pub enum Outcome {
    WhiteWins,
    BlackWins,
    Draw,
}

/// A move of the game, or a correction of the last one.
#[derive(Clone, Copy)]
pub struct Move {
    /// It brought a piece to a square that has such a piece at the start; or a castled king went home, which shows as the rook's
    /// move.
    pub goes_home: bool,
    /// It corrects the last move.
    pub corrects: bool,
    /// An arbiter added it, or it stayed when the game went back.
    pub is_added: bool,
}

/// A picture of the board.
#[derive(Clone, Copy)]
pub struct Shown {
    /// The squares that are off the start of the game. Bit n is square n, as `chess_rules` counts them from a8 to h1.
    pub off: u64,
    /// The game is at its start.
    pub at_start: bool,
}

/// What happens.
#[derive(Clone, Copy)]
pub enum Happening {
    /// The game has a move more, or its last one is corrected.
    Moves(Move),
    /// The board shows the game's position again, or still.
    Agrees,
    /// The board shows something else.
    Differs,
    /// The board's picture. It comes after what the picture says of the game: a move, or that the board agrees or differs.
    Shows(Shown),
    /// The game's position is mate or stalemate, which is this result. After a correction that is told anew. An arbiter may have added
    /// the move.
    Ends { outcome: Outcome, is_added: bool },
    /// The kings show this result, or an arbiter gives it.
    Declares { outcome: Outcome, is_added: bool },
    /// An arbiter takes the result off, or says that the game isn't over.
    Reopens,
    /// The board is heard again after a time in which nobody listened, as when a recorder begins. What came before is told with its
    /// own times.
    Resumes,
    /// The game has gone back, and its capture up to here was written for that.
    GoesBack,
    /// Time passes. What came by then is told before.
    Passes,
    /// The board is heard: what stands on it stands there now. If it shows anything else, that is told behind this.
    Hears,
}

/// What happens at a time. Events come in order of time.
#[derive(Clone, Copy)]
pub struct Event {
    /// In milliseconds.
    pub at: u64,
    /// So many bytes the capture has with what brought it.
    pub bytes: u64,
    pub what: Happening,
}
