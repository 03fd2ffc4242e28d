//! What is heard of a board. A mask has bit n for square n, as `chess_rules` counts them from a8 to h1.

/// A picture that differs from the one before it, or the first one.
#[derive(Clone, Copy)]
pub struct Picture {
    /// Where it differs from the game's position.
    pub differs: u64,
    /// Where it differs from the picture before it. Of the first picture this doesn't count.
    pub changed: u64,
    /// Where it differs from the start of the game, seen from the other side.
    pub turned: u64,
}

/// What is heard of a board.
#[derive(Clone, Copy)]
pub enum Heard {
    /// The board shows a picture, and no move or result with it.
    Shows(Picture),
    /// The board shows the picture that it showed last.
    Repeats,
    /// The board shows a move of the game, or a correction of the last one.
    Moves,
    /// The board shows a result, which ends the game.
    Ends,
    /// The board shows that the result doesn't count.
    Reopens,
    /// The board doesn't answer.
    Stops,
    /// The board answers again.
    Answers,
    /// Its line is gone.
    Unplugs,
    /// Its line is open.
    Plugs,
    /// A recorder begins. It may take up a game whose events came before.
    Begins,
}

/// What is heard at a time, in milliseconds. Events come in order of time.
#[derive(Clone, Copy)]
pub struct Event {
    pub at: u64,
    pub what: Heard,
}
