//! What is heard of a board and its game, and what is said of it.

/// What a picture shows apart from the game's position. A mask has bit n for square n, as `chess_rules` counts them from a8
/// to h1. A piece may have gone to a square if one like it is missing, and could go there on an empty board; a pawn never has.
#[derive(Clone, Copy)]
pub struct Seen {
    /// Where pieces of the side to move stand that may have gone there, and weren't there before the last move.
    pub own: u64,
    /// Where pieces of the side that moved last stand that may have gone there.
    pub others: u64,
    /// Where pieces of either side stand that aren't there in the position and can't have gone there at once. Those of the side
    /// to move weren't there before the last move either.
    pub astray: u64,
    /// The piece that moved last isn't where it belongs.
    pub is_off: bool,
    /// It is the position before the last move.
    pub is_back: bool,
    /// The piece that moved before the last move isn't where it belonged then.
    pub was_drawn: bool,
    /// A piece of the side that moved last is in a hand.
    pub in_hand: bool,
}

/// A time in which the board wasn't heard.
#[derive(Clone, Copy)]
pub struct Gap {
    /// In milliseconds.
    pub lasted: u64,
    /// The recorder was away.
    pub is_restart: bool,
}

/// Where a piece goes; of castling it is the king. Squares are numbered as in masks.
#[derive(Clone, Copy)]
pub struct Ply {
    pub from: u8,
    pub to: u8,
    /// It is Black's.
    pub black: bool,
}

/// What is heard of a board and its game.
#[derive(Clone, Copy)]
pub enum Heard {
    /// The board shows a picture. News of the game follow it.
    Shows(Seen),
    /// News: a move of the game. The position that it leads to may be one of the last eight again.
    Moves { repeats: bool },
    /// News: a correction of the last move, and whether that repeats a position.
    Corrects { repeats: bool },
    /// The ply of the move that was heard just before.
    Plays(Ply),
    /// The ply of the correction that was heard just before.
    Replaces(Ply),
    /// News: the board shows the game's position again, or still.
    Agrees,
    /// News: a result, which ends the game.
    Ends,
    /// News: the result doesn't count.
    Reopens,
    /// A pair of plies that no picture showed is put in: their news follow. What pictures showed before belongs to it.
    PutsIn,
    /// Somebody is to put the pieces where they belong: plies were taken off, or a game is taken up.
    PutsBack,
    /// The board is heard again after a time.
    Away(Gap),
    /// The clock says that it runs, or that it stands.
    Clock { runs: bool },
    /// Somebody presses the clock.
    Presses,
    /// The time of this side goes down, as the clock's sides are read.
    Counts { black: bool },
    /// Somebody has looked at what was doubtful.
    Looked,
}

/// What is heard at a time, in milliseconds. Events come in order of time.
#[derive(Clone, Copy)]
pub struct Event {
    pub at: u64,
    /// An arbiter has added it, and the board didn't show it.
    pub is_added: bool,
    pub what: Heard,
}

/// Why news may hide moves that nobody saw.
#[derive(Clone, Copy, PartialEq, Eq)]
pub enum Why {
    /// It corrects a move late.
    Late,
    /// Pieces of the other side stood on other squares before it.
    Elsewhere,
    /// Pieces of both sides did.
    BothElsewhere,
    /// The board wasn't heard for a time.
    AfterGap,
    /// Both sides have taken plies back at once.
    TakenBack,
    /// Nobody presses the clock.
    Unpressed,
    /// Plies are thought about on the other side's time: the clock's sides may be read the wrong way.
    OtherTime,
    /// Both sides have moved on the pieces that they moved before, and nobody presses the clock.
    MovedOn,
    /// A position is there again, and nobody presses the clock.
    Returned,
}

/// Where moves may be missing.
#[derive(Clone, Copy, PartialEq, Eq)]
pub enum Place {
    /// Before the last move, or instead of it.
    AtLast,
    /// After the last move.
    AfterLast,
}

/// What somebody must look at.
#[derive(Clone, Copy)]
pub struct Doubt {
    pub place: Place,
    pub why: Why,
}
