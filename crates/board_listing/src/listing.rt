//! What can be listed of a stream.
use chess_rules::Position;
use dgt_frame::First;

/// What is listed.
#[derive(Clone, Copy, Debug)]
pub enum Listing {
    /// One line for each event, and one for the rest.
    Events,
    /// One placement for each picture that differs from the one before. With `rotated`, field n means square 63 - n.
    Pictures {
        rotated: bool,
    },
    /// What each event makes of the game from this start, where `first` is whose time comes first.
    Game {
        start: Position,
        first: First,
        rotated: bool,
    },
    /// The same, and between the lines each picture, each position of the game and each reading of the clocks.
    Watched {
        start: Position,
        first: First,
        rotated: bool,
    },
}
