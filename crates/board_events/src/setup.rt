//! What a recording is set up with.
use chess_game::Tags;
use chess_rules::Position;
use dgt_frame::First;

/// How a recording is set up.
#[derive(Drop)]
pub struct Setup {
    /// The position on the board when the game begins.
    pub start: Position,
    /// Whose time the first group of a time message is.
    pub first: First,
    /// Whether field n means square 63 - n, in dumps and updates: so it is where Black has the connector on the left.
    /// Else it means square n.
    pub rotated: bool,
    /// The tags that the game's text gets.
    pub tags: Tags,
}
