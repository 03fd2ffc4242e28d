//! What a recording counts of a stream.

/// What a recording counted.
#[derive(Clone, Copy, Debug, PartialEq, Eq)]
pub struct Report {
    /// The well-formed frames, those of other messages too.
    pub messages: u32,
    /// The places where the bytes are no frame; the board was asked for a dump at each of them.
    pub faults: u32,
    /// The plies of the game.
    pub moves: u32,
    /// The bytes of an unfinished frame at the end.
    pub rest: u16,
}
