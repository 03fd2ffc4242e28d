//! Why a recording may give up.
use thiserror::Error;

/// Why a recording gave up. The first of `Memory`, `Read`, `Board` and `TooLong` that comes ends the reading; the text
/// of the events taken so far is written after it, and where that fails too it is `Write`.
#[derive(Clone, Copy, Debug, PartialEq, Eq, Error)]
pub enum RecordError {
    /// There was no memory for a move.
    #[error("out of memory")]
    Memory,
    /// A read from the board failed; one that was interrupted counts as failed.
    #[error("a read from the board failed")]
    Read,
    /// A command could not be sent to the board: a write failed or took no byte, or the flush failed.
    #[error("a write to the board failed")]
    Board,
    /// The text could not be written: a write failed or took no byte, or the flush failed.
    #[error("a write of the game failed")]
    Write,
    /// The stream has more than 67,108,864 bytes.
    #[error("the stream is too long")]
    TooLong,
}
