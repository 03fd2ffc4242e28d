//! What comes of a game that isn't in its bytes.

use board_standing::Heard;

/// What comes beside the bytes of a game.
#[derive(Clone, Copy)]
pub enum Note {
    /// This is heard of the line: that it is gone or open, that the board doesn't answer or does, that a recorder begins.
    Line(Heard),
    /// Somebody has looked: no alarm is open any more.
    Looked,
    /// Plies were taken off, or the game is taken up: the pieces are to be put where they belong, if they don't stand there.
    PutsBack,
    /// An arbiter reopens the game: he has taken its result off, or says that it isn't over.
    Reopens,
    /// Time has passed: if it alone has ended the game by now, the game stays so.
    Passes,
    /// Nobody listened for a time, in which a result may have been taken back.
    Resumes,
    /// Something is suspected that no board shows. Who tells it knows by this number what it is.
    Suspects(u64),
}
