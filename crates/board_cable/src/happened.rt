//! What happens at a board's cable.
ghost use Rattle.std.specs.Prelude.{◌≡◌};
ghost use Rattle.board_cable.specs.Keeping.{ends_aside, ends_held};
ghost use Rattle.board_cable.specs.Moments.{is_anew, is_heard};
ghost use Rattle.board_cable.specs.Turns.{told_by};

use crate::line::Happening;

/// What happens.
#[derive(Clone, Copy)]
pub enum What {
    /// A call of the recorder begins, and with it a clock: what happened before is history.
    Begins,
    /// The line has been opened.
    Opens,
    /// A board behind a serial server has answered, for the first time since the line was opened.
    Answers,
    /// The line has gone away.
    Closes,
    /// The recorder hangs up and calls a serial server again.
    HangsUp,
    /// The board has sent bytes.
    Hears,
    /// Bytes were added by hand, which may cut a frame; or nobody listened for a while, and an answer may be old.
    Interrupts,
    /// The arbiter takes the board on the cable for the game's.
    Takes,
    /// The game's board has this serial number, as the game had it before.
    Owns([u8; 5]),
    /// Another game has taken what was kept aside.
    Lends,
    /// The time has come that was named.
    Wakes,
}

/// What happens at a time, in milliseconds from the beginning of the call.
#[derive(Clone, Copy)]
pub struct Happened {
    pub at: u64,
    pub what: What,
}

/// Whether the board has sent bytes.
pub fn is_heard(what: What) -> bool
    ensures { result ≡ is_heard what }
{
    matches!(what, What::Hears)
}

/// Whether frames are read anew from here on.
pub fn is_anew(what: What) -> bool
    ensures { result ≡ is_anew what }
{
    matches!(what, What::Begins | What::Opens | What::Interrupts)
}

/// Whether what is held ends here.
pub fn ends_held(what: What) -> bool
    ensures { result ≡ ends_held what }
{
    matches!(
        what,
        What::Begins | What::Opens | What::Closes | What::HangsUp
    )
}

/// Whether what is kept aside ends here.
pub fn ends_aside(what: What) -> bool
    ensures { result ≡ ends_aside what }
{
    matches!(what, What::Begins | What::Lends)
}

/// What this tells of the line, if no bytes come; the board on the cable has shown this number.
pub fn told_by(what: What, shown: Option<[u8; 5]>) -> Option<Happening>
    ensures { result ≡ told_by what shown }
{
    match what {
        What::Begins => Some(Happening::Begins),
        What::Opens => Some(Happening::Opens),
        What::Answers => Some(Happening::Answers),
        What::Closes => Some(Happening::Closes),
        What::HangsUp => Some(Happening::HangsUp),
        What::Interrupts => Some(Happening::Interrupts),
        What::Owns(number) => Some(Happening::Owns(number)),
        What::Takes => match shown {
            None => None,
            Some(number) => Some(Happening::Owns(number)),
        },
        What::Hears | What::Lends | What::Wakes => None,
    }
}
