//! What happens on a board's line.
ghost use Rattle.std.specs.Prelude.{◌≡◌};
ghost use Rattle.board_cable.specs.Line.{bytes_of};

/// What a board is sent.
#[derive(Clone, Copy)]
pub enum Request {
    /// A dump.
    Dump,
    /// Its serial number, and a dump.
    Numbered,
    /// Its serial number, and a dump; updates from then on, and times when they change.
    Start,
}

impl Request {
    /// The bytes that are sent: 45 asks for the number, 42 for a dump, 4B for updates.
    pub fn bytes(self) -> &'static [u8]
        ensures { result.now ≡ bytes_of self }
    {
        match self {
            Request::Dump => b"B",
            Request::Numbered => b"EB",
            Request::Start => b"EBK",
        }
    }
}

/// What happens.
#[derive(Clone, Copy)]
pub enum Happening {
    /// A call of the recorder begins, and with it a clock: what happened before is history.
    Begins,
    /// The line has been opened.
    Opens,
    /// A board behind a serial server has answered, for the first time since the line was opened.
    Answers,
    /// The line has gone away.
    Closes,
    /// The recorder hangs up and calls a serial server again.
    HangsUp,
    /// Bytes came; whether they leave a frame unfinished.
    Comes(bool),
    /// A fault came.
    Faults,
    /// An update came.
    Updates,
    /// A dump came: 64 piece codes.
    Dumps([u8; 64]),
    /// The board's serial number came: five characters.
    Numbers([u8; 5]),
    /// The game's board has this serial number: the game had it before, or the arbiter has taken the board on the cable.
    Owns([u8; 5]),
    /// Bytes were added by hand, which may cut a frame; or nobody listened for a while, and an answer may be old.
    Interrupts,
    /// The board was sent a request.
    Asks(Request),
}

/// What happens at a time, in milliseconds from the beginning of the call.
#[derive(Clone, Copy)]
pub struct Event {
    pub at: u64,
    pub what: Happening,
}
