//! The bytes that come at one time.
ghost use Rattle.std.specs.Prelude.{◌≡◌};
ghost use Rattle.board_alarms.specs.Items.{is_sent};

/// When something comes.
#[derive(Clone, Copy)]
pub struct When {
    /// In milliseconds.
    pub at: u64,
    /// Somebody has added it by hand: the board hasn't sent it.
    pub is_added: bool,
}

/// Bytes that come together.
#[derive(Clone, Copy)]
pub struct Chunk {
    /// When they come, and whether somebody has added them by hand.
    pub when: When,
    /// So many bytes the capture has with all of them.
    pub end: u64,
    /// The capture doesn't have them: they show a pair of plies that is put in.
    pub is_put_in: bool,
}

impl Chunk {
    /// Whether the board has sent these bytes.
    pub fn is_sent(&self) -> bool
        ensures { result ≡ is_sent self.now }
    {
        !(self.when.is_added || self.is_put_in)
    }
}
