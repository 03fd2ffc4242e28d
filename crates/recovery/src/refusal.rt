//! Why a stream may be given on only in part.
ghost use Rattle.std.specs.Prelude.{◌≡◌};
ghost use Rattle.recovery.specs.Inside.Status.{status_of, message_of};

/// Why a stream was not given on to its end.
#[derive(Clone, Copy, Debug, PartialEq, Eq)]
pub enum RecoverError {
    /// A read failed; one that was interrupted counts as failed.
    Read,
    /// The bytes could not be given on: a write failed or took no byte, or the flush failed.
    Write,
    /// The line of a pair could not be told: a write failed or took no byte, or the flush failed.
    Lines,
    /// The stream has more than 67,108,864 bytes.
    TooLong,
    /// Memory ran out.
    Memory,
}

impl RecoverError {
    /// What the program says of it.
    pub fn line(self) -> &'static [u8]
        ensures { result.now ≡ message_of self }
    {
        match self {
            RecoverError::Read => b"read fault\n",
            RecoverError::Write => b"write fault\n",
            RecoverError::Lines => b"",
            RecoverError::TooLong => b"input: too long\n",
            RecoverError::Memory => b"memory\n",
        }
    }

    /// The exit status that tells of it.
    pub fn status(self) -> u8
        ensures { result ≡ status_of self }
    {
        match self {
            RecoverError::Read | RecoverError::Write | RecoverError::Lines => 3,
            RecoverError::TooLong => 1,
            RecoverError::Memory => 4,
        }
    }
}
