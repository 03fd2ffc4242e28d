//! Chunks of a watched stream, up to a limit.
ghost use Rattle.std.specs.Prelude.{◌≡◌, ◌||◌, is_err};
ghost use Rattle.watched_streams.specs.Watch.{inner_of, has_failed};
ghost use Rattle.watched_streams.specs.Input.{ReadsChunk};

use crate::watched::Watch;
use std::io::{self, Read};

/// The most bytes of a read.
pub const CHUNK: usize = 4096;

/// What a read gave.
#[derive(Clone, Copy, Debug, PartialEq, Eq)]
pub struct ReadChunk {
    /// How many bytes lie within the limit. They are the first of the buffer.
    pub within: usize,
    /// Whether one byte past the limit was read too.
    pub past: bool,
}

/// Reads a chunk of a stream of which so many bytes are left up to its limit, and at most one byte past it. None is the
/// stream's end.
///
/// # Errors
///
/// Where the read fails; no byte was read.
pub fn read_chunk<R: Read>(
    reader: &mut Watch<R>,
    buffer: &mut [u8; CHUNK],
    left: usize,
) -> io::Result<Option<ReadChunk>>
    ensures bytes { ReadsChunk left buffer.new result (R.remaining (inner_of reader.old)) (R.remaining (inner_of reader.new)) }
    ensures failed { has_failed reader.new ≡ has_failed reader.old || is_err result }
{
    let room = left.min(CHUNK - 1) + 1;
    match reader.read(&mut buffer[..room]) {
        Ok(0) => Ok(None),
        Ok(n) => {
            let within = n.min(left);
            Ok(Some(ReadChunk {
                within,
                past: within < n,
            }))
        }
        Err(error) => Err(error),
    }
}
