//! A whole input, up to a limit.
ghost use Rattle.std.specs.Prelude.{◌≡◌, ◌<◌, ◌≤◌, Err, IfOk, OnOk, IfSome, false, true, length};
ghost use Rattle.watched_streams.specs.Watch.{inner_of, has_failed};
ghost use Rattle.watched_streams.specs.Input.{ReadsWithin};

use std::alloc::Global;
use std::io::Read;
use watched_streams::{CHUNK, Watch, read_chunk};

/// Why a text could not be read.
pub enum TextError {
    Memory,
    Read,
    TooLong,
}

/// Reads a text to its end, or one byte past its limit.
pub fn read_text<R: Read>(
    alloc: Global,
    reader: &mut Watch<R>,
    limit: usize,
) -> Result<Vec<u8>, TextError>
    requires { has_failed reader.old ≡ false }
    ensures whole { IfOk result (λ text. IfSome (R.remaining (inner_of reader.old)) (λ bytes. text.items ≡ bytes)) }
    ensures within { IfOk result (λ text. length text.items ≤ limit) }
    ensures bounded { ReadsWithin limit (R.remaining (inner_of reader.old)) (R.remaining (inner_of reader.new)) }
    ensures read { result ≡ Err TextError.Read → has_failed reader.new ≡ true }
    ensures works { OnOk result (has_failed reader.new ≡ false) }
    ensures blamed { has_failed reader.new ≡ true → result ≡ Err TextError.Read }
    ensures long { result ≡ Err TextError.TooLong → IfSome (R.remaining (inner_of reader.old)) (λ bytes. limit < length bytes) }
{
    let mut text = Vec::new(alloc);
    let mut buffer = [0u8; CHUNK];
    'chunks: loop {
        let Ok(read) = read_chunk(reader, &mut buffer, limit - text.len()) else {
            return Err(TextError::Read);
        };
        let Some(chunk) = read else {
            return Ok(text);
        };
        if chunk.past {
            return Err(TextError::TooLong);
        }
        if text.extend_from_slice(&buffer[..chunk.within]).is_err() {
            return Err(TextError::Memory);
        }
    }
}
