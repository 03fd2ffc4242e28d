//! Whole texts to a watched stream, and its flush.
ghost use Rattle.std.specs.Prelude.{◌≡◌, ◌<◌, length, take, OnOk, OnErr, IfErr, IsTrue, true, false};
ghost use Rattle.std.specs.Io.KnownBytes.{Appends, Keeps};
ghost use Rattle.watched_streams.specs.Output.{AppendsPart};
ghost use Rattle.watched_streams.specs.Watch.{inner_of, has_failed, IsFlushed};

use crate::watched::Watch;
use std::io::Write;

/// A write failed, or took no byte.
#[derive(Clone, Copy, Debug, PartialEq, Eq)]
pub struct WriteFault {
    /// How many bytes of the text were written before it. Where there were more than 2^64 - 1, it is 2^64 - 1.
    pub written: u64,
}

/// Writes all the bytes, by as many calls of `write` as it takes. It doesn't flush. The stream must not have failed
/// before.
///
/// # Errors
///
/// Where a write fails or takes no byte; the bytes that the error counts were written, and no other.
pub fn put<W: Write>(out: &mut Watch<W>, bytes: &[u8]) -> Result<(), WriteFault>
    requires { has_failed out.old ≡ false }
    ensures ok { OnOk result (Appends (W.contents (inner_of out.old)) (W.contents (inner_of out.new)) bytes.now) }
    ensures working { OnOk result (has_failed out.new ≡ false) }

    // The first bytes were written and no other, and the stream has failed.
    ensures fault { IfErr result (λ fault. (fault.written < length bytes.now)
        × Appends (W.contents (inner_of out.old)) (W.contents (inner_of out.new)) (take fault.written bytes.now)) }
    ensures failed { OnErr result (has_failed out.new ≡ true) }
{
    let mut at = 0;
    while at < bytes.len() {
        match out.write(&bytes[at..]) {
            Ok(n) if n > 0 => at += n,
            _ => return Err(WriteFault { written: at as u64 }),
        }
    }
    Ok(())
}

/// Flushes, unless a call on the stream has failed, and tells whether none has.
pub fn flush_unless_failed<W: Write>(out: &mut Watch<W>) -> bool
    ensures kept { Keeps (W.contents (inner_of out.old)) (W.contents (inner_of out.new)) }
    ensures works { IsTrue result → (has_failed out.old ≡ false) × (has_failed out.new ≡ false) }
    ensures failed { result ≡ false → has_failed out.new ≡ true }
    ensures flushed { IsFlushed out.new }
{
    if out.failed() {
        return false;
    }
    out.flush().is_ok()
}

/// Writes all the bytes and flushes, and tells whether both succeeded. Where one didn't, some first bytes were written,
/// perhaps all. The stream must not have failed before.
pub fn put_and_flush<W: Write>(out: &mut Watch<W>, bytes: &[u8]) -> bool
    requires { has_failed out.old ≡ false }
    ensures done { IsTrue result → Appends (W.contents (inner_of out.old)) (W.contents (inner_of out.new)) bytes.now
        × (has_failed out.new ≡ false) }
    ensures part { AppendsPart (W.contents (inner_of out.old)) (W.contents (inner_of out.new)) bytes.now }
    ensures failed { result ≡ false → has_failed out.new ≡ true }
    ensures flushed { IsFlushed out.new }
{
    if put(out, bytes).is_err() {
        return false;
    }
    flush_unless_failed(out)
}
