//! A stream that remembers whether a call on it has failed, and whether what was written waits for a flush.
ghost use Rattle.std.specs.Prelude.{◌≡◌, ◌||◌, ◌&&◌, not, ◌==◌, length, is_err, nat_lt, false, true};
ghost use Rattle.std.specs.Io.{ReadsAtMost, WritesAtMost};
ghost use Rattle.std.specs.Io.KnownBytes.{ReadConsumes, WriteAppends, Keeps};
ghost use Rattle.watched_streams.specs.Watch.{inner_of, has_failed, is_unflushed, took_none};

use std::io::{self, Read, Write};

/// A stream that remembers whether a call on it has failed, and whether it was written to since it was flushed. A write
/// of at least one byte that takes none counts as failed, and so does an interrupted call.
///
/// It passes each call of `Read` and `Write` on to its stream and returns what that returns.
#[derive(Debug, Drop)]
pub struct Watch<T> {
    inner: T,
    failed: bool,
    unflushed: bool,
}

impl<T> Watch<T> {
    /// Watches the stream, on which no call has failed so far, and nothing waits for a flush.
    pub fn new(inner: T) -> Watch<T>
        ensures inner { inner_of result ≡ inner }
        ensures failed { has_failed result ≡ false }
        ensures flushed { is_unflushed result ≡ false }
    {
        Watch {
            inner,
            failed: false,
            unflushed: false,
        }
    }

    /// Whether a call through this value has failed, or a write of at least one byte has taken none. Once true it
    /// stays true.
    pub fn failed(&self) -> bool
        ensures { result ≡ has_failed self.now }
    {
        self.failed
    }

    /// Whether `write` was called through this value after the last flush that succeeded, or at all where none has.
    pub fn unflushed(&self) -> bool
        ensures { result ≡ is_unflushed self.now }
    {
        self.unflushed
    }

    /// The stream.
    pub fn inner(&self) -> &T
        ensures { result.now ≡ inner_of self.now }
    {
        &self.inner
    }

    /// Remembers that a call has failed, if it has.
    fn note(&mut self, failed: bool)
        ensures inner { inner_of self.new ≡ inner_of self.old }
        ensures failed { has_failed self.new ≡ has_failed self.old || failed }
        ensures unflushed { is_unflushed self.new ≡ is_unflushed self.old }
    {
        self.failed |= failed;
    }
}

impl<T: Read> Read for Watch<T> {
    ghost remaining = { λ w. T.remaining (inner_of w) };

    fn read(&mut self, buf: &mut [u8]) -> io::Result<usize>
        ensures bound { ReadsAtMost result buf.new }
        ensures bytes { ReadConsumes (T.remaining (inner_of self.old)) (T.remaining (inner_of self.new)) result buf.new }
        ensures failed { has_failed self.new ≡ has_failed self.old || is_err result }
        ensures unflushed { is_unflushed self.new ≡ is_unflushed self.old }
    {
        let read = self.inner.read(buf);
        self.note(read.is_err());
        read
    }
}

impl<T: Write> Write for Watch<T> {
    ghost contents = { λ w. T.contents (inner_of w) };

    fn write(&mut self, buf: &[u8]) -> io::Result<usize>
        ensures bound { WritesAtMost result buf.now }
        ensures bytes { WriteAppends (T.contents (inner_of self.old)) (T.contents (inner_of self.new)) result buf.now }
        ensures failed { has_failed self.new ≡ has_failed self.old || took_none result buf.now }
        ensures unflushed { is_unflushed self.new ≡ true }
    {
        self.unflushed = true;
        let written = self.inner.write(buf);
        let failed = match written {
            Ok(n) => n == 0 && !buf.is_empty(),
            Err(_) => true,
        };
        self.note(failed);
        written
    }

    fn flush(&mut self) -> io::Result<()>
        ensures bytes { Keeps (T.contents (inner_of self.old)) (T.contents (inner_of self.new)) }
        ensures failed { has_failed self.new ≡ has_failed self.old || is_err result }
        ensures unflushed { is_unflushed self.new ≡ is_unflushed self.old && is_err result }
    {
        let flushed = self.inner.flush();
        self.unflushed &= flushed.is_err();
        self.note(flushed.is_err());
        flushed
    }
}
