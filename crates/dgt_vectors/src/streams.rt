//! A reader and a writer in memory.

use crate::bytes::{Bytes, ROOM};
use std::io::{self, ErrorKind, Read, Write};

/// As many calls as a test makes.
pub const ALWAYS: u32 = 4_294_967_295;

/// Gives bytes and then like ones, with each read as many as it has room for, and then ends.
#[derive(Drop)]
pub struct Source<'a> {
    bytes: &'a [u8],
    at: usize,
    like: u8,
    left: u32,
    chunk: usize,
    calls_left: u32,
    fails: bool,
}

impl<'a> Source<'a> {
    /// Gives these bytes.
    pub fn new(bytes: &'a [u8]) -> Source<'a> {
        Source {
            bytes,
            at: 0,
            like: 0,
            left: 0,
            chunk: usize::MAX,
            calls_left: ALWAYS,
            fails: false,
        }
    }

    /// So many of this byte come after the others.
    pub fn and_then(mut self, count: u32, byte: u8) -> Source<'a> {
        self.like = byte;
        self.left = count;
        self
    }

    /// At most so many bytes come with a read.
    pub fn in_chunks(mut self, chunk: usize) -> Source<'a> {
        self.chunk = chunk;
        self
    }

    /// Fails once so many calls have returned.
    pub fn failing_after(mut self, calls: u32) -> Source<'a> {
        self.calls_left = calls;
        self
    }

    /// Whether it fails in place of ending.
    pub fn failing(mut self, fails: bool) -> Source<'a> {
        self.fails = fails;
        self
    }

    /// How many of the like bytes at the end weren't read.
    pub fn left(&self) -> u32 {
        self.left
    }
}

impl Read for Source<'_> {
    fn read(&mut self, buf: &mut [u8]) -> io::Result<usize> {
        if self.calls_left == 0 {
            return Err(io::Error::from(ErrorKind::BrokenPipe));
        }
        self.calls_left -= 1;
        let mut count = 0;
        for place in buf.iter_mut() {
            if count >= self.chunk {
                break;
            }
            if let Some(byte) = self.bytes.get(self.at) {
                *place = *byte;
                self.at = self.at.saturating_add(1);
            } else if self.left > 0 {
                *place = self.like;
                self.left -= 1;
            } else {
                break;
            }
            count += 1;
        }
        if count == 0 && self.fails {
            return Err(io::Error::from(ErrorKind::BrokenPipe));
        }
        Ok(count)
    }
}

/// Takes so many bytes, and then fails. What isn't flushed doesn't show.
#[derive(Drop)]
pub struct Sink {
    bytes: Bytes,
    shown: usize,
    room: usize,
    chunk: usize,
    calls_left: u32,
    flushes: bool,
}

impl Sink {
    /// Takes so many bytes.
    pub fn new(room: usize) -> Sink {
        Sink {
            bytes: Bytes::new(),
            shown: 0,
            room,
            chunk: ROOM,
            calls_left: ALWAYS,
            flushes: true,
        }
    }

    /// At most so many bytes are taken by a write.
    pub fn in_chunks(mut self, chunk: usize) -> Sink {
        self.chunk = chunk;
        self
    }

    /// Fails once so many calls have returned.
    pub fn failing_after(mut self, calls: u32) -> Sink {
        self.calls_left = calls;
        self
    }

    /// Whether it can be flushed.
    pub fn flushing(mut self, flushes: bool) -> Sink {
        self.flushes = flushes;
        self
    }

    /// What was written and flushed.
    pub fn shown(&self) -> &[u8] {
        self.bytes.front(self.shown)
    }

    /// What was written, flushed or not.
    pub fn held(&self) -> &[u8] {
        self.bytes.get()
    }

    fn is_over(&mut self) -> bool {
        if self.calls_left == 0 {
            return true;
        }
        self.calls_left -= 1;
        false
    }
}

impl Write for Sink {
    fn write(&mut self, buf: &[u8]) -> io::Result<usize> {
        if self.is_over() {
            return Err(io::Error::from(ErrorKind::BrokenPipe));
        }
        let mut count = 0;
        for byte in buf {
            if self.room == 0 {
                break;
            }
            if count >= self.chunk {
                break;
            }
            self.room -= 1;
            self.bytes.add(&[*byte]);
            count += 1;
        }
        if count == 0 && !buf.is_empty() {
            return Err(io::Error::from(ErrorKind::BrokenPipe));
        }
        Ok(count)
    }

    fn flush(&mut self) -> io::Result<()> {
        if self.is_over() {
            return Err(io::Error::from(ErrorKind::BrokenPipe));
        }
        if !self.flushes {
            return Err(io::Error::from(ErrorKind::BrokenPipe));
        }
        self.shown = self.bytes.len();
        Ok(())
    }
}
