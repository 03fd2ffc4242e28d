//! Streams that fail as a script says: what a `Watch` tells of them, what is read of them and what is written.
ghost use Rattle.std.specs.Prelude.{◌≤◌, IfOk};

use crate::coded_frames::{expect_none, first_false};
use std::io::{self, ErrorKind, Read, Write};
use watched_streams::{
    CHUNK, ReadChunk, Watch, WriteFault, flush_unless_failed, put, put_and_flush, read_chunk,
};

/// A stream whose calls do in turn what the script says, and which counts the calls.
#[derive(Drop)]
struct Scripted<'a> {
    answers: &'a [Result<usize, ErrorKind>],
    calls: usize,
}

impl Scripted<'_> {
    fn answer(&mut self, most: usize) -> io::Result<usize>
        ensures { IfOk result (λ n. n ≤ most) }
    {
        let answer = self.answers.get(self.calls).copied();
        self.calls = self.calls.saturating_add(1);
        match answer {
            Some(Ok(n)) => Ok(n.min(most)),
            Some(Err(kind)) => Err(io::Error::from(kind)),
            None => Ok(0),
        }
    }
}

impl Read for Scripted<'_> {
    fn read(&mut self, buf: &mut [u8]) -> io::Result<usize> {
        self.answer(buf.len())
    }
}

impl Write for Scripted<'_> {
    fn write(&mut self, buf: &[u8]) -> io::Result<usize> {
        self.answer(buf.len())
    }

    fn flush(&mut self) -> io::Result<()> {
        match self.answer(0) {
            Ok(_) => Ok(()),
            Err(error) => Err(error),
        }
    }
}

/// Whether a call gave this number, or an error of this kind.
fn is_answer(given: io::Result<usize>, answer: Result<usize, ErrorKind>) -> bool {
    match (given, answer) {
        (Ok(n), Ok(expected)) => n == expected,
        (Err(error), Err(kind)) => error.kind() == kind,
        _ => false,
    }
}

/// Whether so many calls came to the stream that is watched, and one of them failed or none did.
fn is_after(stream: &Watch<Scripted<'_>>, calls: usize, failed: bool) -> bool {
    stream.inner().calls == calls && stream.failed() == failed
}

static READS: [Result<usize, ErrorKind>; 4] = [Ok(3), Ok(0), Err(ErrorKind::Interrupted), Ok(2)];

/// What each read says, and whether one has failed after it.
static READ_ANSWERS: [(Result<usize, ErrorKind>, bool); 4] = [
    (Ok(3), false),
    (Ok(0), false),
    (Err(ErrorKind::Interrupted), true),
    (Ok(2), true),
];

/// The number of the first read that returns something else, or after which the stream says otherwise.
fn first_unlike_read(stream: &mut Watch<Scripted<'_>>) -> Option<usize> {
    for (i, (answer, failed)) in READ_ANSWERS.iter().enumerate() {
        let mut buf = [0u8; 4];
        let given = stream.read(&mut buf);
        if !is_answer(given, *answer) || !is_after(stream, i + 1, *failed) {
            return Some(i);
        }
    }
    None
}

/// A stream that does what this script says.
fn watched<'a>(answers: &'a [Result<usize, ErrorKind>]) -> Watch<Scripted<'a>> {
    Watch::new(Scripted { answers, calls: 0 })
}

static WRITES: [Result<usize, ErrorKind>; 6] = [
    Ok(3),
    Ok(0),
    Ok(2),
    Ok(0),
    Ok(4),
    Err(ErrorKind::BrokenPipe),
];

/// What is written, what the write says, and whether one has failed after it. A write of no byte may take none.
static WRITE_ANSWERS: [(&[u8], Result<usize, ErrorKind>, bool); 5] = [
    (b"abcd", Ok(3), false),
    (b"", Ok(0), false),
    (b"abcd", Ok(2), false),
    (b"abcd", Ok(0), true),
    (b"abcd", Ok(4), true),
];

static FLUSHES: [Result<usize, ErrorKind>; 3] = [Ok(0), Err(ErrorKind::BrokenPipe), Ok(0)];

/// The number of the first write that returns something else, or after which the stream says otherwise.
fn first_unlike_write(stream: &mut Watch<Scripted<'_>>) -> Option<usize> {
    for (i, (bytes, answer, failed)) in WRITE_ANSWERS.iter().enumerate() {
        let given = stream.write(bytes);
        if !is_answer(given, *answer) || !is_after(stream, i + 1, *failed) {
            return Some(i);
        }
    }
    None
}

/// The number of the first flush that returns something else, or after which the stream says otherwise.
fn first_unlike_flush(stream: &mut Watch<Scripted<'_>>) -> Option<usize> {
    for (i, failed) in [false, true, true].iter().enumerate() {
        let fails = stream.flush().is_err();
        if fails != (i == 1) || !is_after(stream, i + 1, *failed) {
            return Some(i);
        }
    }
    None
}

static WRITTEN_AND_FLUSHED: [Result<usize, ErrorKind>; 6] = [
    Ok(0),
    Ok(1),
    Err(ErrorKind::BrokenPipe),
    Ok(0),
    Ok(0),
    Err(ErrorKind::BrokenPipe),
];

/// For each call whether it is a write, else it is a flush, and whether something waits after it: after each write, of
/// no byte too, up to a flush that succeeds.
static WAITING: [(bool, bool); 6] = [
    (true, true),
    (true, true),
    (false, true),
    (false, false),
    (true, true),
    (false, true),
];

/// The number of the first call after which the stream says something else of what waits.
fn first_unlike_waiting(stream: &mut Watch<Scripted<'_>>) -> Option<usize> {
    for (i, (writes, waits)) in WAITING.iter().enumerate() {
        if *writes {
            let _ = stream.write(b"a");
        } else {
            let _ = stream.flush();
        }
        if stream.unflushed() != *waits {
            return Some(i);
        }
    }
    None
}

static TAKEN: [Result<usize, ErrorKind>; 4] = [Ok(3), Ok(3), Ok(3), Ok(3)];

static CUT_OFF: [Result<usize, ErrorKind>; 2] = [Ok(3), Err(ErrorKind::BrokenPipe)];

/// Ten bytes are put on this stream by so many calls, with this result.
fn puts_ten(
    answers: &[Result<usize, ErrorKind>],
    calls: usize,
    expected: Result<(), WriteFault>,
) -> bool {
    let mut out = Watch::new(Scripted { answers, calls: 0 });
    put(&mut out, b"0123456789") == expected && is_after(&out, calls, expected.is_err())
}

static UNFLUSHED: [Result<usize, ErrorKind>; 2] = [Ok(10), Err(ErrorKind::BrokenPipe)];

/// Ten bytes are put on this stream and flushed, by so many calls, or not.
fn flushes_ten(answers: &[Result<usize, ErrorKind>], calls: usize, succeeds: bool) -> bool {
    let mut out = Watch::new(Scripted { answers, calls: 0 });
    put_and_flush(&mut out, b"0123456789") == succeeds && is_after(&out, calls, !succeeds)
}

static OFFERED: [Result<usize, ErrorKind>; 6] = [
    Ok(3),
    Ok(7),
    Ok(8),
    Ok(1),
    Ok(0),
    Err(ErrorKind::Interrupted),
];

/// How many bytes are left up to the limit, and what a read then gives: how many bytes within the limit, and whether
/// one past it.
static CHUNKS: [(usize, Result<Option<(usize, bool)>, ErrorKind>); 6] = [
    (10, Ok(Some((3, false)))),
    (7, Ok(Some((7, false)))),
    (7, Ok(Some((7, true)))),
    (0, Ok(Some((0, true)))),
    (0, Ok(None)),
    (0, Err(ErrorKind::Interrupted)),
];

/// Whether a read gave this chunk, the end, or an error of this kind.
fn is_chunk(
    given: io::Result<Option<ReadChunk>>,
    expected: Result<Option<(usize, bool)>, ErrorKind>,
) -> bool {
    match (given, expected) {
        (Ok(Some(chunk)), Ok(Some((within, past)))) => chunk == ReadChunk { within, past },
        (Ok(None), Ok(None)) => true,
        (Err(error), Err(kind)) => error.kind() == kind,
        _ => false,
    }
}

/// The number of the first read that gives another chunk.
fn first_unlike_chunk(reader: &mut Watch<Scripted<'_>>) -> Option<usize> {
    let mut buffer = [0u8; CHUNK];
    for (i, (left, expected)) in CHUNKS.iter().enumerate() {
        if !is_chunk(read_chunk(reader, &mut buffer, *left), *expected)
            || !is_after(reader, i + 1, expected.is_err())
        {
            return Some(i);
        }
    }
    None
}

/// After a flush that fails the stream is left alone.
fn is_left_alone(works: &mut Watch<Scripted<'_>>) -> bool {
    let first = flush_unless_failed(works) && is_after(works, 1, false);
    let second = !flush_unless_failed(works) && is_after(works, 2, true);
    first && second && !flush_unless_failed(works) && is_after(works, 2, true)
}

#[test]
fn streams_are_watched(rt: HostRuntime) {
    let holds = [
        !watched(&READS).failed(),
        first_unlike_read(&mut watched(&READS)).is_none(),
        !watched(&WRITES).failed(),
        first_unlike_write(&mut watched(&WRITES)).is_none(),
        first_unlike_flush(&mut watched(&FLUSHES)).is_none(),
        // what waits for a flush is known
        !watched(&WRITTEN_AND_FLUSHED).unflushed(),
        first_unlike_waiting(&mut watched(&WRITTEN_AND_FLUSHED)).is_none(),
        // texts are put whole, and flushed
        puts_ten(&TAKEN, 4, Ok(())),
        puts_ten(&CUT_OFF, 2, Err(WriteFault { written: 3 })),
        puts_ten(&[], 1, Err(WriteFault { written: 0 })),
        flushes_ten(&TAKEN, 5, true),
        flushes_ten(&CUT_OFF, 2, false),
        flushes_ten(&UNFLUSHED, 2, false),
        is_left_alone(&mut watched(&FLUSHES)),
        // chunks end at the limit
        first_unlike_chunk(&mut watched(&OFFERED)).is_none(),
    ];
    expect_none(&rt, first_false(&holds));
}
