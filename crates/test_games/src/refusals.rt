//! Streams that fail at each call in turn: what was taken before stands, and the result says which stream it was.

use crate::games::{expect_none, first_false};
use crate::recordings::{is_told, text_without_move};
use board_session::RecordError;
use dgt_vectors::recording::{Recording, recorded_over};
use dgt_vectors::row::{CUT, OPENING, Row, commands};
use dgt_vectors::streams::{ALWAYS, Sink, Source};
use std::alloc::Global;

const ROOM: usize = 512;

/// How far the streams of a recording work.
#[derive(Clone, Copy)]
struct Streams {
    /// So many bytes come with a read.
    chunk: usize,
    /// So many reads succeed.
    reads: u32,
    /// So many bytes find room in the board's stream, and so many calls on it succeed.
    board_room: usize,
    board_calls: u32,
    /// The same of the output.
    out_room: usize,
    out_calls: u32,
}

const WORKING: Streams = Streams {
    chunk: ROOM,
    reads: ALWAYS,
    board_room: ROOM,
    board_calls: ALWAYS,
    out_room: ROOM,
    out_calls: ALWAYS,
};

/// Records a row's capture over these streams. None is for a start that isn't read.
fn recording(alloc: Global, row: &Row<'_>, streams: Streams) -> Option<Recording> {
    let bytes = row.bytes();
    let source = Source::new(bytes.get())
        .in_chunks(streams.chunk)
        .failing_after(streams.reads);
    let board = Sink::new(streams.board_room).failing_after(streams.board_calls);
    let out = Sink::new(streams.out_room).failing_after(streams.out_calls);
    match recorded_over(alloc, row, source, board, out) {
        Ok(got) => Some(got),
        Err(_) => None,
    }
}

fn is_front(front: &[u8], whole: &[u8]) -> bool {
    match whole.get(..front.len()) {
        Some(other) => front == other,
        None => false,
    }
}

/// The recording was refused for this, and these bytes show.
fn shows(got: &Recording, fault: RecordError, board: &[u8], text: &[u8]) -> bool {
    got.answer == Err(fault) && got.board_shown.get() == board && got.text_shown.get() == text
}

/// As many bytes as each read gives where reads fail.
const CHUNK: usize = 7;

/// The reads of 138 bytes: those that give bytes, and one that gives none.
const READS: u32 = 21;

/// A recording whose read fails after so many has the text and the commands of the bytes before it.
fn stops_at_read(alloc: Global, row: &Row<'_>, reads: u32) -> bool {
    let streams = Streams {
        chunk: CHUNK,
        reads,
        ..WORKING
    };
    let read = (reads as usize).saturating_mul(CHUNK);
    // The fault stands at the byte with offset 71, and the move at that with offset 137.
    let faults = if read > 71 { 1 } else { 0 };
    let text = if read > 137 {
        row.text()
    } else {
        text_without_move()
    };
    match recording(alloc, row, streams) {
        Some(got) => shows(&got, RecordError::Read, commands(faults).get(), text.get()),
        None => false,
    }
}

/// A row is recorded over these streams as it says.
fn is_recorded(alloc: Global, row: &Row<'_>, streams: Streams) -> bool {
    match recording(alloc, row, streams) {
        Some(got) => is_told(&got, row),
        None => false,
    }
}

/// Where no read fails, a row of 138 bytes is recorded as it says.
fn is_read_whole(alloc: Global, row: &Row<'_>) -> bool {
    let streams = Streams {
        chunk: CHUNK,
        reads: READS,
        ..WORKING
    };
    row.bytes().len() == 138 && is_recorded(alloc, row, streams)
}

/// The number of reads after which one fails and it isn't told so; `READS` where none fails and the row isn't recorded
/// whole.
fn first_read_untold(alloc: Global, row: &Row<'_>) -> Option<u32> {
    for reads in 0..READS {
        if !stops_at_read(alloc, row, reads) {
            return Some(reads);
        }
    }
    if is_read_whole(alloc, row) {
        None
    } else {
        Some(READS)
    }
}

/// How many calls on the board's stream succeed, what it then holds, and what of it shows.
static BOARD_CALLS: [(u32, &[u8], &[u8]); 4] = [
    (0, &[], &[]),
    (1, &[0x42, 0x4B], &[]),
    (2, &[0x42, 0x4B], &[0x42, 0x4B]),
    (3, &[0x42, 0x4B, 0x42], &[0x42, 0x4B]),
];

/// A recording whose board fails so leaves the text without a move.
fn stops_at_board(
    alloc: Global,
    row: &Row<'_>,
    streams: Streams,
    held: &[u8],
    shown: &[u8],
) -> bool {
    match recording(alloc, row, streams) {
        Some(got) => got.board_held.get() == held
            && shows(&got, RecordError::Board, shown, text_without_move().get()),
        None => false,
    }
}

/// The number of calls after which one on the board's stream fails and it isn't told so.
fn first_board_call_untold(alloc: Global, row: &Row<'_>) -> Option<u32> {
    for (board_calls, held, shown) in &BOARD_CALLS {
        let streams = Streams {
            board_calls: *board_calls,
            ..WORKING
        };
        if !stops_at_board(alloc, row, streams, held, shown) {
            return Some(*board_calls);
        }
    }
    None
}

/// What an output leaves on which so many calls succeed.
#[derive(Clone, Copy)]
enum Written {
    /// All, and it shows.
    Whole,
    /// So many bytes, which are the front of the text, and none shows.
    Front(usize),
    /// Anything else.
    Other,
}

fn written_of(got: &Recording, text: &[u8]) -> Written {
    if got.answer.is_ok() {
        if got.text_shown.get() == text {
            return Written::Whole;
        }
        return Written::Other;
    }
    let refused = got.answer == Err(RecordError::Write);
    if refused && is_front(got.text_held.get(), text) && got.text_shown.get().is_empty() {
        Written::Front(got.text_held.len())
    } else {
        Written::Other
    }
}

fn written_after(alloc: Global, row: &Row<'_>, out_calls: u32) -> Written {
    let streams = Streams {
        out_calls,
        ..WORKING
    };
    match recording(alloc, row, streams) {
        Some(got) => written_of(&got, row.text().get()),
        None => Written::Other,
    }
}

/// How many bytes are held where the last call fails, each call having failed in turn; or the first number of calls
/// with another result.
fn held_before_last_call(alloc: Global, row: &Row<'_>) -> Result<usize, u32> {
    let mut held = 0;
    for calls in 0..1000 {
        match written_after(alloc, row, calls) {
            Written::Whole => return Ok(held),
            Written::Front(len) => held = len,
            Written::Other => return Err(calls),
        }
    }
    Err(1000)
}

/// Whether the whole text is held there.
fn all_is_held_before_last_call(alloc: Global, row: &Row<'_>) -> Result<bool, u32> {
    let held = held_before_last_call(alloc, row)?;
    Ok(held == row.text().len())
}

/// An output that takes so many bytes has these.
fn fills(alloc: Global, row: &Row<'_>, reads: u32, out_room: usize) -> bool {
    let streams = Streams {
        reads,
        out_room,
        ..WORKING
    };
    match recording(alloc, row, streams) {
        Some(got) => got.answer == Err(RecordError::Write)
            && got.text_held.get() == row.text().front(out_room),
        None => false,
    }
}

/// The room for which an output that fills has something else.
fn first_room_untold(alloc: Global, row: &Row<'_>, reads: u32) -> Option<usize> {
    for room in 0..row.text().len() {
        if !fills(alloc, row, reads, room) {
            return Some(room);
        }
    }
    None
}

/// The number of the row, and the room, where the second read fails or none does.
fn first_front_untold(alloc: Global, rows: &[&Row<'_>]) -> Option<(usize, usize)> {
    for (number, row) in rows.iter().enumerate() {
        for reads in [1, ALWAYS] {
            if let Some(room) = first_room_untold(alloc, row, reads) {
                return Some((number, room));
            }
        }
    }
    None
}

/// The first ten bytes of 1. e4, as they stand in a file.
fn ten_bytes_are_known() -> bool {
    OPENING.text().front(10) == b"[Event \"?\"".as_slice()
}

/// A recording whose reading fails has the whole text of the row, and the board no more than its commands.
fn stops_with_text(alloc: Global, row: &Row<'_>, streams: Streams) -> bool {
    match recording(alloc, row, streams) {
        Some(got) => shows(&got, RecordError::Read, row.sent().get(), row.text().get()),
        None => false,
    }
}

/// With so much room in the board's stream, these bytes stand in it, and none is asked for afterwards.
fn fills_board(alloc: Global, row: &Row<'_>, board_room: usize, sent: &[u8]) -> bool {
    let streams = Streams {
        board_room,
        ..WORKING
    };
    stops_at_board(alloc, row, streams, sent, sent)
}

/// A board that takes nothing; and one that takes the two commands at the start, and not the request for a dump.
fn boards_fill(alloc: Global) -> bool {
    fills_board(alloc, &OPENING, 0, &[]) && fills_board(alloc, &CUT, 2, &[0x42, 0x4B])
}

#[test]
fn streams_fail_at_each_call_in_turn(rt: HostRuntime) {
    let alloc = rt.alloc();
    let four_calls = Streams {
        board_calls: 4,
        ..WORKING
    };
    let one_read = Streams {
        reads: 1,
        ..WORKING
    };
    let holds = [
        // with a read that fails the text is that of the bytes before it
        first_read_untold(alloc, &CUT).is_none(),
        // the board's stream is written and flushed twice; after a failure nothing more is sent, and the text is that of the
        // events up to the one that asked
        first_board_call_untold(alloc, &CUT).is_none(),
        is_recorded(alloc, &CUT, four_calls),
        // the output fails at each write and at the flush: a part of the text stands, and only a flush shows it; the last call
        // is the flush: all was written before it, and nothing showed
        all_is_held_before_last_call(alloc, &CUT) == Ok(true),
        // an output that takes so many bytes has these, whether or not the reading ended well
        first_front_untold(alloc, &[&CUT, &OPENING]).is_none(),
        ten_bytes_are_known(),
        // a failed output outweighs a failed reading
        fills(alloc, &CUT, 0, 0),
        // what was taken before a failed read is written
        stops_with_text(alloc, &OPENING, one_read),
        boards_fill(alloc),
    ];
    expect_none(&rt, first_false(&holds));
}
