//! Recordings over streams in memory.

use crate::bytes::Bytes;
use crate::row::Row;
use crate::streams::{Sink, Source};
use board_events::Setup;
use board_session::{RecordError, Report, record};
use chess_game::Tags;
use chess_rules::Position;
use chess_text::{FenError, read_fen};
use std::alloc::Global;
use watched_streams::Watch;

pub fn start_of(row: &Row<'_>) -> Result<Position, FenError> {
    if row.start.is_empty() {
        Ok(Position::initial())
    } else {
        read_fen(row.start.as_bytes())
    }
}

fn setup_of(alloc: Global, row: &Row<'_>) -> Result<Setup, FenError> {
    let start = start_of(row)?;
    Ok(Setup {
        start,
        first: row.first,
        rotated: row.rotated,
        tags: Tags::new(alloc),
    })
}

/// The result of a recording, and what the board's stream and the output then show and hold.
#[derive(Drop)]
pub struct Recording {
    pub answer: Result<Report, RecordError>,
    pub board_shown: Bytes,
    pub text_shown: Bytes,
    pub board_held: Bytes,
    pub text_held: Bytes,
    /// So many of the like bytes at the end weren't read.
    pub unread: u32,
}

/// Records over these streams, set up as a row says.
pub fn recorded_over(
    alloc: Global,
    row: &Row<'_>,
    source: Source<'_>,
    board: Sink,
    out: Sink,
) -> Result<Recording, FenError> {
    let setup = setup_of(alloc, row)?;
    let mut reader = Watch::new(source);
    let mut board = Watch::new(board);
    let mut out = Watch::new(out);
    let answer = record(alloc, setup, &mut reader, &mut board, &mut out);
    Ok(Recording {
        answer,
        board_shown: Bytes::of(&[board.inner().shown()]),
        text_shown: Bytes::of(&[out.inner().shown()]),
        board_held: Bytes::of(&[board.inner().held()]),
        text_held: Bytes::of(&[out.inner().held()]),
        unread: reader.inner().left(),
    })
}

/// Records these bytes over streams that don't fail, with so many bytes a read.
pub fn recorded(
    alloc: Global,
    row: &Row<'_>,
    bytes: &[u8],
    chunk: usize,
) -> Result<Recording, FenError> {
    let source = Source::new(bytes).in_chunks(chunk);
    recorded_over(alloc, row, source, Sink::new(512), Sink::new(512))
}

pub fn report_of(numbers: (u32, u32, u32, u16)) -> Report {
    let (messages, faults, moves, rest) = numbers;
    Report {
        messages,
        faults,
        moves,
        rest,
    }
}
