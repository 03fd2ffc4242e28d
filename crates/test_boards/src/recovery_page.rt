//! The example on the page of `recovery`.

use chess_rules::Position;
use dgt_frame::First;
use recovery::{RecoverError, recover_stream};
use std::alloc::Global;
use std::io::{Read, Write};
use watched_streams::Watch;

/// Gives on a board that stands as a game begins.
fn give_on<R: Read + Drop, O: Write + Drop, E: Write + Drop>(
    alloc: Global,
    reader: R,
    out: O,
    err: E,
) -> Result<(), RecoverError> {
    let (mut reader, mut out, mut err) = (Watch::new(reader), Watch::new(out), Watch::new(err));
    recover_stream(
        alloc,
        Position::initial(),
        First::White,
        false,
        &mut reader,
        &mut out,
        &mut err,
    )
}
