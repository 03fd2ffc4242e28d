//! The example on the page of `board_captures`.

use board_captures::{CaptureError, Method, read_capture};
use chess_rules::Position;
use dgt_frame::First;
use std::alloc::Global;

/// How many plies a capture has from the initial position.
fn count_plies(alloc: Global, bytes: &[u8]) -> Result<usize, CaptureError> {
    let method = Method {
        start: Position::initial(),
        first: First::White,
        rotated: false,
        recovers: false,
    };
    match read_capture(alloc, &method, bytes) {
        Ok(captured) => Ok(captured.session.settler().moves().len()),
        Err(error) => Err(error),
    }
}
