//! The example on the page of `adding`.

use adding::{Answer, add_line};
use board_captures::{CaptureError, Method};
use std::alloc::Global;

/// How many bytes a line adds to a capture, if it adds anything.
fn bytes_added(
    alloc: Global,
    method: &Method,
    capture: &[u8],
    line: &str,
) -> Result<usize, CaptureError> {
    match add_line(alloc, method, capture, line.as_bytes())? {
        Answer::Added(_, bytes) => Ok(bytes.len()),
        Answer::Refused(..) => Ok(0),
    }
}

/// What is added to a capture without bytes, of a board without a clock: each move takes a time message of 10 bytes and
/// a dump of 67, the sign a dump, and the board as it stands 78.
#[test]
fn a_move_and_a_result_are_added(rt: HostRuntime) {
    assert!(rt; adds(rt.alloc(), "1. e4", 155));
    assert!(rt; adds(rt.alloc(), "1/2", 145));
    assert!(rt; adds(rt.alloc(), "e5", 0));
}

/// Whether a line adds so many bytes to a capture without any.
fn adds(alloc: Global, line: &str, size: usize) -> bool {
    let method = Method {
        start: chess_rules::Position::initial(),
        first: dgt_frame::First::White,
        rotated: false,
        recovers: false,
    };
    match bytes_added(alloc, &method, &[], line) {
        Ok(bytes) => bytes == size,
        Err(_) => false,
    }
}
