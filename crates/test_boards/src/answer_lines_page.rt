//! The example on the page of `answer_lines`.

use answer_lines::{Said, add_answer};
use board_cable::{Handling, Request};
use board_standing::{Kind, State};
use std::alloc::{AllocError, Global};

/// What came is kept, the board is asked, and two squares are wrong since the time 32,000.
fn answer(alloc: Global) -> Result<Vec<u8>, AllocError> {
    let state = State {
        kind: Kind::Wrong,
        since: Some(32_000),
        squares: 1 << 27 | 1 << 52,
        hint: None,
    };
    let said = Said {
        handling: Some(Handling::Keep),
        number: None,
        request: Some(Request::Dump),
        is_whole: true,
        is_clock_stopped: None,
        state: Some(state),
        due: Some(42_200),
    };
    let mut lines = Vec::new(alloc);
    add_answer(alloc, said, &mut lines)?;
    Ok(lines)
}

#[test]
fn two_squares_are_wrong(rt: HostRuntime) {
    let lines = b"keep\nask B\nstate WRONG 32000 d5 e2\ndone 42200\n";
    assert!(rt; matches!(answer(rt.alloc()), Ok(text) if text.as_slice() == lines.as_slice()));
}
