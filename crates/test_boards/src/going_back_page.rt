//! The example on the page of `going_back`.

use board_captures::{CaptureError, Method};
use going_back::tell_back;
use std::alloc::Global;

/// How many bytes a capture has without the last ply of its game; none if it can't be taken off.
fn size_without_last(
    alloc: Global,
    method: &Method,
    bytes: &[u8],
) -> Result<Option<usize>, CaptureError> {
    let told = tell_back(alloc, method, bytes, b"")?;
    match &told.made {
        Some(made) => Ok(Some(made.len())),
        None => Ok(None),
    }
}
