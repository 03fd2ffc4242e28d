//! What is recorded of whole captures.

use dgt_vectors::bytes::Bytes;
use dgt_vectors::recording::{Recording, recorded, report_of};
use dgt_vectors::row::Row;
use dgt_vectors::texts::NO_MOVE;
use std::alloc::Global;

/// The text of a game from the initial position without a move.
pub fn text_without_move() -> Bytes {
    NO_MOVE.bytes()
}

/// The result, and what the board's stream and the output show, are what the row says.
pub fn is_told(got: &Recording, row: &Row<'_>) -> bool {
    got.answer == Ok(report_of(row.report))
        && got.board_shown.get() == row.sent().get()
        && got.text_shown.get() == row.text().get()
}

/// What is recorded of a row's capture is what the row says, with so many bytes a read.
pub fn row_holds(alloc: Global, row: &Row<'_>, chunk: usize) -> bool {
    match recorded(alloc, row, row.bytes().get(), chunk) {
        Ok(got) => is_told(&got, row),
        Err(_) => false,
    }
}

/// How many bytes come with a read where the row doesn't hold.
pub fn chunk_failing(alloc: Global, row: &Row<'_>) -> Option<usize> {
    for chunk in [1, 2, 7, 4096] {
        if !row_holds(alloc, row, chunk) {
            return Some(chunk);
        }
    }
    None
}
