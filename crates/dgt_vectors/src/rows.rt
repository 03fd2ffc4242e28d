//! All rows.

use crate::message_rows::{BOARDS, CLOCKS, FAULTS, RESULTS};
use crate::move_rows::{LAST_MOVE_CLOSED, LAST_MOVE_OPEN, SETTLING, SPECIAL};
use crate::row::Row;

/// All rows, by subject.
pub fn rows_by_subject<'a>() -> [&'a [Row<'a>]; 8] {
    [
        &SETTLING,
        &SPECIAL,
        &FAULTS,
        &CLOCKS,
        &RESULTS,
        &BOARDS,
        &LAST_MOVE_OPEN,
        &LAST_MOVE_CLOSED,
    ]
}
