//! What holds of each capture with what is recorded of it.

use crate::broken_input::{cut_failing, turned_bit_failing};
use crate::decoding::agrees;
use crate::games::first_false;
use crate::recordings::chunk_failing;
use crate::settling::settling_failing;
use dgt_vectors::row::Row;
use dgt_vectors::rows::rows_by_subject;
use std::alloc::Global;

/// The number of what doesn't hold of a row: what is recorded is what the row says, however many bytes a read gives; the decoder
/// agrees with the slow reading; the session and the recording agree with the slow settler; a cut capture has the front of the
/// game; a turned bit refuses nothing.
fn first_untrue(alloc: Global, row: &Row<'_>) -> Option<usize> {
    first_false(&[
        chunk_failing(alloc, row).is_none(),
        agrees(row.bytes().get()),
        settling_failing(alloc, row).is_none(),
        cut_failing(alloc, row).is_none(),
        turned_bit_failing(alloc, row).is_none(),
    ])
}

/// The name of the first row of which something doesn't hold, and the number of that.
fn first_failing<'a>(alloc: Global, rows: &[Row<'a>]) -> Option<(&'a str, usize)> {
    for row in rows {
        if let Some(number) = first_untrue(alloc, row) {
            return Some((row.name, number));
        }
    }
    None
}

#[test]
fn captures_hold(rt: HostRuntime) {
    for rows in rows_by_subject() {
        assert_eq!(rt; first_failing(rt.alloc(), rows), None);
    }
}
