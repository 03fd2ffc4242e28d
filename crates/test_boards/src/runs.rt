//! Masks with their times, and what follows from them, worked by hand: since when each square is in the masks, which
//! have been in them for ten seconds, and when the next one will have been.

use crate::coded_frames::expect_none;
use square_runs::{Runs, sooner};

const SPAN: u64 = 10_000;

/// The squares e2, e4 and d5, counted from a8.
const E2: u64 = 1 << 52;

const E4: u64 = 1 << 36;

const D5: u64 = 1 << 27;

/// e2 is lifted, its pawn is on its way and comes to e4; e2 is right again, and then d5 is not.
static MASKS: [(u64, u64); 4] = [(0, E2), (4_000, E2 | E4), (6_000, E4), (12_000, E4 | D5)];

/// When so many masks have come: a time; the squares that have been in them for ten seconds, and when the next one will
/// have been; since when any square is in them, and e4.
type Row = (usize, u64, u64, Option<u64>, Option<u64>, Option<u64>);

static ROWS: [Row; 11] = [
    (0, 50_000, 0, None, None, None),
    (1, 3_000, 0, Some(10_000), Some(0), None),
    (2, 9_999, 0, Some(10_000), Some(0), Some(4_000)),
    (2, 10_000, E2, Some(14_000), Some(0), Some(4_000)),
    (2, 13_999, E2, Some(14_000), Some(0), Some(4_000)),
    (2, 14_000, E2 | E4, None, Some(0), Some(4_000)),
    (3, 10_000, 0, Some(14_000), Some(4_000), Some(4_000)),
    (3, 14_000, E4, None, Some(4_000), Some(4_000)),
    (4, 12_000, 0, Some(14_000), Some(4_000), Some(4_000)),
    (4, 21_999, E4, Some(22_000), Some(4_000), Some(4_000)),
    (4, 22_000, E4 | D5, None, Some(4_000), Some(4_000)),
];

fn runs_of(masks: &[(u64, u64)], most: usize) -> Runs {
    let mut runs = Runs::new();
    for (at, squares) in masks.iter().take(most) {
        runs.take(*at, *squares);
    }
    runs
}

fn is_right(row: &Row) -> bool {
    let (masks, now, lasting, due, since, since_e4) = *row;
    let runs = runs_of(&MASKS, masks);
    runs.lasting(SPAN, now) == lasting
        && runs.due(SPAN, now) == due
        && runs.since(!0) == since
        && runs.since(E4) == since_e4
}

/// The number of the first row whose masks give something else.
fn first_unlike() -> Option<usize> {
    for (i, row) in ROWS.iter().enumerate() {
        if !is_right(row) {
            return Some(i);
        }
    }
    None
}

fn a_break_of_no_time_is_one() -> bool {
    let runs = runs_of(&[(1_000, E2), (5_000, 0), (5_000, E2)], 3);
    runs.since(E2) == Some(5_000) && runs.lasting(SPAN, 14_999) == 0
}

fn the_end_of_time_does_not_come() -> bool {
    let late = u64::MAX - 3;
    let due = runs_of(&[(late, E2)], 1).due(SPAN, late);
    sooner(Some(7), SPAN, 5, Some(late)) == Some(7) && due.is_none()
}

#[test]
fn runs_follow_from_the_masks(rt: HostRuntime) {
    expect_none(&rt, first_unlike());
    assert!(rt; a_break_of_no_time_is_one() && the_end_of_time_does_not_come());
}
