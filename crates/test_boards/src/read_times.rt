//! Readings of time messages, worked by hand from the rules.

use crate::coded_frames::expect_none;
use chess_clock::{Hms, Reading};
use dgt_frame::{First, read_time};

/// Hours, minutes and seconds of White's clock, and then of Black's.
type Clocks = Option<[u8; 6]>;

fn reading_of(clocks: Clocks) -> Option<Reading> {
    let [h, m, s, hours, minutes, seconds] = clocks?;
    Some(Reading {
        white: hms(h, m, s)?,
        black: hms(hours, minutes, seconds)?,
    })
}

fn hms(hours: u8, minutes: u8, seconds: u8) -> Option<Hms> {
    if hours > 9 || minutes > 59 || seconds > 59 {
        return None;
    }
    Some(Hms {
        hours,
        minutes,
        seconds,
    })
}

fn clocks_of(reading: &Reading) -> [u8; 6] {
    let Reading { white, black } = reading;
    [
        white.hours,
        white.minutes,
        white.seconds,
        black.hours,
        black.minutes,
        black.seconds,
    ]
}

/// Whether a time message leaves these clocks, where those before it were these.
fn leaves(bytes: &[u8; 7], first: First, before: Clocks, after: Clocks) -> bool {
    match (read_time(bytes, first, reading_of(before)), after) {
        (Some(reading), Some(expected)) => clocks_of(&reading) == expected,
        (None, None) => true,
        _ => false,
    }
}

/// Clocks before a message.
const OLD: Clocks = Some([0, 5, 0, 0, 4, 59]);

const NEW: Clocks = Some([1, 30, 0, 1, 29, 59]);

const TURNED: Clocks = Some([1, 29, 59, 1, 30, 0]);

const LATEST: Clocks = Some([9, 59, 59, 0, 0, 0]);

/// The data of time messages, whose the first group is, and the clocks before and after.
static TIMES: [([u8; 7], First, Clocks, Clocks); 16] = [
    (
        [0x01, 0x30, 0x00, 0x01, 0x29, 0x59, 0x00],
        First::White,
        None,
        NEW,
    ),
    (
        [0x71, 0x30, 0x00, 0x01, 0x29, 0x59, 0x00],
        First::White,
        None,
        NEW,
    ),
    (
        [0x01, 0x30, 0x00, 0x01, 0x29, 0x59, 0x00],
        First::Black,
        OLD,
        TURNED,
    ),
    (
        [0x0B, 0x00, 0x00, 0x00, 0x00, 0x00, 0x00],
        First::White,
        None,
        None,
    ),
    // an acknowledgement, before the status is looked at
    (
        [0x0A, 0x00, 0x00, 0x00, 0x00, 0x00, 0x20],
        First::White,
        OLD,
        OLD,
    ),
    (
        [0x00, 0x00, 0x00, 0x7A, 0x00, 0x00, 0x00],
        First::White,
        OLD,
        OLD,
    ),
    // no clock, before the digits are looked at
    (
        [0x0B, 0x00, 0x00, 0x00, 0x00, 0x00, 0x20],
        First::White,
        OLD,
        None,
    ),
    (
        [0x01, 0x29, 0x50, 0x01, 0x29, 0x59, 0x20],
        First::White,
        OLD,
        None,
    ),
    // hours, tens and units at their ends and past them
    (
        [0x09, 0x59, 0x59, 0x00, 0x00, 0x00, 0x00],
        First::White,
        OLD,
        LATEST,
    ),
    (
        [0x00, 0x70, 0x00, 0x00, 0x30, 0x00, 0x00],
        First::White,
        OLD,
        OLD,
    ),
    (
        [0x00, 0x60, 0x00, 0x00, 0x00, 0x00, 0x00],
        First::White,
        OLD,
        OLD,
    ),
    (
        [0x00, 0x0A, 0x00, 0x00, 0x00, 0x00, 0x00],
        First::White,
        OLD,
        OLD,
    ),
    (
        [0x00, 0x00, 0x60, 0x00, 0x00, 0x00, 0x00],
        First::White,
        OLD,
        OLD,
    ),
    (
        [0x00, 0x00, 0x00, 0x0B, 0x00, 0x00, 0x00],
        First::White,
        OLD,
        OLD,
    ),
    (
        [0x00, 0x00, 0x00, 0x00, 0x00, 0x5A, 0x00],
        First::White,
        OLD,
        OLD,
    ),
    (
        [0x7F, 0x7F, 0x7F, 0x7F, 0x7F, 0x7F, 0x7F],
        First::White,
        OLD,
        None,
    ),
];

/// The number of the first row whose message leaves other clocks.
fn first_other_clocks() -> Option<usize> {
    for (i, (bytes, first, before, after)) in TIMES.iter().enumerate() {
        if !leaves(bytes, *first, *before, *after) {
            return Some(i);
        }
    }
    None
}

#[test]
fn times_are_read(rt: HostRuntime) {
    expect_none(&rt, first_other_clocks());
}
