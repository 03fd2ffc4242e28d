//! Files of times: what is read of them, and whether they belong to a capture. The digest of no byte is the start of FNV-1a;
//! those of `a` and `foobar` are in its authors' list.

use crate::coded_frames::{expect_none, first_false};
use board_times::{Fit, Found, Kept, digest, event_text, fit_of, heading_text, read_times};
use std::alloc::{AllocError, Global};

static DIGESTS: [(&str, u64); 3] = [
    ("", 0xcbf2_9ce4_8422_2325),
    ("a", 0xaf63_dc4c_8601_ec8c),
    ("foobar", 0x8594_4171_f739_67e8),
];

/// A file, and what stands in it: `missing`, `unreadable`, `newer` or `times`; how many events, and how many bytes behind them.
static FILES: [(&str, &str, usize, usize); 19] = [
    ("", "missing", 0, 0),
    ("1", "unreadable", 0, 0),
    ("1 times 0", "unreadable", 0, 0),
    ("1 times 0\n", "unreadable", 0, 0),
    (
        "1 times 0\n1 digest 12638187200555641996",
        "unreadable",
        0,
        0,
    ),
    ("0 begin 1\n5 opened\n", "unreadable", 0, 0),
    ("2 times 0\nwhatever", "newer", 0, 0),
    ("1 times 0\n1 digest 12638187200555641996\n", "times", 0, 0),
    (
        "1 times 0\n1 digest 12638187200555641996\n0 begin 1\n5 opened\n12 heard 67\n",
        "times",
        3,
        0,
    ),
    (
        "1 times 0\n1 digest 12638187200555641996\n0 begin 1\n5 ok\n6 back\n7 suspect 3\n",
        "times",
        4,
        0,
    ),
    (
        "1 times 0\n1 digest 12638187200555641996\n0 begin 1\n5 ok\n6 suspect\n",
        "times",
        2,
        10,
    ),
    (
        "1 times 0\n1 digest 12638187200555641996\n0 begin 1\n5 over 1\n6 reopened\n",
        "times",
        3,
        0,
    ),
    (
        "1 times 0\n1 digest 12638187200555641996\n0 begin 1\n5 ok\n6 reopened 1\n",
        "times",
        2,
        13,
    ),
    (
        "1 times 0\n1 digest 12638187200555641996\n0 begin 1\n5 opened\n12 heard 6",
        "times",
        2,
        10,
    ),
    (
        "1 times 0\n1 digest 12638187200555641996\n0 begin 1\n5 opened 1\n12 heard 6\n",
        "times",
        1,
        22,
    ),
    (
        "1 times 0\n1 digest 12638187200555641996\n0 begin 1\n05 opened\n",
        "times",
        1,
        10,
    ),
    (
        "1 times 0\n1 digest 12638187200555641996\n0 begin 1\n5 flown\n",
        "times",
        1,
        8,
    ),
    (
        "1 times 0\n1 digest 12638187200555641996\n0 begin 18446744073709551616\n",
        "times",
        0,
        29,
    ),
    (
        "1 times 3\n1 digest 12638187200555641996\n0 begin 1\n0 away 35000\n5 opened\n5 asked 3\n12 heard 67\n40 answered\n900 gone\n900 called\n1600 added 67\n1650 brought 67\n1700 took\n1800 stopped 35000\n9000 over 202\n",
        "times",
        13,
        0,
    ),
];

/// A file and a capture, and how they fit.
static FITS: [(&str, &str, &str, u64); 8] = [
    (
        "1 times 0\n1 digest 12638187200555641996\n0 begin 1\n",
        "a",
        "whole",
        0,
    ),
    (
        "1 times 0\n1 digest 12638187200555641996\n0 begin 1\n5 heard 5\n",
        "aoobar",
        "whole",
        0,
    ),
    (
        "1 times 0\n1 digest 12638187200555641996\n0 begin 1\n5 heard 2\n6 added 1\n",
        "aoobar",
        "short",
        2,
    ),
    (
        "1 times 0\n1 digest 12638187200555641996\n0 begin 1\n5 heard 2\n6 brought 1\n7 added 2\n",
        "aoobar",
        "whole",
        0,
    ),
    (
        "1 times 0\n1 digest 12638187200555641996\n0 begin 1\n5 heard 9\n",
        "aoobar",
        "long",
        4,
    ),
    (
        "1 times 0\n1 digest 12638187200555641996\n0 begin 1\n5 heard 9\n0 begin 6\n",
        "aoobar",
        "whole",
        0,
    ),
    (
        "1 times 0\n1 digest 12638187200555641996\n0 begin 1\n",
        "b",
        "another",
        0,
    ),
    (
        "1 times 0\n1 digest 12638187200555641996\n0 begin 1\n",
        "",
        "another",
        0,
    ),
];

fn name_of(found: &Found) -> (&'static str, usize, usize) {
    match found {
        Found::Missing => ("missing", 0, 0),
        Found::Unreadable => ("unreadable", 0, 0),
        Found::Newer(_) => ("newer", 0, 0),
        Found::Times(kept) => ("times", kept.events.len(), kept.rest),
    }
}

fn is_found(alloc: Global, row: &(&str, &str, usize, usize)) -> bool {
    match read_times(alloc, row.0.as_bytes()) {
        Err(_) => false,
        Ok(found) => {
            let (name, events, rest) = name_of(&found);
            name == row.1 && events == row.2 && rest == row.3
        }
    }
}

/// Whether the lines of what was read are the file's.
fn is_written_again(alloc: Global, text: &str) -> bool {
    let Ok(Found::Times(kept)) = read_times(alloc, text.as_bytes()) else {
        return false;
    };
    match written(alloc, &kept) {
        Ok(again) => again.as_slice() == text.as_bytes(),
        Err(_) => false,
    }
}

fn written(alloc: Global, kept: &Kept) -> Result<Vec<u8>, AllocError> {
    let mut text = heading_text(alloc, kept.heading)?;
    for event in &kept.events {
        let line = event_text(alloc, *event)?;
        text.extend_from_slice(line.as_slice())?;
    }
    Ok(text)
}

fn fit_name(fit: Fit) -> (&'static str, u64) {
    match fit {
        Fit::Another => ("another", 0),
        Fit::Whole => ("whole", 0),
        Fit::Short(count) => ("short", count),
        Fit::Long(count) => ("long", count),
    }
}

fn does_fit(alloc: Global, row: &(&str, &str, &str, u64)) -> bool {
    match read_times(alloc, row.0.as_bytes()) {
        Ok(Found::Times(kept)) => {
            let (name, count) = fit_name(fit_of(&kept, row.1.as_bytes()));
            name == row.2 && count == row.3
        }
        _ => false,
    }
}

/// The number of the first file of which something else is read.
fn first_unlike(alloc: Global) -> Option<usize> {
    for (i, row) in FILES.iter().enumerate() {
        if !is_found(alloc, row) {
            return Some(i);
        }
    }
    None
}

/// The number of the first file that fits otherwise.
fn first_misfit(alloc: Global) -> Option<usize> {
    for (i, row) in FITS.iter().enumerate() {
        if !does_fit(alloc, row) {
            return Some(i);
        }
    }
    None
}

/// The number of the first text with another digest.
fn first_other_digest() -> Option<usize> {
    for (i, (text, value)) in DIGESTS.iter().enumerate() {
        if digest(text.as_bytes()) != *value {
            return Some(i);
        }
    }
    None
}

#[test]
fn files_are_read_and_fit_their_captures(rt: HostRuntime) {
    let holds = [
        first_unlike(rt.alloc()).is_none(),
        is_written_again(rt.alloc(), FILES[18].0),
        first_misfit(rt.alloc()).is_none(),
        first_other_digest().is_none(),
    ];
    expect_none(&rt, first_false(&holds));
}
