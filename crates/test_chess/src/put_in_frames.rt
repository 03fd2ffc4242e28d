//! The frames of 1. e4 e5, which no picture shows ply by ply, recovered with 2. Nf3.
//!
//! A time message is worked by hand from the protocol: the identifier 0x8D, the length 10, for each side its hours, and
//! in two digits its minutes and its seconds, and the status, 0x20 where no clock is connected.
ghost use Rattle.std.specs.Prelude.{All, ◌<◌};

use crate::dumps::{AFTER_E4, AFTER_E5, AFTER_NF3, TURNED_E4, TURNED_E5, TURNED_NF3};
use crate::known_positions::expect_none;
use crate::readings::{Clocks, reading_of};
use crate::shown_games::after_two;
use arrayvec::ArrayVec;
use chess_rules::Position;
use dgt_frame::First;
use pair_frames::{MOST, put_in};
use settle_core::Seen;
use std::alloc::{AllocError, Global};
use unseen_pairs::{Recoverer, Recovery, SeenOrRecovered};

/// How a board is read, its clocks, and what is put in.
#[derive(Clone, Copy)]
struct Case<'a> {
    first: First,
    rotated: bool,
    /// At the picture that the pair explains, and at the picture that confirms it.
    explained: Clocks,
    present: Clocks,
    /// The time messages before the pair's dumps, and before the present one, if there are any.
    before: &'a [u8],
    behind: &'a [u8],
    /// How many bytes all frames have.
    length: usize,
}

/// Without a clock the pair is three dumps.
const NO_CLOCK: Case<'static> = Case {
    first: First::White,
    rotated: false,
    explained: None,
    present: None,
    before: &[],
    behind: &[],
    length: 201,
};

static CASES: [Case<'static>; 7] = [
    NO_CLOCK,
    // a turned board has its fields in the other order
    Case {
        rotated: true,
        ..NO_CLOCK
    },
    // the same reading takes no time message
    Case {
        explained: Some([1, 29, 50, 1, 29, 59]),
        present: Some([1, 29, 50, 1, 29, 59]),
        ..NO_CLOCK
    },
    // the pair has its reading, and then the present one comes again
    Case {
        explained: Some([1, 29, 50, 1, 29, 59]),
        present: Some([1, 28, 7, 1, 29, 10]),
        before: &[0x8D, 0x00, 0x0A, 0x01, 0x29, 0x50, 0x01, 0x29, 0x59, 0x00],
        behind: &[0x8D, 0x00, 0x0A, 0x01, 0x28, 0x07, 0x01, 0x29, 0x10, 0x00],
        length: 221,
        ..NO_CLOCK
    },
    // Black's time comes first
    Case {
        first: First::Black,
        explained: Some([1, 29, 50, 1, 29, 59]),
        present: Some([1, 28, 7, 1, 29, 10]),
        before: &[0x8D, 0x00, 0x0A, 0x01, 0x29, 0x59, 0x01, 0x29, 0x50, 0x00],
        behind: &[0x8D, 0x00, 0x0A, 0x01, 0x29, 0x10, 0x01, 0x28, 0x07, 0x00],
        length: 221,
        ..NO_CLOCK
    },
    // a clock that comes is taken away for the pair
    Case {
        present: Some([1, 29, 50, 1, 29, 59]),
        before: &[0x8D, 0x00, 0x0A, 0, 0, 0, 0, 0, 0, 0x20],
        behind: &[0x8D, 0x00, 0x0A, 0x01, 0x29, 0x50, 0x01, 0x29, 0x59, 0x00],
        length: 221,
        ..NO_CLOCK
    },
    // the most bytes that are put in
    Case {
        first: First::Black,
        rotated: true,
        explained: Some([9, 59, 59, 0, 0, 0]),
        present: Some([9, 59, 58, 8, 7, 6]),
        before: &[0x8D, 0x00, 0x0A, 0x00, 0x00, 0x00, 0x09, 0x59, 0x59, 0x00],
        behind: &[0x8D, 0x00, 0x0A, 0x08, 0x07, 0x06, 0x09, 0x59, 0x58, 0x00],
        length: MOST,
    },
];

/// Whether the text begins with these parts, one after the other; and what is behind them.
fn behind<'a>(bytes: &'a [u8], parts: &[&[u8]]) -> Option<&'a [u8]> {
    let mut rest = bytes;
    for part in parts {
        rest = rest.strip_prefix(*part)?;
    }
    Some(rest)
}

/// What is behind the case's frames.
fn behind_frames<'a>(case: &Case<'_>, bytes: &'a [u8]) -> Option<&'a [u8]> {
    let dumps: [&[&[u8]]; 3] = if case.rotated {
        [&TURNED_E4, &TURNED_E5, &TURNED_NF3]
    } else {
        [&AFTER_E4, &AFTER_E5, &AFTER_NF3]
    };
    let [e4, e5, nf3] = dumps;
    let pair = behind(behind(bytes, &[case.before])?, e4)?;
    behind(behind(behind(pair, e5)?, &[case.behind])?, nf3)
}

/// Whether the case's frames are put in, and replace what is held.
fn puts_in(case: &Case<'_>, picture: &[u8; 64], found: &Recovery) -> bool
    requires { All (λ code. code < 16) picture.now }
{
    let reading = reading_of(case.present);
    let mut out = ArrayVec::new();
    for _ in 0..2 {
        put_in(case.first, case.rotated, picture, &reading, found, &mut out);
    }
    let is_whole = matches!(behind_frames(case, &out), Some([]));
    is_whole && out.len() == case.length
}

/// Whether 1. e4 e5 waits, and the frames are put in at 2. Nf3.
fn recovers(alloc: Global, recoverer: &mut Recoverer, case: &Case<'_>) -> Result<bool, AllocError> {
    let two = recoverer.see(alloc, &after_two(3, 0), reading_of(case.explained))?;
    let waits = matches!(two, SeenOrRecovered::Shown(Seen::Waits));
    let picture = after_two(0, 3);
    match recoverer.see(alloc, &picture, reading_of(case.present))? {
        SeenOrRecovered::Shown(_) => Ok(false),
        SeenOrRecovered::Recovered(found) => Ok(waits && puts_in(case, &picture, &found)),
    }
}

/// The number of the first case in which something else is put in.
fn first_unlike(alloc: Global) -> Option<usize> {
    for (i, case) in CASES.iter().enumerate() {
        let mut recoverer = Recoverer::new(alloc, Position::initial());
        if recovers(alloc, &mut recoverer, case) != Ok(true) {
            return Some(i);
        }
    }
    None
}

#[test]
fn frames_are_put_in(rt: HostRuntime) {
    expect_none(&rt, first_unlike(rt.alloc()));
}
