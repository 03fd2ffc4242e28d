//! Captures that go back, with the new ones worked by hand: a ply is shown by a time message with its clock and a dump; a
//! time message is the identifier 0x8D, the length 10, for each side its hours, and in two digits its minutes and its
//! seconds, and the status, 0x20 where no clock is connected.

use crate::coded_frames::{expect_none, first_false};
use board_captures::Method;
use chess_rules::Position;
use dgt_frame::First;
use dgt_vectors::captures::Signal::{Dump, Raw, Time};
use dgt_vectors::captures::{INITIAL, Signal, bytes_of};
use going_back::{Answer, BackError, back_to};
use settle_core::Outcome;
use std::alloc::Global;

const E4: &str = "rnbqkbnr/pppppppp/8/8/4P3/8/PPPP1PPP/RNBQKBNR";

const E4_E5: &str = "rnbqkbnr/pppp1ppp/8/4p3/4P3/8/PPPP1PPP/RNBQKBNR";

/// Both kings on light squares of the centre: White wins.
const KINGS: &str = "rnbq1bnr/pppppppp/8/3k4/4K3/8/PPPPPPPP/RNBQ1BNR";

const AT_29_50: Signal<'static> = Time([0x01, 0x29, 0x50, 0x01, 0x30, 0x00, 0x01]);

const AT_29_40: Signal<'static> = Time([0x01, 0x29, 0x50, 0x01, 0x29, 0x40, 0x01]);

const NO_CLOCK: Signal<'static> = Time([0x00, 0x00, 0x00, 0x00, 0x00, 0x00, 0x20]);

fn name_of(error: BackError) -> &'static str {
    match error {
        BackError::Unseen => "unseen",
        BackError::Ended(_) => "ended",
        BackError::Signed(_) => "signed",
        BackError::Moved(_) => "moved",
        BackError::Board => "board",
        BackError::TooLong => "too long",
        BackError::Memory => "memory",
    }
}

/// A board that stands with White at the bottom, from the initial position.
fn method_of(recovers: bool) -> Method {
    Method {
        start: Position::initial(),
        first: First::White,
        rotated: false,
        recovers,
    }
}

/// What is answered: `made`, where the new capture is these signals.
fn told_of(answer: &Answer, signals: &[Signal<'_>]) -> &'static str {
    match answer {
        Answer::Back { made, .. } => {
            if made.as_slice() == bytes_of(signals).get() {
                "made"
            } else {
                "another"
            }
        }
        Answer::Unnamed { .. } => "unnamed",
        Answer::Refused { error, .. } => name_of(*error),
    }
}

/// What becomes of a capture that goes back to this.
fn back_of(
    alloc: Global,
    recovers: bool,
    capture: &[Signal<'_>],
    to: &str,
    signals: &[Signal<'_>],
) -> &'static str {
    match back_to(
        alloc,
        &method_of(recovers),
        bytes_of(capture).get(),
        to.as_bytes(),
    ) {
        Ok(answer) => told_of(&answer, signals),
        Err(_) => "unread",
    }
}

/// How many plies stay and go, and the result before; or the number of the ply that is near, and 0.
fn numbers_of(
    alloc: Global,
    capture: &[Signal<'_>],
    to: &str,
) -> Option<(usize, usize, Option<Outcome>)> {
    let method = method_of(false);
    let Ok(answer) = back_to(alloc, &method, bytes_of(capture).get(), to.as_bytes()) else {
        return None;
    };
    match answer {
        Answer::Back {
            stays,
            gone,
            result,
            ..
        } => Some((stays, gone, result)),
        Answer::Unnamed { nearest } => Some((nearest?, 0, None)),
        Answer::Refused { .. } => None,
    }
}

/// A text, and what becomes of a capture that goes back to it.
type Back<'a> = (&'a str, &'a str);

/// The number of the first text of which something else becomes, by itself or with pairs put in.
fn first_unlike(
    alloc: Global,
    capture: &[Signal<'_>],
    made: &[Signal<'_>],
    rows: &[Back<'_>],
) -> Option<usize> {
    for (i, (to, told)) in rows.iter().enumerate() {
        let alone = back_of(alloc, false, capture, to, made) == *told;
        if !alone || back_of(alloc, true, capture, to, made) != *told {
            return Some(i);
        }
    }
    None
}

static PLAYED_ON: [Signal<'static>; 6] = [
    Dump(INITIAL),
    AT_29_50,
    Dump(E4),
    AT_29_40,
    Dump(E4_E5),
    Dump(E4),
];

static ONE_PLY: [Signal<'static>; 5] = [
    Dump(INITIAL),
    Time([0x01, 0x29, 0x50, 0x01, 0x29, 0x50, 0x00]),
    Dump(E4),
    Time([0x01, 0x29, 0x50, 0x01, 0x29, 0x40, 0x00]),
    Dump(E4),
];

/// Plies go where the board shows them no more. What it shows at last is 1. e4.
static TO_ONE_PLY: [Back<'static>; 11] = [
    ("", "made"),
    ("1", "made"),
    ("1.", "made"),
    ("1. e4", "made"),
    ("1. e4+", "made"),
    ("2.", "unnamed"),
    ("1. d4", "unnamed"),
    ("3", "unnamed"),
    ("e4", "unnamed"),
    ("1... e4", "unnamed"),
    ("0", "moved"),
];

/// What the board still shows comes back.
static STILL_SHOWN: [Back<'static>; 2] = [("", "moved"), ("1. e4", "moved")];

#[test]
fn captures_go_back(rt: HostRuntime) {
    let alloc = rt.alloc();
    let played = [Dump(INITIAL), Dump(E4), Dump(E4_E5)];
    let ended = [Dump(INITIAL), Dump(KINGS)];
    let trusted = [Dump(INITIAL), Dump(KINGS), Dump(INITIAL)];
    let without = [NO_CLOCK, Dump(INITIAL)];
    let lost = [Dump(INITIAL), Dump(KINGS), Dump(INITIAL), Raw(&[0x00])];
    let still_lost = [NO_CLOCK, Dump(INITIAL), Raw(&[0x00])];
    let two = [Dump(INITIAL), Dump(E4), Dump(E4_E5), Dump(E4)];
    let won = Some(Outcome::WhiteWins);
    let holds = [
        first_unlike(alloc, &PLAYED_ON, &ONE_PLY, &TO_ONE_PLY).is_none(),
        first_unlike(alloc, &played, &[], &STILL_SHOWN).is_none(),
        first_unlike(alloc, &ended, &[], &[("*", "signed")]).is_none(),
        first_unlike(alloc, &[], &[], &[("*", "unseen")]).is_none(),
        // a result goes, and updates count as before
        first_unlike(alloc, &trusted, &without, &[("*", "made")]).is_none(),
        first_unlike(alloc, &lost, &still_lost, &[("*", "made")]).is_none(),
        // what stays and goes is told
        numbers_of(alloc, &two, "") == Some((1, 1, None)),
        numbers_of(alloc, &two, "2. d4") == Some((2, 0, None)),
        numbers_of(alloc, &trusted, "*") == Some((0, 0, won)),
        numbers_of(alloc, &trusted, "").is_none(),
    ];
    expect_none(&rt, first_false(&holds));
}
