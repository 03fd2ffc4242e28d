//! Captures whose games get other moves, with the new ones worked by hand: a ply is shown by a time message with its clock
//! and a dump.

use crate::coded_frames::{expect_none, first_false};
use board_captures::Method;
use chess_rules::Position;
use dgt_frame::First;
use dgt_vectors::captures::Signal::{Dump, Time};
use dgt_vectors::captures::{INITIAL, Signal, bytes_of};
use going_back::{Change, replace_by};
use std::alloc::Global;

const E4: &str = "rnbqkbnr/pppppppp/8/8/4P3/8/PPPP1PPP/RNBQKBNR";

const E4_E5: &str = "rnbqkbnr/pppp1ppp/8/4p3/4P3/8/PPPP1PPP/RNBQKBNR";

const E4_D5: &str = "rnbqkbnr/ppp1pppp/8/3p4/4P3/8/PPPP1PPP/RNBQKBNR";

/// After 1. e4 e5 2. Nf3.
const E4_E5_NF3: &str = "rnbqkbnr/pppp1ppp/8/4p3/4P3/5N2/PPPP1PPP/RNBQKB1R";

/// After 1. d4 e5.
const D4_E5: &str = "rnbqkbnr/pppp1ppp/8/4p3/3P4/8/PPP1PPPP/RNBQKBNR";

/// After 1. e4, both kings on light squares of the centre: White wins.
const KINGS: &str = "rnbq1bnr/pppppppp/8/3k4/4K3/8/PPPP1PPP/RNBQ1BNR";

const AT_29_50: Signal<'static> = Time([0x01, 0x29, 0x50, 0x01, 0x30, 0x00, 0x01]);

const AT_29_40: Signal<'static> = Time([0x01, 0x29, 0x50, 0x01, 0x29, 0x40, 0x01]);

const BOTH_29_50: Signal<'static> = Time([0x01, 0x29, 0x50, 0x01, 0x29, 0x50, 0x00]);

const STILL_29_40: Signal<'static> = Time([0x01, 0x29, 0x50, 0x01, 0x29, 0x40, 0x00]);

const NO_CLOCK: Signal<'static> = Time([0x00, 0x00, 0x00, 0x00, 0x00, 0x00, 0x20]);

/// 1. e4 d5, each with its clock, and then the board shows 1... e5 and 2. Nf3.
static WRONG_REPLY: [Signal<'static>; 6] = [
    Dump(INITIAL),
    AT_29_50,
    Dump(E4),
    AT_29_40,
    Dump(E4_D5),
    Dump(E4_E5_NF3),
];

/// The new capture with 1... e5: 1. e4 keeps its clock, the new reply has none, and the board stands as it stood.
static RIGHT_REPLY: [Signal<'static>; 7] = [
    Dump(INITIAL),
    BOTH_29_50,
    Dump(E4),
    NO_CLOCK,
    Dump(E4_E5),
    STILL_29_40,
    Dump(E4_E5_NF3),
];

/// The same with 2. Nf3.
static RIGHT_LINE: [Signal<'static>; 9] = [
    Dump(INITIAL),
    BOTH_29_50,
    Dump(E4),
    NO_CLOCK,
    Dump(E4_E5),
    NO_CLOCK,
    Dump(E4_E5_NF3),
    STILL_29_40,
    Dump(E4_E5_NF3),
];

/// What is answered: `made`, where the new capture is these signals; or a word, and the numbers with it.
fn told_of(change: &Change, signals: &[Signal<'_>]) -> (&'static str, usize, usize) {
    match change {
        Change::Replaced {
            made,
            gone,
            come,
            ..
        } => {
            if made.as_slice() == bytes_of(signals).get() {
                ("made", *gone, *come)
            } else {
                ("another", *gone, *come)
            }
        }
        Change::Unplaced { nearest } => ("unplaced", nearest.unwrap_or(0), 0),
        Change::Unsaid { .. } => ("unsaid", 0, 0),
        Change::Old { stays, come } => ("old", *stays, *come),
        Change::Refused { plies, stays, .. } => ("refused", *stays, plies.len()),
    }
}

/// What becomes of a capture by this line.
fn change_of(
    alloc: Global,
    recovers: bool,
    capture: &[Signal<'_>],
    line: &str,
    signals: &[Signal<'_>],
) -> (&'static str, usize, usize) {
    let method = Method {
        start: Position::initial(),
        first: First::White,
        rotated: false,
        recovers,
    };
    match replace_by(alloc, &method, bytes_of(capture).get(), line.as_bytes()) {
        Ok(change) => told_of(&change, signals),
        Err(_) => ("unread", 0, 0),
    }
}

#[test]
fn games_get_other_moves(rt: HostRuntime) {
    let alloc = rt.alloc();
    let of = |capture: &[Signal<'_>], line: &str, signals: &[Signal<'_>]| {
        change_of(alloc, false, capture, line, signals)
    };
    let played = [Dump(INITIAL), Dump(E4), Dump(E4_E5)];
    let other = [Dump(INITIAL), Dump(E4), Dump(E4_E5), Dump(D4_E5)];
    let kings = [Dump(INITIAL), Dump(E4), Dump(KINGS)];
    let holds = [
        // the board shows one ply more than the new line, or its end
        of(&WRONG_REPLY, "1... e5", &RIGHT_REPLY) == ("made", 1, 1),
        of(&WRONG_REPLY, "1... e5 2. Nf3", &RIGHT_LINE) == ("made", 1, 2),
        of(&WRONG_REPLY, "1...e7e5 g1f3", &RIGHT_LINE) == ("made", 1, 2),
        // the same moves: each keeps its clock
        of(&WRONG_REPLY, "1. e4 e5 2. Nf3", &RIGHT_LINE) == ("made", 2, 3),
        // one wrong ply that the board still shows, and the end of the old line
        of(&played, "1... d5", &[]) == ("refused", 1, 2),
        of(&played, "1. d4 d5", &[]) == ("old", 0, 2),
        of(&played, "1... e5 2. Nf3", &[]) == ("old", 1, 2),
        // what the board shows is neither line; and what the old game had there would come back
        of(&other, "1. e4", &[]) == ("another", 2, 1),
        of(&played, "1. e4", &[]) == ("refused", 0, 1),
        // the kings still show a result
        of(&kings, "1. e4", &[]) == ("refused", 0, 1),
        // no such place, and no moves there
        of(&played, "3. Nf3", &[]) == ("unplaced", 2, 0),
        of(&played, "e5", &[]) == ("unplaced", 1, 0),
        of(&played, "1... e6 Nf3 2. d5", &[]) == ("unsaid", 0, 0),
        of(&played, "1... 1-0", &[]) == ("unsaid", 0, 0),
        of(&played, "1... Nf3", &[]) == ("unsaid", 0, 0),
    ];
    expect_none(&rt, first_false(&holds));
}
