//! Boards that one change of the game alone explains, with what is typed for it worked by hand.

use crate::coded_frames::{expect_none, first_false};
use board_captures::{Captured, Method, read_capture};
use chess_rules::Position;
use dgt_frame::First;
use dgt_vectors::captures::Signal::Dump;
use dgt_vectors::captures::{INITIAL, Signal, bytes_of};
use going_back::say_fit;
use std::alloc::Global;

const E4: &str = "rnbqkbnr/pppppppp/8/8/4P3/8/PPPP1PPP/RNBQKBNR";

const E4_E5: &str = "rnbqkbnr/pppp1ppp/8/4p3/4P3/8/PPPP1PPP/RNBQKBNR";

const E4_D5: &str = "rnbqkbnr/ppp1pppp/8/3p4/4P3/8/PPPP1PPP/RNBQKBNR";

/// After 1. e4 e5 2. Nf3.
const E4_E5_NF3: &str = "rnbqkbnr/pppp1ppp/8/4p3/4P3/5N2/PPPP1PPP/RNBQKB1R";

/// After 1. e4 e5 2. Nf3 Nc6.
const BOTH_KNIGHTS: &str = "r1bqkbnr/pppp1ppp/2n5/4p3/4P3/5N2/PPPP1PPP/RNBQKB1R";

/// After 1. d4 e5.
const D4_E5: &str = "rnbqkbnr/pppp1ppp/8/4p3/3P4/8/PPP1PPPP/RNBQKBNR";

const NO_PIECE: &str = "8/8/8/8/8/8/8/8";

/// Whether this is typed for the change that alone explains what the board shows last.
fn is_typed(alloc: Global, captured: &Captured, typed: &str) -> bool {
    let Some(seen) = captured.picture() else {
        return false;
    };
    let settler = captured.session.settler();
    match say_fit(alloc, settler.start(), settler.moves(), seen) {
        Ok(line) => line.as_slice() == typed.as_bytes(),
        Err(_) => false,
    }
}

/// The same of a capture.
fn explains(alloc: Global, capture: &[Signal<'_>], typed: &str) -> bool {
    let method = Method {
        start: Position::initial(),
        first: First::White,
        rotated: false,
        recovers: false,
    };
    match read_capture(alloc, &method, bytes_of(capture).get()) {
        Ok(captured) => is_typed(alloc, &captured, typed),
        Err(_) => false,
    }
}

#[test]
fn boards_are_explained(rt: HostRuntime) {
    let alloc = rt.alloc();
    let of = |capture: &[Signal<'_>], typed: &str| explains(alloc, capture, typed);
    let knights = [
        Dump(INITIAL),
        Dump(E4),
        Dump(E4_E5),
        Dump(E4_E5_NF3),
        Dump(BOTH_KNIGHTS),
        Dump(E4_E5),
    ];
    let holds = [
        // two plies that no picture showed; others in place of the last one, and of the last two
        of(
            &[Dump(INITIAL), Dump(E4), Dump(E4_E5_NF3)],
            "1... e5 2. Nf3\n",
        ),
        of(
            &[Dump(INITIAL), Dump(E4), Dump(E4_D5), Dump(E4_E5_NF3)],
            "instead 1... e5 2. Nf3\n",
        ),
        of(
            &[Dump(INITIAL), Dump(E4), Dump(E4_E5), Dump(D4_E5)],
            "instead 1. d4 e5\n",
        ),
        // plies that were taken back
        of(
            &[Dump(INITIAL), Dump(E4), Dump(E4_E5), Dump(E4)],
            "back 1. e4\n",
        ),
        of(&[Dump(INITIAL), Dump(E4), Dump(INITIAL)], "back 0\n"),
        // both knights were taken back, or went back: nobody knows
        of(&knights, ""),
        // the board agrees; and nothing explains it
        of(&[Dump(INITIAL), Dump(E4)], ""),
        of(&[Dump(INITIAL), Dump(E4), Dump(NO_PIECE)], ""),
    ];
    expect_none(&rt, first_false(&holds));
}
