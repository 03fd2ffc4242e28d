//! Texts that are no export texts.

use crate::games::{CASTLING, expect_none, first_false};
use dgt_vectors::bytes::Bytes;
use dgt_vectors::texts::{ONE_MOVE, text_of, with_returns};
use pgn_book::{PgnError, read_pgn};
use std::alloc::Global;

fn refuses(alloc: Global, text: &[u8]) -> bool {
    matches!(read_pgn(alloc, text), Err(PgnError::NotExport))
}

/// The least length at which a part of the text of 1. e4 isn't refused.
fn first_part_not_refused(alloc: Global) -> Option<usize> {
    let text = ONE_MOVE.bytes();
    for len in 0..text.len() {
        if !refuses(alloc, text.front(len)) {
            return Some(len);
        }
    }
    None
}

fn refuses_returns(alloc: Global) -> bool {
    refuses(alloc, with_returns(ONE_MOVE.bytes().get()).get())
}

/// The text with a line feed more is refused.
fn refuses_line_more(alloc: Global) -> bool {
    refuses(alloc, Bytes::of(&[ONE_MOVE.bytes().get(), b"\n"]).get())
}

const FOUR_FIELDS: &str = "4k3/8/8/8/8/8/8/4K2R w K -";

const INITIAL: &str = "rnbqkbnr/pppppppp/8/8/8/8/PPPPPPPP/RNBQKBNR w KQkq - 0 1";

/// Results, starts and movetexts of texts that are no export texts.
static OTHERS: [[&str; 3]; 18] = [
    ["*", "", "1. e2e4 *"],
    ["*", "", "1. e4  *"],
    ["*", "", "1.e4 *"],
    ["*", "", "1. e4\n*"],
    ["*", "", "1. e4 e5 2. Ke3 *"],
    ["*", "", "1. e4 1... e5 *"],
    ["*", "", "1. e4 {[%clk 1:30:00]} e5 *"],
    ["*", "", "1. e4 {[%clk 1:60:00]} *"],
    ["*", "", "1. e4 {[%clk 01:30:00]} *"],
    ["1-0", "", "1. e4 *"],
    ["*", "", "1. e4 1-0"],
    ["*", INITIAL, "1. e4 *"],
    ["*", CASTLING, "1. 0-0 *"],
    ["*", CASTLING, "1. e4 *"],
    ["*", FOUR_FIELDS, "1. O-O *"],
    ["1-0", "", "1. f3 e5 2. g4 Qh4# 1-0"],
    ["*", "", "1. f3 e5 2. g4 Qh4# *"],
    ["*", "", "1. f3 e5 2. g4 Qh4 *"],
];

fn is_refused(alloc: Global, parts: &[&str; 3]) -> bool {
    let [outcome, fen, movetext] = parts;
    refuses(alloc, text_of(outcome, fen, movetext).get())
}

/// The number of the first of these texts that isn't refused, from 0.
fn first_not_refused(alloc: Global) -> Option<usize> {
    for (number, parts) in OTHERS.iter().enumerate() {
        if !is_refused(alloc, parts) {
            return Some(number);
        }
    }
    None
}

#[test]
fn other_texts_are_refused(rt: HostRuntime) {
    let holds = [
        first_part_not_refused(rt.alloc()).is_none(),
        refuses_returns(rt.alloc()),
        refuses_line_more(rt.alloc()),
        first_not_refused(rt.alloc()).is_none(),
        refuses(rt.alloc(), b""),
    ];
    expect_none(&rt, first_false(&holds));
}
