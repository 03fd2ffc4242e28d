//! What only a stream in memory shows: an output that takes all and can't be flushed, and a call without a word. The tables of
//! `tests/inputs` have what the built program shows.

use crate::running::{run_over, run_with};
use dgt_vectors::bytes::Bytes;
use dgt_vectors::captures::Signal::{self, Dump, Lift, Put};
use dgt_vectors::captures::{INITIAL, bytes_of};
use dgt_vectors::streams::{Sink, Source};
use dgt_vectors::texts::ONE_MOVE;
use std::alloc::Global;

/// The capture of 1. e4.
static CAPTURE: [Signal<'static>; 3] = [Dump(INITIAL), Lift("e2"), Put("e4", "P")];

/// A subcommand, its input (the capture, the export text of 1. e4, or these words), whether a read fails behind it, and the first ten
/// bytes of what is written, or nothing where they aren't told.
type Case<'a> = (&'a str, &'a str, bool, &'a str);

static CASES: [Case<'static>; 16] = [
    ("show", "capture", false, "66 dump 89"),
    ("pictures", "capture", false, "rnbqkbnr/p"),
    ("follow", "capture", false, "66 agrees\n"),
    ("record", "capture", false, "[Event \"?\""),
    ("check", "text", false, "moves 1, r"),
    ("moves", "capture", false, "a4\na3\nb4\nb"),
    ("positions", "e4", false, "rnbqkbnr/p"),
    ("live", "0 begin 0\n", false, "0 position"),
    // a read that fails too
    ("show", "capture", true, ""),
    ("pictures", "capture", true, ""),
    ("follow", "capture", true, ""),
    ("record", "capture", true, ""),
    // a text that is refused or can't be read
    ("check", "capture", false, ""),
    ("check", "capture", true, ""),
    // a word that is no move, or an input that can't be read
    ("positions", "e5", false, ""),
    ("positions", "capture", true, ""),
];

fn input_of(input: &str) -> Bytes {
    match input {
        "capture" => bytes_of(&CAPTURE),
        "text" => ONE_MOVE.bytes(),
        word => Bytes::of(&[word.as_bytes()]),
    }
}

/// What stands on standard error: `record` has asked the board before.
fn told_by(word: &str) -> &'static [u8] {
    if word == "record" {
        b"BK\nwrite fault\n"
    } else {
        b"write fault\n"
    }
}

/// The program says that a write failed, with status 3, after these bytes.
fn is_told(alloc: Global, case: &Case<'_>) -> bool {
    let (word, input, fails, front) = *case;
    let bytes = input_of(input);
    let source = Source::new(bytes.get()).failing(fails);
    let out = Sink::new(2048).flushing(false);
    match run_over(alloc, &[word], source, out, Sink::new(2048)) {
        Some(left) => left.status == 3
            && left.err.get() == told_by(word)
            && left.out.get().starts_with(front.as_bytes()),
        None => false,
    }
}

/// How many of the failed flushes are told.
pub fn told(alloc: Global) -> u32 {
    let mut count: u32 = 0;
    for case in &CASES {
        if is_told(alloc, case) {
            count = count.saturating_add(1);
        }
    }
    count
}

/// Each with an input that ends, and with one that fails.
static WORDS: [&str; 13] = [
    "show",
    "pictures",
    "follow",
    "watch",
    "record",
    "recover",
    "check",
    "times",
    "moves",
    "positions",
    "live",
    "--help",
    "--version",
];

/// All that is written is flushed, whether the input ends or fails.
fn is_flushed(alloc: Global, word: &str, fails: bool) -> bool {
    let bytes = bytes_of(&CAPTURE);
    let source = Source::new(bytes.get()).failing(fails);
    match run_over(alloc, &[word], source, Sink::new(2048), Sink::new(2048)) {
        Some(left) => left.shown.get() == left.out.get(),
        None => false,
    }
}

/// How many runs flush all that they write.
pub fn flushed(alloc: Global) -> u32 {
    let mut count: u32 = 0;
    for word in &WORDS {
        for fails in [false, true] {
            if is_flushed(alloc, word, fails) {
                count = count.saturating_add(1);
            }
        }
    }
    count
}

/// The status without an argument, not even the name of the program.
pub fn status_without_arguments(alloc: Global) -> u8 {
    let none: [String; 0] = [];
    let (out, err) = (Sink::new(2048), Sink::new(2048));
    run_with(alloc, &none, Source::new(&[]), out, err).status
}
