//! What is said of the clock of a board that is recorded, worked by hand: that it is stopped, once it has run, and that it runs again.

ghost use Rattle.std.specs.Prelude.{OnOk};
ghost use Rattle.board_live.specs.Live.{HasBegun};

use crate::coded_frames::{expect_none, first_false};
use board_cable::What::{Begins, Closes, Hears, Opens, Wakes};
use board_captures::Method;
use board_live::What::{Cable, Keeps, Tells};
use board_live::{Happened, Live, What};
use board_standing::Heard;
use chess_rules::Position;
use dgt_frame::First;
use dgt_vectors::captures::Signal::{Dump, Time};
use dgt_vectors::captures::{INITIAL, Signal, bytes_of};
use std::alloc::{AllocError, Global};

const NONE: &[Signal<'static>] = &[];

const START: &[Signal<'static>] = &[Dump(INITIAL)];

/// Both have an hour and a half, and White's time runs.
const RUNS: &[Signal<'static>] = &[Time([1, 0x30, 0, 1, 0x30, 0, 1])];

const STANDS: &[Signal<'static>] = &[Time([1, 0x30, 0, 1, 0x30, 0, 0])];

/// No clock is connected.
const NO_CLOCK: &[Signal<'static>] = &[Time([0, 0, 0, 0, 0, 0, 0x20])];

/// What happens when, with which bytes; and what is said of the clock then: that it is stopped, that it runs, or nothing.
type Row<'a> = (u64, What, &'a [Signal<'a>], Option<bool>);

/// Each change is said once.
static CALL: [Row<'static>; 9] = [
    (0, Cable(Begins), NONE, None),
    (5, Cable(Opens), NONE, None),
    (120, Cable(Hears), START, None),
    (1_000, Cable(Hears), RUNS, None),
    (2_000, Cable(Hears), STANDS, Some(true)),
    (3_000, Cable(Hears), STANDS, None),
    (3_500, Cable(Wakes), NONE, None),
    (4_000, Cable(Hears), RUNS, Some(false)),
    (5_000, Cable(Hears), STANDS, Some(true)),
];

/// A clock that hasn't run isn't stopped, nor one that isn't there.
static NOT_RUN: [Row<'static>; 6] = [
    (0, Cable(Begins), NONE, None),
    (120, Cable(Hears), START, None),
    (1_000, Cable(Hears), STANDS, None),
    (2_000, Cable(Hears), NO_CLOCK, None),
    (3_000, Cable(Hears), RUNS, None),
    (4_000, Cable(Hears), NO_CLOCK, None),
];

/// What was kept of the calls before says nothing. When a call begins it is said that the clock is stopped.
static KEPT: [Row<'static>; 9] = [
    (0, Tells(Heard::Begins), NONE, None),
    (120, Keeps, START, None),
    (1_000, Keeps, RUNS, None),
    (2_000, Keeps, STANDS, None),
    (3_000, Cable(Begins), NONE, Some(true)),
    (3_005, Cable(Opens), NONE, None),
    (3_200, Cable(Hears), START, None),
    (4_000, Cable(Hears), STANDS, None),
    (5_000, Cable(Hears), RUNS, Some(false)),
];

/// While the line is gone nobody knows. It is said again only if it is news.
static GONE: [Row<'static>; 9] = [
    (0, Cable(Begins), NONE, None),
    (5, Cable(Opens), NONE, None),
    (120, Cable(Hears), START, None),
    (1_000, Cable(Hears), RUNS, None),
    (2_000, Cable(Hears), STANDS, Some(true)),
    (2_500, Cable(Closes), NONE, None),
    (60_000, Cable(Opens), NONE, None),
    (60_200, Cable(Hears), START, None),
    (61_000, Cable(Hears), STANDS, None),
];

static KEPT_RUNNING: [Row<'static>; 4] = [
    (0, Tells(Heard::Begins), NONE, None),
    (120, Keeps, START, None),
    (1_000, Keeps, RUNS, None),
    (3_000, Cable(Begins), NONE, None),
];

fn are_same(one: Option<bool>, other: Option<bool>) -> bool {
    match (one, other) {
        (None, None) => true,
        (Some(one), Some(other)) => one == other,
        _ => false,
    }
}

/// Tells a board what happens. Whether this is said of the clock.
fn feed(alloc: Global, live: &mut Live, row: &Row<'_>) -> Result<bool, AllocError>
    requires { HasBegun live.old }
    ensures { OnOk result (HasBegun live.new) }
{
    let mut lines = Vec::new(alloc);
    let (at, what, bytes, said) = *row;
    let answer = live.take(Happened { at, what }, bytes_of(bytes).get(), &mut lines)?;
    Ok(are_same(answer.is_clock_stopped, said))
}

/// The same of all of these.
fn feed_all(alloc: Global, live: &mut Live, rows: &[Row<'_>]) -> Result<bool, AllocError>
    requires { HasBegun live.old }
    ensures { OnOk result (HasBegun live.new) }
{
    let mut all = true;
    'each: for row in rows {
        let is_so = feed(alloc, live, row)?;
        all = all && is_so;
    }
    Ok(all)
}

fn are_said(alloc: Global, rows: &[Row<'_>]) -> bool {
    let method = Method {
        start: Position::initial(),
        first: First::White,
        rotated: false,
        recovers: false,
    };
    let mut live = Live::new(alloc, &method);
    match feed_all(alloc, &mut live, rows) {
        Ok(all) => all,
        Err(_) => false,
    }
}

#[test]
fn changes_of_the_clock_are_said(rt: HostRuntime) {
    let alloc = rt.alloc();
    let holds = [
        are_said(alloc, &CALL),
        are_said(alloc, &NOT_RUN),
        are_said(alloc, &KEPT),
        are_said(alloc, &GONE),
        are_said(alloc, &KEPT_RUNNING),
    ];
    expect_none(&rt, first_false(&holds));
}
