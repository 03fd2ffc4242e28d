//! Which alarms a board that is recorded says and has open, worked by hand. A pawn goes to e4, and to e3 more than ten seconds
//! later: that correction is late.

ghost use Rattle.std.specs.Prelude.{OnOk};
ghost use Rattle.board_live.specs.Live.{HasBegun};

use crate::coded_frames::{expect_none, first_false};
use board_cable::What::{Begins, Hears, Opens, Wakes};
use board_captures::Method;
use board_game::Note::{Looked, PutsBack, Suspects};
use board_live::What::{Adds, Brings, Cable, Keeps, KeepsAdded, Notes, Tells};
use board_live::{Happened, Live, What};
use board_standing::Heard;
use chess_rules::Position;
use dgt_frame::First;
use dgt_vectors::captures::Signal::Dump;
use dgt_vectors::captures::{INITIAL, Signal, bytes_of};
use std::alloc::{AllocError, Global};

const NONE: &[Signal<'static>] = &[];

const START: &[Signal<'static>] = &[Dump(INITIAL)];

const E4: &[Signal<'static>] = &[Dump("rnbqkbnr/pppppppp/8/8/4P3/8/PPPP1PPP/RNBQKBNR")];

const E3: &[Signal<'static>] = &[Dump("rnbqkbnr/pppppppp/8/8/8/4P3/PPPP1PPP/RNBQKBNR")];

/// The pawn is in a hand.
const LIFTED: &[Signal<'static>] = &[Dump("rnbqkbnr/pppppppp/8/8/8/8/PPPP1PPP/RNBQKBNR")];

/// What happens when, with which bytes; how many alarms are said then, and how many are open.
type Row<'a> = (u64, What, &'a [Signal<'a>], usize, usize);

/// Each alarm is said once, when it is raised.
static CALL: [Row<'static>; 10] = [
    (0, Cable(Begins), NONE, 0, 0),
    (5, Cable(Opens), NONE, 0, 0),
    (120, Cable(Hears), START, 0, 0),
    (1_300, Cable(Hears), E4, 0, 0),
    (6_000, Cable(Hears), E4, 0, 0),
    (11_301, Cable(Hears), E3, 1, 1),
    (11_400, Notes(Suspects(3)), NONE, 1, 2),
    (11_500, Cable(Wakes), NONE, 0, 2),
    (11_600, Notes(Looked), NONE, 0, 0),
    (11_700, Notes(Suspects(4)), NONE, 1, 1),
];

/// The same, but the correction is added by hand.
static ADDED: [Row<'static>; 6] = [
    (0, Cable(Begins), NONE, 0, 0),
    (5, Cable(Opens), NONE, 0, 0),
    (120, Cable(Hears), START, 0, 0),
    (1_300, Cable(Hears), E4, 0, 0),
    (6_000, Cable(Hears), E4, 0, 0),
    (11_301, Adds, E3, 0, 0),
];

/// It comes over another game's cable.
static BROUGHT: [Row<'static>; 6] = [
    (0, Cable(Begins), NONE, 0, 0),
    (5, Cable(Opens), NONE, 0, 0),
    (120, Cable(Hears), START, 0, 0),
    (1_300, Cable(Hears), E4, 0, 0),
    (6_000, Brings, E4, 0, 0),
    (11_301, Brings, E3, 1, 1),
];

/// What was kept of the calls before says no alarm. When a call begins all that are open are said.
static KEPT: [Row<'static>; 9] = [
    (0, Tells(Heard::Begins), NONE, 0, 0),
    (5, Tells(Heard::Plugs), NONE, 0, 0),
    (120, Keeps, START, 0, 0),
    (1_300, Keeps, E4, 0, 0),
    (6_000, Keeps, E4, 0, 0),
    (11_301, Keeps, E3, 0, 1),
    (11_400, Notes(Suspects(3)), NONE, 0, 2),
    (20_000, Cable(Begins), NONE, 2, 2),
    (20_005, Cable(Opens), NONE, 0, 2),
];

/// Somebody had looked, or it was added by hand.
static LOOKED: [Row<'static>; 7] = [
    (0, Tells(Heard::Begins), NONE, 0, 0),
    (120, Keeps, START, 0, 0),
    (1_300, Keeps, E4, 0, 0),
    (6_000, Keeps, E4, 0, 0),
    (11_301, Keeps, E3, 0, 1),
    (11_400, Notes(Looked), NONE, 0, 0),
    (20_000, Cable(Begins), NONE, 0, 0),
];

static KEPT_ADDED: [Row<'static>; 6] = [
    (0, Tells(Heard::Begins), NONE, 0, 0),
    (120, Keeps, START, 0, 0),
    (1_300, Keeps, E4, 0, 0),
    (6_000, Keeps, E4, 0, 0),
    (11_301, KeepsAdded, E3, 0, 0),
    (20_000, Cable(Begins), NONE, 0, 0),
];

/// A recorder takes up a game, and after that the last move is another one. If the pieces were to be put back, that is no news.
static TAKEN_UP: [Row<'static>; 6] = [
    (0, Tells(Heard::Begins), NONE, 0, 0),
    (120, Keeps, START, 0, 0),
    (1_300, Keeps, E4, 0, 0),
    (60_000, Cable(Begins), NONE, 0, 0),
    (60_005, Cable(Opens), NONE, 0, 0),
    (60_200, Cable(Hears), E3, 1, 1),
];

static PUT_BACK: [Row<'static>; 8] = [
    (0, Tells(Heard::Begins), NONE, 0, 0),
    (120, Keeps, START, 0, 0),
    (1_300, Keeps, E4, 0, 0),
    (2_000, Keeps, LIFTED, 0, 0),
    (60_000, Cable(Begins), NONE, 0, 0),
    (60_000, Notes(PutsBack), NONE, 0, 0),
    (60_005, Cable(Opens), NONE, 0, 0),
    (60_200, Cable(Hears), E3, 0, 0),
];

/// Tells a board what happens. Whether so many alarms are said, and so many are open.
fn feed(alloc: Global, live: &mut Live, row: &Row<'_>) -> Result<bool, AllocError>
    requires { HasBegun live.old }
    ensures { OnOk result (HasBegun live.new) }
{
    let mut lines = Vec::new(alloc);
    let (at, what, bytes, said, open) = *row;
    let answer = live.take(Happened { at, what }, bytes_of(bytes).get(), &mut lines)?;
    let count = live.alarms().len();
    Ok(count.saturating_sub(answer.unsaid) == said && count == open)
}

/// The same of all of these.
fn feed_all(alloc: Global, live: &mut Live, rows: &[Row<'_>]) -> Result<bool, AllocError>
    requires { HasBegun live.old }
    ensures { OnOk result (HasBegun live.new) }
{
    let mut all = true;
    'each: for row in rows {
        let is_so = feed(alloc, live, row)?;
        all = all && is_so;
    }
    Ok(all)
}

fn are_said(alloc: Global, rows: &[Row<'_>]) -> bool {
    let method = Method {
        start: Position::initial(),
        first: First::White,
        rotated: false,
        recovers: false,
    };
    let mut live = Live::new(alloc, &method);
    match feed_all(alloc, &mut live, rows) {
        Ok(all) => all,
        Err(_) => false,
    }
}

#[test]
fn alarms_are_said(rt: HostRuntime) {
    let alloc = rt.alloc();
    let holds = [
        are_said(alloc, &CALL),
        are_said(alloc, &ADDED),
        are_said(alloc, &BROUGHT),
        are_said(alloc, &KEPT),
        are_said(alloc, &LOOKED),
        are_said(alloc, &KEPT_ADDED),
        are_said(alloc, &TAKEN_UP),
        are_said(alloc, &PUT_BACK),
    ];
    expect_none(&rt, first_false(&holds));
}
