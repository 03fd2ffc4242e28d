//! When another board may be on the cable, worked by hand: a board that was away shows four plies that nobody saw.

ghost use Rattle.std.specs.Prelude.{OnOk};
ghost use Rattle.board_live.specs.Live.{HasBegun};

use crate::coded_frames::expect_none;
use board_cable::What::{Begins, Closes, Hears, Opens, Owns, Takes};
use board_captures::Method;
use board_live::What::{Cable, Keeps};
use board_live::{Happened, Live, What};
use board_standing::Hint::{self, OtherBoard, TurnedRound};
use board_standing::State;
use chess_rules::Position;
use dgt_frame::First;
use dgt_vectors::captures::Signal::{Dump, Raw, TurnedDump};
use dgt_vectors::captures::{INITIAL, Signal, bytes_of};
use std::alloc::{AllocError, Global};

const OWN: [u8; 5] = *b"01234";

/// The numbers of the game's board and of another one: message 0x91 of eight bytes.
const NUMBER: Signal<'static> = Raw(b"\x91\x00\x0801234");

const OTHERS_NUMBER: Signal<'static> = Raw(b"\x91\x00\x0801235");

const START: Signal<'static> = Dump(INITIAL);

/// After e4 e5 Nf3 Nc6: eight squares have changed.
const PLAYED: Signal<'static> = Dump("r1bqkbnr/pppp1ppp/2n5/4p3/4P3/5N2/PPPP1PPP/RNBQKB1R");

/// What happens at a time in milliseconds, with which bytes.
type Told<'a> = (u64, What, &'a [Signal<'a>]);

const BEGUN: Told<'static> = (0, Cable(Begins), &[]);

const OPENED: Told<'static> = (5, Cable(Opens), &[]);

const SHOWN: Told<'static> = (90, Cable(Hears), &[START]);

const NUMBERED: Told<'static> = (90, Cable(Hears), &[NUMBER, START]);

const CLOSED: Told<'static> = (7_000, Cable(Closes), &[]);

const OPENED_AGAIN: Told<'static> = (20_000, Cable(Opens), &[]);

const SHOWN_AGAIN: Told<'static> = (20_060, Cable(Hears), &[PLAYED]);

const NUMBERED_AGAIN: Told<'static> = (20_060, Cable(Hears), &[NUMBER, PLAYED]);

/// Of the call before: the board showed the start.
const KEPT: Told<'static> = (0, Keeps, &[START]);

const OWNED: Told<'static> = (0, Cable(Owns(OWN)), &[]);

/// A name, what happens, and what may be wrong with the board then.
type Row<'a> = (&'a str, &'a [Told<'a>], Option<Hint>);

static ROWS: [Row<'static>; 9] = [
    (
        "no number",
        &[BEGUN, OPENED, SHOWN, CLOSED, OPENED_AGAIN, SHOWN_AGAIN],
        Some(OtherBoard),
    ),
    (
        "the number that was known",
        &[
            BEGUN,
            OPENED,
            NUMBERED,
            CLOSED,
            OPENED_AGAIN,
            NUMBERED_AGAIN,
        ],
        None,
    ),
    (
        "a number that comes first now",
        &[BEGUN, OPENED, SHOWN, CLOSED, OPENED_AGAIN, NUMBERED_AGAIN],
        Some(OtherBoard),
    ),
    (
        "and is said to be the board's",
        &[
            BEGUN,
            OPENED,
            SHOWN,
            CLOSED,
            OPENED_AGAIN,
            NUMBERED_AGAIN,
            (20_100, Cable(Owns(OWN)), &[]),
        ],
        None,
    ),
    (
        "no number this time: three dumps are awaited",
        &[
            BEGUN,
            OPENED,
            NUMBERED,
            CLOSED,
            OPENED_AGAIN,
            SHOWN_AGAIN,
            SHOWN_AGAIN,
            SHOWN_AGAIN,
        ],
        Some(OtherBoard),
    ),
    (
        "the number of the call before",
        &[KEPT, OWNED, BEGUN, OPENED_AGAIN, NUMBERED_AGAIN],
        None,
    ),
    (
        "which is said once this one has begun",
        &[KEPT, BEGUN, OWNED, OPENED_AGAIN, NUMBERED_AGAIN],
        None,
    ),
    (
        "another board, which the arbiter takes",
        &[
            BEGUN,
            OPENED,
            NUMBERED,
            CLOSED,
            OPENED_AGAIN,
            (20_060, Cable(Hears), &[OTHERS_NUMBER, PLAYED]),
            (20_100, Cable(Takes), &[]),
        ],
        None,
    ),
    (
        "the game's board, turned round",
        &[
            BEGUN,
            OPENED,
            NUMBERED,
            CLOSED,
            OPENED_AGAIN,
            (20_060, Cable(Hears), &[NUMBER, TurnedDump(INITIAL)]),
        ],
        Some(TurnedRound),
    ),
];

/// Tells a board all of these. The state that it says last.
fn feed(alloc: Global, live: &mut Live, told: &[Told<'_>]) -> Result<Option<State>, AllocError>
    requires { HasBegun live.old }
    ensures { OnOk result (HasBegun live.new) }
{
    let mut said = None;
    let mut lines = Vec::new(alloc);
    'each: for one in told {
        let happened = Happened {
            at: one.0,
            what: one.1,
        };
        let answer = live.take(happened, bytes_of(one.2).get(), &mut lines)?;
        said = answer.state.or(said);
    }
    Ok(said)
}

fn has_hint(state: Option<State>, hint: Option<Hint>) -> bool {
    match state {
        None => false,
        Some(state) => state.hint == hint,
    }
}

/// Whether this is said last of a board, and is read of it.
fn hints(alloc: Global, told: &[Told<'_>], hint: Option<Hint>) -> bool {
    let method = Method {
        start: Position::initial(),
        first: First::White,
        rotated: false,
        recovers: false,
    };
    let mut live = Live::new(alloc, &method);
    match feed(alloc, &mut live, told) {
        Ok(said) => has_hint(said, hint) && has_hint(Some(live.state(21_000)), hint),
        Err(_) => false,
    }
}

/// The number of the first row in which something else is said.
fn first_unlike(alloc: Global) -> Option<usize> {
    for (i, row) in ROWS.iter().enumerate() {
        if !hints(alloc, row.1, row.2) {
            return Some(i);
        }
    }
    None
}

#[test]
fn own_boards_are_no_others(rt: HostRuntime) {
    expect_none(&rt, first_unlike(rt.alloc()));
}
