//! A board that is recorded, worked by hand: what is answered to what happens. A dump has 67 bytes, an update 5, a number 8.

ghost use Rattle.std.specs.Prelude.{OnOk};
ghost use Rattle.board_live.specs.Live.{HasBegun};

use crate::coded_frames::{expect_none, first_false};
use board_cable::What::{Begins, Closes, Hears, Opens, Owns, Takes, Wakes};
use board_cable::{Handling, Request};
use board_captures::Method;
use board_live::What::{Adds, Cable, Keeps, Tells};
use board_live::{Answer, Happened, Live, What};
use board_standing::Heard::{self, Plugs, Stops, Unplugs};
use board_standing::{Kind, State};
use chess_rules::Position;
use dgt_frame::First;
use dgt_vectors::captures::Signal::{Dump, Lift, Put, Raw};
use dgt_vectors::captures::{INITIAL, Signal, bytes_of};
use std::alloc::{AllocError, Global};

const OWN: [u8; 5] = *b"01234";

const ANOTHER: [u8; 5] = *b"01235";

/// The numbers of these boards: message 0x91 of eight bytes.
const NUMBER: Signal<'static> = Raw(b"\x91\x00\x0801234");

const OTHERS_NUMBER: Signal<'static> = Raw(b"\x91\x00\x0801235");

const START: Signal<'static> = Dump(INITIAL);

const E4: Signal<'static> = Dump("rnbqkbnr/pppppppp/8/8/4P3/8/PPPP1PPP/RNBQKBNR");

/// Both kings on light squares of the centre: White wins.
const KINGS: Signal<'static> = Dump("rnbq1bnr/pppp1ppp/8/3kp3/4K3/8/PPPP1PPP/RNBQ1BNR");

const E2: u64 = 1 << 52;

/// What a board is, since when, and the squares that are named.
type Stands = (Kind, Option<u64>, u64);

/// What happens at a time in milliseconds, with which bytes, and what is answered.
struct Row<'a> {
    at: u64,
    what: What,
    bytes: &'a [Signal<'a>],
    /// What the board is sent: `E`, `B` and `K` are the bytes 45, 42 and 4B.
    asks: &'a str,
    /// What is done with what it sends.
    handling: &'a str,
    /// What the capture gets.
    kept: &'a [Signal<'a>],
    lines: &'a str,
    /// What is said of how it stands.
    says: Option<Stands>,
    due: Option<u64>,
}

/// Nothing that this answers.
const QUIET: Row<'static> = Row {
    at: 0,
    what: Cable(Wakes),
    bytes: &[],
    asks: "",
    handling: "keep",
    kept: &[],
    lines: "",
    says: None,
    due: None,
};

/// The first call. The board sends its number and the start, a pawn is played, and the board doesn't answer any more. It is
/// unplugged, and comes back: what it shows then is held until its number has come.
static FIRST_CALL: [Row<'static>; 16] = [
    Row {
        at: 0,
        what: Cable(Begins),
        says: Some((Kind::Waits, None, 0)),
        ..QUIET
    },
    Row {
        at: 5,
        what: Cable(Opens),
        asks: "EBK",
        due: Some(1_005),
        ..QUIET
    },
    Row {
        at: 95,
        what: Cable(Hears),
        bytes: &[NUMBER],
        kept: &[NUMBER],
        due: Some(1_005),
        ..QUIET
    },
    Row {
        at: 120,
        what: Cable(Hears),
        bytes: &[START],
        kept: &[START],
        lines: "74 picture rnbqkbnr/pppppppp/8/8/8/8/PPPPPPPP/RNBQKBNR
74 agrees
",
        says: Some((Kind::Agrees, Some(120), 0)),
        due: Some(1_005),
        ..QUIET
    },
    Row {
        at: 1_005,
        asks: "B",
        due: Some(2_005),
        ..QUIET
    },
    // the same again
    Row {
        at: 1_030,
        what: Cable(Hears),
        bytes: &[START],
        kept: &[START],
        due: Some(2_005),
        ..QUIET
    },
    Row {
        at: 1_100,
        what: Cable(Hears),
        bytes: &[Lift("e2")],
        kept: &[Lift("e2")],
        lines: "146 picture rnbqkbnr/pppppppp/8/8/8/8/PPPP1PPP/RNBQKBNR
146 differs e2
",
        says: Some((Kind::InHand, Some(1_100), E2)),
        due: Some(2_005),
        ..QUIET
    },
    Row {
        at: 1_300,
        what: Cable(Hears),
        bytes: &[Put("e4", "P")],
        kept: &[Put("e4", "P")],
        lines: "151 picture rnbqkbnr/pppppppp/8/8/4P3/8/PPPP1PPP/RNBQKBNR
151 move 1. e4
151 position rnbqkbnr/pppppppp/8/8/4P3/8/PPPP1PPP/RNBQKBNR b KQkq e3 0 1
",
        says: Some((Kind::Agrees, Some(1_300), 0)),
        due: Some(2_005),
        ..QUIET
    },
    Row {
        at: 2_005,
        asks: "B",
        due: Some(3_005),
        ..QUIET
    },
    // unanswered: updates and the number are asked for again
    Row {
        at: 3_005,
        asks: "EBK",
        due: Some(4_005),
        ..QUIET
    },
    Row {
        at: 4_005,
        asks: "EBK",
        handling: "hold",
        due: Some(5_005),
        ..QUIET
    },
    // 5 s after the last dump, and the request is the fourth
    Row {
        at: 6_100,
        asks: "EBK",
        handling: "hold",
        says: Some((Kind::Silent, Some(6_100), 0)),
        due: Some(7_100),
        ..QUIET
    },
    Row {
        at: 7_000,
        what: Cable(Closes),
        handling: "hold",
        says: Some((Kind::Unplugged, Some(7_000), 0)),
        due: Some(8_005),
        ..QUIET
    },
    Row {
        at: 20_000,
        what: Cable(Opens),
        asks: "EBK",
        handling: "hold",
        says: Some((Kind::Agrees, Some(1_300), 0)),
        due: Some(21_000),
        ..QUIET
    },
    Row {
        at: 20_030,
        what: Cable(Hears),
        bytes: &[E4],
        handling: "hold",
        due: Some(21_000),
        ..QUIET
    },
    Row {
        at: 20_060,
        what: Cable(Hears),
        bytes: &[NUMBER],
        kept: &[E4, NUMBER],
        due: Some(21_000),
        ..QUIET
    },
];

/// What is kept of that call: its line, and what the capture got.
static KEPT_OF_IT: [Row<'static>; 14] = [
    Row {
        at: 0,
        what: Tells(Heard::Begins),
        ..QUIET
    },
    Row {
        at: 0,
        what: Tells(Heard::Answers),
        ..QUIET
    },
    Row {
        at: 5,
        what: Tells(Plugs),
        ..QUIET
    },
    Row {
        at: 95,
        what: Keeps,
        bytes: &[NUMBER],
        ..QUIET
    },
    Row {
        at: 120,
        what: Keeps,
        bytes: &[START],
        lines: "74 picture rnbqkbnr/pppppppp/8/8/8/8/PPPPPPPP/RNBQKBNR
74 agrees
",
        ..QUIET
    },
    Row {
        at: 1_030,
        what: Keeps,
        bytes: &[START],
        ..QUIET
    },
    Row {
        at: 1_100,
        what: Keeps,
        bytes: &[Lift("e2")],
        lines: "146 picture rnbqkbnr/pppppppp/8/8/8/8/PPPP1PPP/RNBQKBNR
146 differs e2
",
        // a hand that takes long
        due: Some(11_100),
        ..QUIET
    },
    Row {
        at: 1_300,
        what: Keeps,
        bytes: &[Put("e4", "P")],
        lines: "151 picture rnbqkbnr/pppppppp/8/8/4P3/8/PPPP1PPP/RNBQKBNR
151 move 1. e4
151 position rnbqkbnr/pppppppp/8/8/4P3/8/PPPP1PPP/RNBQKBNR b KQkq e3 0 1
",
        ..QUIET
    },
    Row {
        at: 6_100,
        what: Tells(Stops),
        ..QUIET
    },
    Row {
        at: 7_000,
        what: Tells(Unplugs),
        ..QUIET
    },
    Row {
        at: 7_000,
        what: Tells(Heard::Answers),
        ..QUIET
    },
    Row {
        at: 20_000,
        what: Tells(Plugs),
        ..QUIET
    },
    Row {
        at: 20_060,
        what: Keeps,
        bytes: &[E4, NUMBER],
        ..QUIET
    },
    Row {
        at: 30_000,
        what: Cable(Owns(OWN)),
        ..QUIET
    },
];

/// The next call, 9.94 s later: the game goes on, and a result is added by hand.
static NEXT_CALL: [Row<'static>; 6] = [
    Row {
        at: 30_000,
        what: Cable(Begins),
        says: Some((Kind::Waits, None, 0)),
        ..QUIET
    },
    Row {
        at: 30_010,
        what: Cable(Opens),
        asks: "EBK",
        handling: "hold",
        due: Some(31_010),
        ..QUIET
    },
    Row {
        at: 30_050,
        what: Cable(Hears),
        bytes: &[NUMBER, E4],
        kept: &[NUMBER, E4],
        says: Some((Kind::Agrees, Some(1_300), 0)),
        due: Some(31_010),
        ..QUIET
    },
    Row {
        at: 30_200,
        what: Cable(Hears),
        bytes: &[Lift("e7"), Put("e5", "p")],
        kept: &[Lift("e7"), Put("e5", "p")],
        lines: "306 picture rnbqkbnr/pppp1ppp/8/8/4P3/8/PPPP1PPP/RNBQKBNR
306 differs e7
311 picture rnbqkbnr/pppp1ppp/8/4p3/4P3/8/PPPP1PPP/RNBQKBNR
311 move 1... e5
311 position rnbqkbnr/pppp1ppp/8/4p3/4P3/8/PPPP1PPP/RNBQKBNR w KQkq e6 0 2
",
        due: Some(31_010),
        ..QUIET
    },
    Row {
        at: 31_000,
        what: Adds,
        bytes: &[KINGS],
        asks: "B",
        lines: "378 picture rnbq1bnr/pppp1ppp/8/3kp3/4K3/8/PPPP1PPP/RNBQ1BNR
378 result 1-0
378 position rnbqkbnr/pppp1ppp/8/4p3/4P3/8/PPPP1PPP/RNBQKBNR w KQkq e6 0 2
",
        says: Some((Kind::Ended, Some(31_000), 0)),
        due: Some(32_000),
        ..QUIET
    },
    Row {
        at: 32_000,
        asks: "EBK",
        due: Some(33_000),
        ..QUIET
    },
];

/// Another board on the cable, which the arbiter takes at last.
static TAKEN: [Row<'static>; 6] = [
    Row {
        at: 0,
        what: Cable(Owns(OWN)),
        ..QUIET
    },
    Row {
        at: 0,
        what: Cable(Begins),
        says: Some((Kind::Waits, None, 0)),
        ..QUIET
    },
    Row {
        at: 5,
        what: Cable(Opens),
        asks: "EBK",
        handling: "hold",
        due: Some(1_005),
        ..QUIET
    },
    Row {
        at: 40,
        what: Cable(Hears),
        bytes: &[START],
        handling: "hold",
        due: Some(1_005),
        ..QUIET
    },
    Row {
        at: 60,
        what: Cable(Hears),
        bytes: &[OTHERS_NUMBER],
        handling: "other",
        due: Some(1_005),
        ..QUIET
    },
    Row {
        at: 2_000,
        what: Cable(Takes),
        asks: "B",
        kept: &[START, OTHERS_NUMBER],
        lines: "66 picture rnbqkbnr/pppppppp/8/8/8/8/PPPPPPPP/RNBQKBNR
66 agrees
",
        says: Some((Kind::Agrees, Some(2_000), 0)),
        due: Some(3_000),
        ..QUIET
    },
];

/// A pawn in a hand that takes long.
static LONG: [Row<'static>; 5] = [
    Row {
        at: 0,
        what: Cable(Begins),
        says: Some((Kind::Waits, None, 0)),
        ..QUIET
    },
    Row {
        at: 0,
        what: Cable(Opens),
        asks: "EBK",
        due: Some(1_000),
        ..QUIET
    },
    Row {
        at: 100,
        what: Cable(Hears),
        bytes: &[START],
        kept: &[START],
        lines: "66 picture rnbqkbnr/pppppppp/8/8/8/8/PPPPPPPP/RNBQKBNR
66 agrees
",
        says: Some((Kind::Agrees, Some(100), 0)),
        due: Some(1_000),
        ..QUIET
    },
    Row {
        at: 210,
        what: Cable(Hears),
        bytes: &[Lift("e2")],
        kept: &[Lift("e2")],
        lines: "71 picture rnbqkbnr/pppppppp/8/8/8/8/PPPP1PPP/RNBQKBNR
71 differs e2
",
        says: Some((Kind::InHand, Some(210), E2)),
        due: Some(1_000),
        ..QUIET
    },
    Row {
        at: 10_210,
        asks: "B",
        says: Some((Kind::Wrong, Some(210), E2)),
        due: Some(11_210),
        ..QUIET
    },
];

fn is_asked(request: Option<Request>, text: &str) -> bool {
    match request {
        None => text.is_empty(),
        Some(request) => *request.bytes() == *text.as_bytes(),
    }
}

fn handling_text(handling: Handling) -> &'static str {
    match handling {
        Handling::Keep => "keep",
        Handling::Hold => "hold",
        Handling::Other(_) => "other",
    }
}

fn is_state(state: State, stands: Stands) -> bool {
    let (kind, since, squares) = stands;
    state
        == State {
            kind,
            since,
            squares,
            hint: None,
        }
}

fn is_said(said: Option<State>, says: Option<Stands>) -> bool {
    match (said, says) {
        (None, None) => true,
        (Some(state), Some(stands)) => is_state(state, stands),
        _ => false,
    }
}

fn is_answer(answer: &Answer, row: &Row<'_>) -> bool {
    is_asked(answer.request, row.asks)
        && handling_text(answer.handling) == row.handling
        && is_said(answer.state, row.says)
        && answer.is_whole
}

/// Whether a board that has been told a row answers so.
fn is_so(live: &Live, answer: &Answer, lines: &[u8], row: &Row<'_>) -> bool {
    is_answer(answer, row)
        && *lines == *row.lines.as_bytes()
        && *live.kept() == *bytes_of(row.kept).get()
        && live.due(row.at) == row.due
}

/// Tells a board what happens. Whether it answers so.
fn feed(alloc: Global, live: &mut Live, row: &Row<'_>) -> Result<bool, AllocError>
    requires { HasBegun live.old }
    ensures { OnOk result (HasBegun live.new) }
{
    let mut lines = Vec::new(alloc);
    let happened = Happened {
        at: row.at,
        what: row.what,
    };
    let answer = live.take(happened, bytes_of(row.bytes).get(), &mut lines)?;
    Ok(is_so(live, &answer, lines.as_slice(), row))
}

/// Tells a board all of these. Whether it answers so to each.
fn feed_all(alloc: Global, live: &mut Live, rows: &[Row<'_>]) -> Result<bool, AllocError>
    requires { HasBegun live.old }
    ensures { OnOk result (HasBegun live.new) }
{
    let mut all = true;
    'each: for row in rows {
        let is_so = feed(alloc, live, row)?;
        all = all && is_so;
    }
    Ok(all)
}

/// A board that was told all of these, and whether it answered so.
fn told(alloc: Global, rows: &[Row<'_>], more: &[Row<'_>]) -> Result<(Live, bool), AllocError> {
    let method = Method {
        start: Position::initial(),
        first: First::White,
        rotated: false,
        recovers: false,
    };
    let mut live = Live::new(alloc, &method);
    let first = feed_all(alloc, &mut live, rows)?;
    let second = feed_all(alloc, &mut live, more)?;
    // For its clause: what was appended is the report.
    live.conclude();
    Ok((live, first && second))
}

/// Whether a board that is told these rows, and then others, answers so to each.
fn answers(alloc: Global, rows: &[Row<'_>], more: &[Row<'_>]) -> bool {
    match told(alloc, rows, more) {
        Ok((_, all)) => all,
        Err(_) => false,
    }
}

/// Whether a board has this number then and is silent or not, and these bytes are kept aside.
fn has(
    alloc: Global,
    rows: &[Row<'_>],
    serial: Option<[u8; 5]>,
    is_silent: bool,
    aside: &[Signal<'_>],
) -> bool {
    match told(alloc, rows, &[]) {
        Ok((live, _)) => live.serial() == serial
            && live.is_silent() == is_silent
            && *live.aside() == *bytes_of(aside).get(),
        Err(_) => false,
    }
}

/// Whether a board stands so at a later time.
fn stands(alloc: Global, rows: &[Row<'_>], now: u64, so: Stands) -> bool {
    match told(alloc, rows, &[]) {
        Ok((live, _)) => is_state(live.state(now), so),
        Err(_) => false,
    }
}

/// Whether the report begins with the start.
fn begins_with_the_start(alloc: Global) -> bool {
    let Ok((live, _)) = told(alloc, &[], &[]) else {
        return false;
    };
    let mut lines = Vec::new(alloc);
    live.game().first_line(&mut lines).is_ok()
        && *lines.as_slice()
            == *"0 position rnbqkbnr/pppppppp/8/8/8/8/PPPPPPPP/RNBQKBNR w KQkq - 0 1\n".as_bytes()
}

#[test]
fn recorded_boards_are_answered(rt: HostRuntime) {
    let alloc = rt.alloc();
    let holds = [
        begins_with_the_start(alloc),
        answers(alloc, &FIRST_CALL, &NEXT_CALL),
        // a recorder that starts again answers alike
        answers(alloc, &KEPT_OF_IT, &NEXT_CALL),
        answers(alloc, &TAKEN, &[]),
        answers(alloc, &LONG, &[]),
        has(alloc, &[], None, false, &[]),
        has(alloc, &FIRST_CALL[..12], Some(OWN), true, &[]),
        has(alloc, &FIRST_CALL[..13], Some(OWN), false, &[]),
        has(
            alloc,
            &TAKEN[..5],
            Some(OWN),
            false,
            &[START, OTHERS_NUMBER],
        ),
        has(alloc, &TAKEN, Some(ANOTHER), false, &[]),
        stands(alloc, &LONG[..4], 10_209, (Kind::InHand, Some(210), E2)),
        stands(alloc, &LONG[..4], 15_210, (Kind::Wrong, Some(210), E2)),
    ];
    expect_none(&rt, first_false(&holds));
}
