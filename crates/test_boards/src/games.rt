//! Games while their captures grow, their reports and states worked by hand: a dump has 67 bytes, an update 5.

ghost use Rattle.std.specs.Prelude.{OnOk};
ghost use Rattle.board_game.specs.Games.{HasBegun};

use crate::coded_frames::{expect_none, first_false};
use board_alarms::When;
use board_captures::Method;
use board_game::{Game, Note};
use board_standing::Heard::{Begins, Plugs, Unplugs};
use board_standing::{Heard, Hint, Kind, State};
use chess_rules::Position;
use dgt_frame::First;
use dgt_vectors::captures::Signal::{Dump, Lift, Put};
use dgt_vectors::captures::{INITIAL, Signal, bytes_of};
use std::alloc::{AllocError, Global};

/// What comes of a board.
#[derive(Clone, Copy)]
enum Came<'a> {
    Sent(Signal<'a>),
    Line(Heard),
}

use Came::{Line, Sent};

const START: Came<'static> = Sent(Dump(INITIAL));

const E2_EMPTY: Came<'static> = Sent(Lift("e2"));

const E4_PAWN: Came<'static> = Sent(Put("e4", "P"));

/// 1. e4 e5, and then two hands at once: both knights are lifted, and f3 is set down before c6. Then 3. Bb5.
static HIDDEN: [Came<'static>; 11] = [
    START,
    E2_EMPTY,
    E4_PAWN,
    Sent(Lift("e7")),
    Sent(Put("e5", "p")),
    Sent(Lift("g1")),
    Sent(Lift("b8")),
    Sent(Put("f3", "N")),
    Sent(Put("c6", "n")),
    Sent(Lift("f1")),
    Sent(Put("b5", "B")),
];

/// What the board shows of it.
const SHOWN: &str = "0 position rnbqkbnr/pppppppp/8/8/8/8/PPPPPPPP/RNBQKBNR w KQkq - 0 1
66 picture rnbqkbnr/pppppppp/8/8/8/8/PPPPPPPP/RNBQKBNR
66 agrees
71 picture rnbqkbnr/pppppppp/8/8/8/8/PPPP1PPP/RNBQKBNR
71 differs e2
76 picture rnbqkbnr/pppppppp/8/8/4P3/8/PPPP1PPP/RNBQKBNR
76 move 1. e4
76 position rnbqkbnr/pppppppp/8/8/4P3/8/PPPP1PPP/RNBQKBNR b KQkq e3 0 1
81 picture rnbqkbnr/pppp1ppp/8/8/4P3/8/PPPP1PPP/RNBQKBNR
81 differs e7
86 picture rnbqkbnr/pppp1ppp/8/4p3/4P3/8/PPPP1PPP/RNBQKBNR
86 move 1... e5
86 position rnbqkbnr/pppp1ppp/8/4p3/4P3/8/PPPP1PPP/RNBQKBNR w KQkq e6 0 2
91 picture rnbqkbnr/pppp1ppp/8/4p3/4P3/8/PPPP1PPP/RNBQKB1R
91 differs g1
96 picture r1bqkbnr/pppp1ppp/8/4p3/4P3/8/PPPP1PPP/RNBQKB1R
96 differs b8 g1
101 picture r1bqkbnr/pppp1ppp/8/4p3/4P3/5N2/PPPP1PPP/RNBQKB1R
101 differs b8 f3 g1
106 picture r1bqkbnr/pppp1ppp/2n5/4p3/4P3/5N2/PPPP1PPP/RNBQKB1R
106 differs b8 c6 f3 g1
111 picture r1bqkbnr/pppp1ppp/2n5/4p3/4P3/5N2/PPPP1PPP/RNBQK2R
111 differs b8 c6 f3 f1 g1
116 picture r1bqkbnr/pppp1ppp/2n5/1B2p3/4P3/5N2/PPPP1PPP/RNBQK2R
116 differs b8 c6 b5 f3 f1 g1
";

/// What is put in for the knights, all at the byte that confirms them.
const PUT_IN: &str = "116 recovered 2. Nf3 2... Nc6
116 picture rnbqkbnr/pppp1ppp/8/4p3/4P3/5N2/PPPP1PPP/RNBQKB1R
116 move 2. Nf3
116 position rnbqkbnr/pppp1ppp/8/4p3/4P3/5N2/PPPP1PPP/RNBQKB1R b KQkq - 1 2
116 picture r1bqkbnr/pppp1ppp/2n5/4p3/4P3/5N2/PPPP1PPP/RNBQKB1R
116 move 2... Nc6
116 position r1bqkbnr/pppp1ppp/2n5/4p3/4P3/5N2/PPPP1PPP/RNBQKB1R w KQkq - 2 3
116 picture r1bqkbnr/pppp1ppp/2n5/1B2p3/4P3/5N2/PPPP1PPP/RNBQK2R
116 move 3. Bb5
116 position r1bqkbnr/pppp1ppp/2n5/1B2p3/4P3/5N2/PPPP1PPP/RNBQK2R b KQkq - 3 3
";

fn method_of(recovers: bool) -> Method {
    Method {
        start: Position::initial(),
        first: First::White,
        rotated: false,
        recovers,
    }
}

/// Tells a game what comes at a time.
fn come(game: &mut Game, at: u64, one: &Came<'_>, lines: &mut Vec<u8>) -> Result<(), AllocError>
    requires { HasBegun game.old }
    ensures { OnOk result (HasBegun game.new) }
{
    match one {
        Came::Sent(signal) => {
            let when = When {
                at,
                is_added: false,
            };
            game.take(when, bytes_of(&[*signal]).get(), lines)?;
            Ok(())
        }
        Came::Line(heard) => { game.tell(at, Note::Line(*heard)) }
    }
}

/// A game that was told what came, one thing a second, with what it reported.
fn follow(
    alloc: Global,
    recovers: bool,
    came: &[Came<'_>],
    lines: &mut Vec<u8>,
) -> Result<Game, AllocError> {
    let mut game = Game::new(alloc, &method_of(recovers));
    game.first_line(lines)?;
    let mut at: u64 = 0;
    'all: for one in came {
        come(&mut game, at, one, lines)?;
        at = at.saturating_add(1_000);
    }
    Ok(game)
}

/// Whether these texts, one behind the other, are what is reported of what came.
fn is_reported(alloc: Global, recovers: bool, came: &[Came<'_>], texts: &[&str]) -> bool {
    let mut lines = Vec::new(alloc);
    if follow(alloc, recovers, came, &mut lines).is_err() {
        return false;
    }
    let mut rest: &[u8] = lines.as_slice();
    for text in texts {
        let Some(more) = rest.strip_prefix(text.as_bytes()) else {
            return false;
        };
        rest = more;
    }
    rest.is_empty()
}

/// Both kings on light squares of the centre: White wins.
const KINGS: Came<'static> = Sent(Dump("rnbq1bnr/pppppppp/8/3k4/4K3/8/PPPP1PPP/RNBQ1BNR"));

const E4: Came<'static> = Sent(Dump("rnbqkbnr/pppppppp/8/8/4P3/8/PPPP1PPP/RNBQKBNR"));

/// The start on a board that is turned round.
const TURNED: Came<'static> = Sent(Dump("RNBKQBNR/PPPPPPPP/8/8/8/8/pppppppp/rnbkqbnr"));

const E2: u64 = 1 << 52;

/// The squares b8, c6, b5, f3, f1 and g1.
const SIX: u64 = 1 << 1 | 1 << 18 | 1 << 25 | 1 << 45 | 1 << 61 | 1 << 62;

/// A name, what came a thing a second, a time, and how the board stands then: its state, since when, the squares that are
/// named, and the hint.
type Row<'a> = (
    &'a str,
    &'a [Came<'a>],
    u64,
    (Kind, Option<u64>, u64, Option<Hint>),
);

static ROWS: [Row<'static>; 11] = [
    ("nothing came", &[], 500, (Kind::Waits, None, 0, None)),
    ("the start", &[START], 500, (Kind::Agrees, Some(0), 0, None)),
    (
        "a pawn in a hand",
        &[START, E2_EMPTY],
        1_500,
        (Kind::InHand, Some(1_000), E2, None),
    ),
    (
        "ten seconds later",
        &[START, E2_EMPTY],
        11_000,
        (Kind::Wrong, Some(1_000), E2, None),
    ),
    // a dump that comes again doesn't begin anew
    (
        "the same again",
        &[START, E2_EMPTY, Sent(Lift("e2"))],
        11_000,
        (Kind::Wrong, Some(1_000), E2, None),
    ),
    (
        "a move",
        &[START, E2_EMPTY, E4_PAWN],
        2_500,
        (Kind::Agrees, Some(2_000), 0, None),
    ),
    (
        "the kings",
        &[START, E4, KINGS],
        2_500,
        (Kind::Ended, Some(2_000), 0, None),
    ),
    // the same sign again is no other result
    (
        "the kings again",
        &[START, E4, KINGS, START, KINGS],
        4_500,
        (Kind::Ended, Some(2_000), 0, None),
    ),
    (
        "the line is gone",
        &[START, Line(Unplugs)],
        1_500,
        (Kind::Unplugged, Some(1_000), 0, None),
    ),
    (
        "a recorder begins, and the board shows what it showed",
        &[START, Line(Begins), START],
        2_500,
        (Kind::Agrees, Some(0), 0, None),
    ),
    (
        "turned round",
        &[TURNED],
        500,
        (Kind::SettingUp, Some(0), 0, Some(Hint::TurnedRound)),
    ),
];

/// A board that is plugged in again and shows something else than a move later.
static OTHER: Row<'static> = (
    "another board",
    &[START, E4, Line(Unplugs), Line(Plugs), TURNED],
    4_500,
    (Kind::SettingUp, Some(4_000), 0, Some(Hint::OtherBoard)),
);

fn state_of(alloc: Global, came: &[Came<'_>], now: u64) -> Option<State> {
    let mut lines = Vec::new(alloc);
    match follow(alloc, false, came, &mut lines) {
        Ok(game) => Some(game.state(now)),
        Err(_) => None,
    }
}

fn stands(alloc: Global, row: &Row<'_>) -> bool {
    let (kind, since, squares, hint) = row.3;
    let expected = State {
        kind,
        since,
        squares,
        hint,
    };
    state_of(alloc, row.1, row.2) == Some(expected)
}

/// The number of the first row of which the board stands otherwise.
fn first_unlike(alloc: Global) -> Option<usize> {
    for (i, row) in ROWS.iter().enumerate() {
        if !stands(alloc, row) {
            return Some(i);
        }
    }
    None
}

/// With the pair that is put in the board agrees.
fn pairs_are_heard(alloc: Global) -> bool {
    let mut lines = Vec::new(alloc);
    match follow(alloc, true, &HIDDEN, &mut lines) {
        Ok(game) => game.state(10_000).kind == Kind::Agrees,
        Err(_) => false,
    }
}

#[test]
fn games_are_reported_and_boards_stand(rt: HostRuntime) {
    let alloc = rt.alloc();
    let alone = (Kind::InHand, Some(5_000), SIX, None);
    let holds = [
        is_reported(alloc, false, &HIDDEN, &[SHOWN]),
        is_reported(alloc, true, &HIDDEN, &[SHOWN, PUT_IN]),
        first_unlike(alloc).is_none(),
        stands(alloc, &OTHER),
        pairs_are_heard(alloc),
        // without it the board differs on six squares
        stands(alloc, &("hidden", &HIDDEN, 10_000, alone)),
    ];
    expect_none(&rt, first_false(&holds));
}
