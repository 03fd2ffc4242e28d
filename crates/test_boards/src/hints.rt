//! What may be wrong with a board that shows something else, worked by hand.

use crate::coded_frames::{expect_none, first_false};
use board_standing::Heard::{self, Moves, Plugs, Repeats, Shows, Unplugs};
use board_standing::Hint::{OtherBoard, TurnedRound};
use board_standing::{Event, Hint, Kind, Picture, Standing, State};

/// All squares of the pieces at the start.
const PIECES: u64 = 0xFFFF_0000_0000_FFFF;

/// The squares d5, d7, e2 and e4, and from a1 four squares, five, and the last of these.
const D5: u64 = 1 << 27;

const D7: u64 = 1 << 11;

const E2: u64 = 1 << 52;

const E4: u64 = 1 << 36;

const FOUR: u64 = 0x0F << 56;

const FIVE: u64 = 0x1F << 56;

const E1: u64 = 1 << 60;

const SIX: u64 = 0x3F << 24;

const START: Heard = Shows(Picture {
    differs: 0,
    changed: 0,
    turned: PIECES,
});

/// The start on a board that is turned round.
const TURNED: Heard = Shows(Picture {
    differs: PIECES,
    changed: PIECES,
    turned: 0,
});

/// Three moves were made on it.
const TURNED_IN_PLAY: Heard = Shows(Picture {
    differs: PIECES | SIX,
    changed: PIECES,
    turned: SIX,
});

/// The start without its first five pieces, four, and with all but the fifth.
const WITHOUT_FIVE: Heard = Shows(Picture {
    differs: FIVE,
    changed: FIVE,
    turned: PIECES,
});

const WITHOUT_FOUR: Heard = Shows(Picture {
    differs: FOUR,
    changed: FOUR,
    turned: PIECES,
});

const WITH_FOUR: Heard = Shows(Picture {
    differs: E1,
    changed: FOUR,
    turned: PIECES,
});

/// A name, what is heard, and what may be wrong then.
type Row<'a> = (&'a str, &'a [Heard], Option<Hint>);

static TURNED_ROUND: [Row<'static>; 11] = [
    ("turned round", &[TURNED], Some(TurnedRound)),
    (
        "and played on",
        &[TURNED, TURNED_IN_PLAY],
        Some(TurnedRound),
    ),
    ("only then", &[TURNED_IN_PLAY], None),
    ("put right", &[TURNED, START, TURNED_IN_PLAY], None),
    (
        "while the line was gone",
        &[START, Unplugs, Plugs, TURNED],
        Some(TurnedRound),
    ),
    (
        "a piece is still to come",
        &[Shows(Picture {
            differs: PIECES,
            changed: PIECES,
            turned: 1 << 4,
        })],
        Some(TurnedRound),
    ),
    (
        "an empty board",
        &[Shows(Picture {
            differs: PIECES,
            changed: PIECES,
            turned: PIECES,
        })],
        None,
    ),
    ("right", &[START], None),
    ("in a game", &[START, Moves, TURNED], None),
    (
        "after e4",
        &[Shows(Picture {
            differs: PIECES | D5,
            changed: PIECES,
            turned: D7 | D5,
        })],
        Some(TurnedRound),
    ),
    (
        "after e4, straight",
        &[Shows(Picture {
            differs: E2 | E4,
            changed: E2 | E4,
            turned: PIECES | E4,
        })],
        None,
    ),
];

static OTHER_BOARD: [Row<'static>; 6] = [
    (
        "five squares",
        &[START, Unplugs, Plugs, WITHOUT_FIVE],
        Some(OtherBoard),
    ),
    (
        "it stays",
        &[START, Unplugs, Plugs, WITHOUT_FIVE, Repeats, WITH_FOUR],
        Some(OtherBoard),
    ),
    (
        "until the game's position is there",
        &[START, Unplugs, Plugs, WITHOUT_FIVE, START],
        None,
    ),
    ("four squares", &[START, Unplugs, Plugs, WITHOUT_FOUR], None),
    (
        "the first picture alone",
        &[START, Unplugs, Plugs, Repeats, WITHOUT_FIVE],
        None,
    ),
    ("no picture before", &[Unplugs, Plugs, WITHOUT_FIVE], None),
];

fn state_of(heard: &[Heard]) -> State {
    let mut standing = Standing::new();
    for what in heard {
        standing.take(Event { at: 0, what: *what });
    }
    standing.state(1_000)
}

/// A board with a hint calls somebody; none of these boards does for another reason.
fn is_right(heard: &[Heard], hint: Option<Hint>) -> bool {
    let state = state_of(heard);
    state.hint == hint && state.is_alarm() == hint.is_some()
}

/// The number of the first row whose board is named otherwise.
fn first_unlike(rows: &[Row<'_>]) -> Option<usize> {
    for (i, row) in rows.iter().enumerate() {
        if !is_right(row.1, row.2) {
            return Some(i);
        }
    }
    None
}

/// What is in a hand before a game is being set up.
fn is_set_up_before_a_game() -> bool {
    let waits = state_of(&[]).before_game();
    let lifted = state_of(&[START, WITHOUT_FIVE]).before_game();
    let stands = state_of(&[START]).before_game();
    waits.kind == Kind::SettingUp
        && lifted.kind == Kind::SettingUp
        && lifted.squares == 0
        && stands.kind == Kind::Agrees
}

#[test]
fn boards_that_may_be_wrong_are_named(rt: HostRuntime) {
    let holds = [
        first_unlike(&TURNED_ROUND).is_none(),
        first_unlike(&OTHER_BOARD).is_none(),
        is_set_up_before_a_game(),
    ];
    expect_none(&rt, first_false(&holds));
}
