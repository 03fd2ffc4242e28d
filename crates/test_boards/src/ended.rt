//! Where a game without a result ended, worked by hand.

use crate::coded_frames::{expect_none, first_false};
use game_over::{End, Made, StartAgain, end_of};

/// What a move is. Hands go on at once after it, but while a player thinks with a piece in hand.
#[derive(Clone, Copy)]
enum Kind {
    Played,
    Thinks,
    Home,
    Corrects,
    CorrectsHome,
    Added,
    AddedHome,
}

use Kind::{Added, AddedHome, Corrects, CorrectsHome, Home, Played, Thinks};

/// How long each move stood, and what it is; how many are the game's, and whether that is sure.
type Case<'a> = (&'a [(Option<u64>, Kind)], usize, bool);

static CASES: [Case<'static>; 26] = [
    // no line
    (&[], 0, true),
    // no move
    (&[], 0, true),
    // a move, and a set-up
    (&[(Some(21_000), Played)], 1, true),
    // a king home
    (&[(Some(11_000), Played), (Some(1_000), Home)], 1, false),
    // both kings
    (
        &[
            (Some(17_000), Played),
            (Some(2_000), Home),
            (Some(2_000), Home),
        ],
        1,
        false,
    ),
    // a king that had castled
    (
        &[(Some(20_000), Played), (Some(1_000), CorrectsHome)],
        1,
        false,
    ),
    // a rook, and then it castles
    (&[(Some(20_000), Played), (Some(1_000), Corrects)], 2, true),
    // fast moves, the last of them home: it stood longest
    (
        &[
            (Some(500), Played),
            (Some(500), Played),
            (Some(500), Home),
            (Some(2_500), Home),
        ],
        4,
        false,
    ),
    // a bishop, late
    (&[(Some(11_000), Thinks), (Some(10_000), Home)], 2, false),
    // a bishop, 3 s before
    (&[(Some(18_000), Thinks), (Some(3_000), Home)], 2, false),
    // a bishop, less
    (&[(Some(18_100), Played), (Some(2_900), Home)], 1, false),
    // the last move of the game comes back with it
    (
        &[(Some(20_000), Played), (Some(1_000), CorrectsHome)],
        1,
        false,
    ),
    // a move of the game, 1 s before
    (&[(Some(20_000), Played), (Some(1_000), Played)], 2, true),
    // a piece is lifted at once, and set back
    (&[(Some(21_000), Played)], 1, true),
    // a piece is lifted at once, and held
    (&[(Some(400), Thinks)], 1, true),
    // a fault is no change
    (&[(Some(2_000), Thinks), (Some(19_000), Played)], 2, true),
    // what stood for less than 1 s
    (&[(Some(20_100), Played), (Some(900), Played)], 1, false),
    // a rook drawn home
    (
        &[
            (Some(19_000), Played),
            (Some(100), Corrects),
            (Some(1_700), CorrectsHome),
        ],
        1,
        false,
    ),
    // a king drawn home that can't go there
    (&[(Some(19_000), Played), (Some(200), Played)], 1, false),
    // an agreement after the last move is none
    (&[(Some(21_000), Played)], 1, true),
    // nothing else was played
    (&[(Some(25_000), Home)], 1, false),
    // no move would be left: all are kept
    (&[(Some(1_000), Home)], 1, false),
    // no line after the move
    (&[(None, Played)], 1, true),
    // a king home, and typed
    (
        &[(Some(11_000), Played), (Some(1_000), AddedHome)],
        2,
        false,
    ),
    // a king home, and typed moves behind it
    (
        &[
            (Some(11_000), Played),
            (Some(1_000), Home),
            (Some(0), Added),
        ],
        3,
        true,
    ),
    // a king home behind typed moves
    (
        &[(Some(0), Added), (Some(0), Added), (Some(2_000), Home)],
        3,
        false,
    ),
];

const ONE: u64 = 1 << 56;

const TWO: u64 = 3 << 59;

const THREE: u64 = 7 << 56;

const FOUR: u64 = 0x0F << 56;

const FIVE: u64 = 0x1F << 56;

const E2: u64 = 1 << 52;

/// The squares that are off the start, and whether the game is at its start; which of these pictures ends the game.
type Again<'a> = (&'a [(u64, bool)], Option<usize>);

static AGAIN: [Again<'static>; 8] = [
    // set up before the game
    (&[(FIVE, true), (0, true)], None),
    // e4 taken back
    (&[(E2, false), (0, false)], None),
    // four squares
    (&[(FOUR, false), (0, false)], None),
    // five squares
    (&[(FIVE, false), (0, false)], Some(1)),
    // five, and then fewer
    (
        &[(FIVE, false), (ONE, false), (0, false), (0, false)],
        Some(2),
    ),
    // five in all, and never at once
    (&[(THREE, false), (TWO, false), (0, false)], None),
    // a game that stands at the start
    (&[(FIVE, true), (0, true), (E2, false), (0, false)], None),
    // never at the start
    (&[(FIVE, false), (ONE, false)], None),
];

const NO_MOVE: Made = Made {
    stood: None,
    goes_home: false,
    goes_on: false,
    corrects: false,
    is_added: false,
};

fn made(stood: Option<u64>, kind: Kind) -> Made {
    let move_on = Made {
        stood,
        goes_on: true,
        ..NO_MOVE
    };
    match kind {
        Played => move_on,
        Thinks => Made {
            goes_on: false,
            ..move_on
        },
        Home => Made {
            goes_home: true,
            ..move_on
        },
        Corrects => Made {
            corrects: true,
            ..move_on
        },
        CorrectsHome => Made {
            goes_home: true,
            corrects: true,
            ..move_on
        },
        Added => Made {
            is_added: true,
            ..move_on
        },
        AddedHome => Made {
            goes_home: true,
            is_added: true,
            ..move_on
        },
    }
}

/// Where a game of at most four moves ended.
fn end_by(rows: &[(Option<u64>, Kind)]) -> End {
    let mut moves = [NO_MOVE; 4];
    let mut count = 0usize;
    for (stood, kind) in rows {
        if count < 4 {
            moves[count] = made(*stood, *kind);
            count += 1;
        }
    }
    end_of(&moves[..count.min(4)])
}

fn are_ends() -> bool {
    for (rows, kept, is_sure) in &CASES {
        let end = end_by(rows);
        if end.kept != *kept || end.is_sure != *is_sure {
            return false;
        }
    }
    true
}

/// Which of these pictures ends the game, if one does.
fn first_again(pictures: &[(u64, bool)]) -> Option<usize> {
    let mut again = StartAgain::new();
    let mut first = None;
    for (i, (off, at_start)) in pictures.iter().enumerate() {
        if again.take(*off, *at_start) {
            if first.is_some() {
                return None;
            }
            first = Some(i);
        }
    }
    first
}

fn are_again() -> bool {
    for (pictures, expected) in &AGAIN {
        if first_again(pictures) != *expected {
            return false;
        }
    }
    true
}

#[test]
fn games_end_before_a_set_up(rt: HostRuntime) {
    expect_none(&rt, first_false(&[are_ends(), are_again()]));
}
