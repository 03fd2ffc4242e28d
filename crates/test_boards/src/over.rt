//! When a game is over, worked by hand from the cases of the recorders.

use game_over::{Ending, Event, Happening, Move, Outcome, Over, Said, Shown, Why};
use std::alloc::{AllocError, Global};

const PLAYS: Happening = Happening::Moves(Move {
    goes_home: false,
    corrects: false,
    is_added: false,
});

const HOME: Happening = Happening::Moves(Move {
    goes_home: true,
    corrects: false,
    is_added: false,
});

const CORRECTS: Happening = Happening::Moves(Move {
    goes_home: false,
    corrects: true,
    is_added: false,
});

const CORRECTS_HOME: Happening = Happening::Moves(Move {
    goes_home: true,
    corrects: true,
    is_added: false,
});

const ADDS: Happening = Happening::Moves(Move {
    goes_home: false,
    corrects: false,
    is_added: true,
});

const ADDS_HOME: Happening = Happening::Moves(Move {
    goes_home: true,
    corrects: false,
    is_added: true,
});

const AGREES: Happening = Happening::Agrees;

const DIFFERS: Happening = Happening::Differs;
/// Mate or stalemate.
const MATES: Happening = Happening::Ends {
    outcome: Outcome::WhiteWins,
    is_added: false,
};

const STALEMATES: Happening = Happening::Ends {
    outcome: Outcome::Draw,
    is_added: false,
};
/// A mate that is typed.
const TYPES_MATE: Happening = Happening::Ends {
    outcome: Outcome::WhiteWins,
    is_added: true,
};
/// The kings.
const ONE_NIL: Happening = Happening::Declares {
    outcome: Outcome::WhiteWins,
    is_added: false,
};

const NIL_ONE: Happening = Happening::Declares {
    outcome: Outcome::BlackWins,
    is_added: false,
};
/// An arbiter.
const TYPES_ONE_NIL: Happening = Happening::Declares {
    outcome: Outcome::WhiteWins,
    is_added: true,
};

const REOPENS: Happening = Happening::Reopens;

const RESUMES: Happening = Happening::Resumes;

const GOES_BACK: Happening = Happening::GoesBack;

const PASSES: Happening = Happening::Passes;

const HEARS: Happening = Happening::Hears;
/// Five squares are off the start.
const FAR: Happening = Happening::Shows(Shown {
    off: 0x1F << 56,
    at_start: false,
});
/// Four are, and fewer.
const FOUR: Happening = Happening::Shows(Shown {
    off: 0x0F << 56,
    at_start: false,
});

const ONE: Happening = Happening::Shows(Shown {
    off: 1 << 56,
    at_start: false,
});
/// None is, and the game isn't there.
const START: Happening = Happening::Shows(Shown {
    off: 0,
    at_start: false,
});
/// None is, and the game is there.
const AT_START: Happening = Happening::Shows(Shown {
    off: 0,
    at_start: true,
});

const FAR_AT_START: Happening = Happening::Shows(Shown {
    off: 0x1F << 56,
    at_start: true,
});

/// When, with how many bytes, what.
type Row = (u64, u64, Happening);

/// What happens in a game that has agreed, before five squares are off the start, and then the start is shown again; how many bytes
/// are the game's, and whether that is sure.
type SetUp<'a> = (&'a [Row], u64, bool);

static SET_UPS: [SetUp<'static>; 23] = [
    // a move, and a set-up
    (
        &[
            (1_000, 67, AGREES),
            (9_000, 82, PLAYS),
            (30_000, 111, DIFFERS),
            (31_000, 121, DIFFERS),
            (32_000, 131, DIFFERS),
            (33_000, 141, DIFFERS),
        ],
        82,
        true,
    ),
    // a king home
    (
        &[
            (9_000, 82, PLAYS),
            (20_000, 92, HOME),
            (21_000, 93, DIFFERS),
        ],
        82,
        false,
    ),
    // both kings
    (
        &[
            (9_000, 82, PLAYS),
            (26_000, 92, HOME),
            (28_000, 96, HOME),
            (30_000, 111, DIFFERS),
            (31_000, 121, DIFFERS),
            (32_000, 131, DIFFERS),
            (33_000, 141, DIFFERS),
        ],
        82,
        false,
    ),
    // a king that had castled
    (
        &[
            (9_000, 82, PLAYS),
            (29_000, 92, CORRECTS_HOME),
            (30_000, 111, DIFFERS),
            (31_000, 121, DIFFERS),
            (32_000, 131, DIFFERS),
            (33_000, 141, DIFFERS),
        ],
        82,
        false,
    ),
    // a rook, and then it castles
    (
        &[
            (9_000, 82, PLAYS),
            (29_000, 92, CORRECTS),
            (30_000, 111, DIFFERS),
            (31_000, 121, DIFFERS),
            (32_000, 131, DIFFERS),
            (33_000, 141, DIFFERS),
        ],
        92,
        true,
    ),
    // fast moves, the last of them home: it stood longest
    (
        &[
            (9_000, 82, PLAYS),
            (9_500, 86, PLAYS),
            (10_000, 90, HOME),
            (10_500, 94, HOME),
            (13_000, 98, DIFFERS),
        ],
        94,
        false,
    ),
    // a bishop, late
    (
        &[
            (9_000, 82, PLAYS),
            (20_000, 92, HOME),
            (30_000, 111, DIFFERS),
            (31_000, 121, DIFFERS),
            (32_000, 131, DIFFERS),
            (33_000, 141, DIFFERS),
        ],
        92,
        false,
    ),
    // a bishop, 3 s before
    (
        &[
            (9_000, 82, PLAYS),
            (27_000, 92, HOME),
            (30_000, 111, DIFFERS),
            (31_000, 121, DIFFERS),
            (32_000, 131, DIFFERS),
            (33_000, 141, DIFFERS),
        ],
        92,
        false,
    ),
    // a bishop, less
    (
        &[
            (9_000, 82, PLAYS),
            (27_100, 92, HOME),
            (30_000, 111, DIFFERS),
            (31_000, 121, DIFFERS),
            (32_000, 131, DIFFERS),
            (33_000, 141, DIFFERS),
        ],
        82,
        false,
    ),
    // the last move of the game comes back with it
    (
        &[
            (9_000, 82, PLAYS),
            (29_000, 92, CORRECTS_HOME),
            (30_000, 111, DIFFERS),
            (31_000, 121, DIFFERS),
            (32_000, 131, DIFFERS),
            (33_000, 141, DIFFERS),
        ],
        82,
        false,
    ),
    // a move of the game, 1 s before
    (
        &[
            (9_000, 82, PLAYS),
            (29_000, 92, PLAYS),
            (30_000, 111, DIFFERS),
            (31_000, 121, DIFFERS),
            (32_000, 131, DIFFERS),
            (33_000, 141, DIFFERS),
        ],
        92,
        true,
    ),
    // a piece is lifted at once, and set back
    (
        &[
            (9_000, 82, PLAYS),
            (9_500, 92, DIFFERS),
            (11_000, 97, AGREES),
            (30_000, 111, DIFFERS),
            (31_000, 121, DIFFERS),
            (32_000, 131, DIFFERS),
            (33_000, 141, DIFFERS),
        ],
        82,
        true,
    ),
    // a piece is lifted at once, and held
    (
        &[
            (9_000, 82, PLAYS),
            (9_400, 97, DIFFERS),
            (30_000, 111, DIFFERS),
            (31_000, 121, DIFFERS),
            (32_000, 131, DIFFERS),
            (33_000, 141, DIFFERS),
        ],
        82,
        true,
    ),
    // a fault is no change
    (
        &[
            (9_000, 82, PLAYS),
            (11_000, 92, PLAYS),
            (30_000, 111, DIFFERS),
            (31_000, 121, DIFFERS),
            (32_000, 131, DIFFERS),
            (33_000, 141, DIFFERS),
        ],
        92,
        true,
    ),
    // what stood for less than 1 s
    (
        &[
            (9_000, 82, PLAYS),
            (29_100, 92, PLAYS),
            (30_000, 111, DIFFERS),
            (31_000, 121, DIFFERS),
            (32_000, 131, DIFFERS),
            (33_000, 141, DIFFERS),
        ],
        82,
        false,
    ),
    // a rook drawn home
    (
        &[
            (9_000, 82, PLAYS),
            (28_000, 92, CORRECTS),
            (28_100, 96, DIFFERS),
            (28_300, 100, CORRECTS_HOME),
            (30_000, 111, DIFFERS),
            (31_000, 121, DIFFERS),
            (32_000, 131, DIFFERS),
            (33_000, 141, DIFFERS),
        ],
        82,
        false,
    ),
    // a king drawn home that can't go there
    (
        &[
            (9_000, 82, PLAYS),
            (28_000, 92, PLAYS),
            (28_200, 96, DIFFERS),
            (28_600, 100, DIFFERS),
            (30_000, 111, DIFFERS),
            (31_000, 121, DIFFERS),
            (32_000, 131, DIFFERS),
            (33_000, 141, DIFFERS),
        ],
        82,
        false,
    ),
    // an agreement after the last move is none
    (
        &[
            (9_000, 82, PLAYS),
            (12_000, 92, DIFFERS),
            (13_000, 96, AGREES),
            (30_000, 111, DIFFERS),
            (31_000, 121, DIFFERS),
            (32_000, 131, DIFFERS),
            (33_000, 141, DIFFERS),
        ],
        82,
        true,
    ),
    // nothing else was played
    (
        &[
            (5_000, 72, HOME),
            (30_000, 111, DIFFERS),
            (31_000, 121, DIFFERS),
            (32_000, 131, DIFFERS),
            (33_000, 141, DIFFERS),
        ],
        72,
        false,
    ),
    // no move would be left: all are kept
    (
        &[
            (29_000, 72, HOME),
            (30_000, 111, DIFFERS),
            (31_000, 121, DIFFERS),
            (32_000, 131, DIFFERS),
            (33_000, 141, DIFFERS),
        ],
        72,
        false,
    ),
    // no line after the move
    (&[(9_000, 82, PLAYS)], 82, true),
    // a king home that was typed
    (
        &[
            (9_000, 82, PLAYS),
            (20_000, 92, ADDS_HOME),
            (21_000, 93, DIFFERS),
        ],
        92,
        false,
    ),
    // two moves at once, and then nobody for three seconds with a piece in hand
    (
        &[
            (9_000, 82, PLAYS),
            (28_000, 92, PLAYS),
            (28_100, 96, DIFFERS),
            (31_100, 100, DIFFERS),
        ],
        92,
        true,
    ),
];

/// What is said.
#[derive(Clone, Copy)]
enum Expected {
    /// The game is over: why, its result, its bytes, whether that is sure.
    Ends(Why, Option<Outcome>, u64, bool),
    Begins,
    GoesOn(u64),
}

use Expected::{Begins, Ends, GoesOn};

/// What happens; to which of it something is said, and what; when the game then ends by time alone.
type Course<'a> = (&'a [Row], &'a [(usize, Expected)], Option<u64>);

static COURSES: [Course<'static>; 35] = [
    // the kings show a result
    (
        &[
            (9_000, 82, PLAYS),
            (20_000, 90, DIFFERS),
            (20_000, 90, ONE_NIL),
            (29_999, 90, HEARS),
            (30_000, 90, HEARS),
            (40_000, 90, HEARS),
        ],
        &[(4, Ends(Why::Stood, Some(Outcome::WhiteWins), 90, true))],
        None,
    ),
    // it stands for ten seconds
    (
        &[
            (9_000, 82, PLAYS),
            (20_000, 90, ONE_NIL),
            (25_000, 90, HEARS),
        ],
        &[],
        Some(37_000),
    ),
    // the board isn't heard: time alone ends the game seven seconds later, and somebody must look
    (
        &[
            (9_000, 82, PLAYS),
            (20_000, 90, ONE_NIL),
            (36_999, 90, PASSES),
            (37_000, 90, PASSES),
        ],
        &[(3, Ends(Why::Stood, Some(Outcome::WhiteWins), 90, false))],
        None,
    ),
    // an arbiter gives the result: no board is needed
    (
        &[
            (9_000, 82, PLAYS),
            (20_000, 90, TYPES_ONE_NIL),
            (29_999, 90, PASSES),
            (30_000, 90, PASSES),
        ],
        &[(3, Ends(Why::Stood, Some(Outcome::WhiteWins), 90, true))],
        None,
    ),
    // he adds the move that mates
    (
        &[
            (9_000, 82, ADDS),
            (9_000, 82, TYPES_MATE),
            (19_000, 82, PASSES),
        ],
        &[(2, Ends(Why::Stood, Some(Outcome::WhiteWins), 82, true))],
        None,
    ),
    // it is taken off
    (
        &[
            (9_000, 82, PLAYS),
            (20_000, 90, ONE_NIL),
            (29_999, 95, REOPENS),
            (30_000, 95, HEARS),
            (90_000, 95, HEARS),
        ],
        &[],
        None,
    ),
    // it is taken off, and this process was stopped meanwhile
    (
        &[
            (9_000, 82, PLAYS),
            (20_000, 90, ONE_NIL),
            (33_000, 95, REOPENS),
            (33_000, 95, HEARS),
        ],
        &[],
        None,
    ),
    // it becomes another one
    (
        &[
            (9_000, 82, PLAYS),
            (20_000, 90, ONE_NIL),
            (25_000, 97, NIL_ONE),
            (30_000, 97, HEARS),
            (35_000, 97, HEARS),
        ],
        &[(4, Ends(Why::Stood, Some(Outcome::BlackWins), 97, true))],
        None,
    ),
    // stalemate
    (
        &[
            (9_000, 82, PLAYS),
            (20_000, 90, PLAYS),
            (20_000, 90, STALEMATES),
            (30_000, 90, HEARS),
        ],
        &[(3, Ends(Why::Stood, Some(Outcome::Draw), 90, true))],
        None,
    ),
    // mate that is corrected
    (
        &[
            (9_000, 82, PLAYS),
            (20_000, 90, PLAYS),
            (20_000, 90, MATES),
            (21_000, 95, CORRECTS),
            (30_000, 95, HEARS),
            (60_000, 95, HEARS),
        ],
        &[],
        None,
    ),
    // to another mate
    (
        &[
            (9_000, 82, PLAYS),
            (20_000, 90, PLAYS),
            (20_000, 90, MATES),
            (21_000, 95, CORRECTS),
            (21_000, 95, MATES),
            (30_000, 95, HEARS),
            (31_000, 95, HEARS),
        ],
        &[(6, Ends(Why::Stood, Some(Outcome::WhiteWins), 95, true))],
        None,
    ),
    // moves after the kings
    (
        &[
            (9_000, 82, PLAYS),
            (20_000, 90, ONE_NIL),
            (25_000, 95, PLAYS),
            (27_000, 100, PLAYS),
            (28_000, 105, CORRECTS),
            (30_000, 110, PLAYS),
        ],
        &[
            (2, Ends(Why::PlaysOn, Some(Outcome::WhiteWins), 90, true)),
            (3, GoesOn(2)),
            (4, GoesOn(2)),
            (5, GoesOn(3)),
        ],
        None,
    ),
    // pieces are carried home after the end
    (
        &[
            (9_000, 82, PLAYS),
            (20_000, 90, ONE_NIL),
            (30_000, 90, HEARS),
            (31_000, 95, HOME),
            (32_000, 99, HOME),
            (33_000, 103, HOME),
        ],
        &[
            (2, Ends(Why::Stood, Some(Outcome::WhiteWins), 90, true)),
            (5, GoesOn(3)),
        ],
        None,
    ),
    // and one isn't
    (
        &[
            (9_000, 82, PLAYS),
            (20_000, 90, ONE_NIL),
            (30_000, 90, HEARS),
            (31_000, 95, HOME),
            (32_000, 99, PLAYS),
        ],
        &[
            (2, Ends(Why::Stood, Some(Outcome::WhiteWins), 90, true)),
            (4, GoesOn(2)),
        ],
        None,
    ),
    // what an arbiter adds after the end isn't played
    (
        &[
            (9_000, 82, PLAYS),
            (20_000, 90, ONE_NIL),
            (30_000, 90, HEARS),
            (31_000, 95, ADDS),
            (32_000, 99, ADDS),
            (33_000, 103, ADDS),
        ],
        &[(2, Ends(Why::Stood, Some(Outcome::WhiteWins), 90, true))],
        None,
    ),
    // another game after the end
    (
        &[
            (9_000, 82, PLAYS),
            (20_000, 90, ONE_NIL),
            (30_000, 90, HEARS),
            (60_000, 150, FAR),
            (61_000, 170, START),
            (70_000, 180, PLAYS),
            (80_000, 190, PLAYS),
        ],
        &[(2, Ends(Why::Stood, Some(Outcome::WhiteWins), 90, true))],
        None,
    ),
    // moves that were missed are added after the kings
    (
        &[
            (9_000, 82, PLAYS),
            (20_000, 90, ONE_NIL),
            (25_000, 120, ADDS),
            (30_000, 120, HEARS),
            (60_000, 120, HEARS),
        ],
        &[],
        None,
    ),
    // the last move is corrected after the kings
    (
        &[
            (9_000, 82, PLAYS),
            (20_000, 90, ONE_NIL),
            (22_000, 95, CORRECTS),
            (40_000, 95, HEARS),
        ],
        &[(2, Ends(Why::Corrected, Some(Outcome::WhiteWins), 90, false))],
        None,
    ),
    // set up at once after a result
    (
        &[
            (1_000, 67, AGREES),
            (9_000, 82, PLAYS),
            (20_000, 90, ONE_NIL),
            (22_000, 110, FAR),
            (25_000, 140, START),
            (26_000, 150, PLAYS),
            (27_000, 160, PLAYS),
        ],
        &[(4, Ends(Why::SetUp, Some(Outcome::WhiteWins), 90, true))],
        None,
    ),
    // the first piece that is carried home looks like a move
    (
        &[
            (1_000, 67, AGREES),
            (9_000, 82, PLAYS),
            (20_000, 90, DIFFERS),
            (20_000, 90, ONE_NIL),
            (24_000, 97, HOME),
            (25_000, 101, FAR),
            (30_000, 150, START),
        ],
        &[(4, Ends(Why::PlaysOn, Some(Outcome::WhiteWins), 90, true))],
        None,
    ),
    // or after mate like a correction
    (
        &[
            (1_000, 67, AGREES),
            (9_000, 82, PLAYS),
            (20_000, 92, PLAYS),
            (20_000, 92, MATES),
            (24_000, 97, CORRECTS_HOME),
            (25_000, 101, DIFFERS),
            (25_000, 101, FAR),
            (30_000, 150, START),
        ],
        &[(
            7,
            Ends(Why::Unfinished, Some(Outcome::WhiteWins), 92, false),
        )],
        None,
    ),
    // moves from the start after a game without a result
    (
        &[
            (1_000, 67, AGREES),
            (9_000, 82, PLAYS),
            (30_000, 110, DIFFERS),
            (30_000, 110, FAR),
            (35_000, 140, START),
            (60_000, 150, PLAYS),
            (70_000, 160, PLAYS),
        ],
        &[(4, Ends(Why::Unfinished, None, 82, true)), (6, GoesOn(2))],
        None,
    ),
    // a game ends once, until it is reopened
    (
        &[
            (9_000, 82, PLAYS),
            (20_000, 90, ONE_NIL),
            (30_000, 90, HEARS),
            (31_000, 90, NIL_ONE),
            (41_000, 90, HEARS),
            (50_000, 95, REOPENS),
            (60_000, 99, PLAYS),
            (70_000, 110, NIL_ONE),
            (80_000, 110, HEARS),
        ],
        &[
            (2, Ends(Why::Stood, Some(Outcome::WhiteWins), 90, true)),
            (8, Ends(Why::Stood, Some(Outcome::BlackWins), 110, true)),
        ],
        None,
    ),
    // a game that went back ends behind what was written for that
    (
        &[
            (1_000, 150, ADDS),
            (1_000, 160, ADDS_HOME),
            (1_000, 200, GOES_BACK),
            (9_000, 220, DIFFERS),
            (9_000, 220, FAR),
            (12_000, 260, START),
        ],
        &[(5, Ends(Why::Unfinished, None, 200, true))],
        None,
    ),
    // also with a result
    (
        &[
            (1_000, 150, ADDS),
            (1_000, 160, ONE_NIL),
            (1_000, 200, GOES_BACK),
            (11_000, 200, HEARS),
        ],
        &[(3, Ends(Why::Stood, Some(Outcome::WhiteWins), 200, true))],
        None,
    ),
    // or with the moves after it
    (
        &[
            (1_000, 150, ADDS),
            (1_000, 200, GOES_BACK),
            (9_000, 220, PLAYS),
            (30_000, 230, FAR),
            (31_000, 260, START),
        ],
        &[(4, Ends(Why::Unfinished, None, 220, true))],
        None,
    ),
    // one move, and the board has never agreed
    (
        &[(5_000, 72, PLAYS), (6_000, 80, FAR), (7_000, 90, START)],
        &[(2, Begins)],
        None,
    ),
    // a move that is taken back
    (
        &[
            (1_000, 67, AGREES),
            (9_000, 82, PLAYS),
            (9_000, 82, ONE),
            (12_000, 90, DIFFERS),
            (12_000, 90, START),
        ],
        &[],
        None,
    ),
    // four squares
    (
        &[
            (1_000, 67, AGREES),
            (9_000, 82, PLAYS),
            (12_000, 90, FOUR),
            (13_000, 95, START),
        ],
        &[],
        None,
    ),
    // five, and then fewer
    (
        &[
            (1_000, 67, AGREES),
            (9_000, 82, PLAYS),
            (12_000, 90, FAR),
            (13_000, 95, ONE),
            (14_000, 99, START),
            (15_000, 103, START),
        ],
        &[(4, Ends(Why::Unfinished, None, 82, true))],
        None,
    ),
    // a game that is at its start
    (
        &[
            (1_000, 67, AGREES),
            (9_000, 82, PLAYS),
            (12_000, 90, FAR_AT_START),
            (13_000, 95, AT_START),
            (14_000, 99, ONE),
            (15_000, 103, START),
        ],
        &[],
        None,
    ),
    // the board was not heard for a time
    (
        &[
            (9_000, 82, PLAYS),
            (20_000, 90, ONE_NIL),
            (25_000, 90, RESUMES),
            (34_000, 90, HEARS),
        ],
        &[],
        Some(42_000),
    ),
    // and then it stands
    (
        &[
            (9_000, 82, PLAYS),
            (20_000, 90, ONE_NIL),
            (25_000, 90, RESUMES),
            (35_000, 90, HEARS),
        ],
        &[(3, Ends(Why::Stood, Some(Outcome::WhiteWins), 90, true))],
        None,
    ),
    // one move, which was added
    (
        &[(5_000, 72, ADDS), (6_000, 80, FAR), (7_000, 90, START)],
        &[(2, Ends(Why::Unfinished, None, 72, true))],
        None,
    ),
    // set up before the game
    (
        &[
            (1_000, 40, FAR_AT_START),
            (2_000, 67, AGREES),
            (2_000, 67, AT_START),
        ],
        &[],
        None,
    ),
];

fn event(row: Row) -> Event {
    let (at, bytes, what) = row;
    Event { at, bytes, what }
}

fn is_over_so(over: Over, why: Why, outcome: Option<Outcome>, bytes: u64, is_sure: bool) -> bool {
    over.why == why && over.result == outcome && over.bytes == bytes && over.is_sure == is_sure
}

fn is_said(said: Said, expected: Option<Expected>) -> bool {
    match (said, expected) {
        (Said::Nothing, None) => true,
        (Said::BeginsNow, Some(Begins)) => true,
        (Said::GoesOn(count), Some(GoesOn(expected))) => count == expected,
        (Said::IsOver(over), Some(Ends(why, outcome, bytes, is_sure))) => is_over_so(
            over, why, outcome, bytes, is_sure,
        ),
        _ => false,
    }
}

/// What is said to the event with this number.
fn expected_at(said: &[(usize, Expected)], i: usize) -> Option<Expected> {
    for (at, expected) in said {
        if *at == i {
            return Some(*expected);
        }
    }
    None
}

/// Whether this is said, and nothing else.
fn is_course(alloc: Global, course: Course) -> Result<bool, AllocError> {
    let (rows, said, due) = course;
    let mut ending = Ending::new(alloc);
    for (i, row) in rows.iter().enumerate() {
        if !is_said(ending.take(event(*row))?, expected_at(said, i)) {
            return Ok(false);
        }
    }
    Ok(ending.due() == due)
}

fn first_other_course(alloc: Global) -> Result<Option<usize>, AllocError> {
    for (i, course) in COURSES.iter().enumerate() {
        if !is_course(alloc, *course)? {
            return Ok(Some(i));
        }
    }
    Ok(None)
}

/// Where a game with this ends, once it is set up again.
fn set_up_after(alloc: Global, rows: &[Row]) -> Result<Said, AllocError> {
    let mut ending = Ending::new(alloc);
    ending.take(event((1_000, 67, AGREES)))?;
    let mut last = 1_000u64;
    for row in rows {
        let (at, _, _) = *row;
        last = at;
        if !is_said(ending.take(event(*row))?, None) {
            return Ok(Said::Nothing);
        }
    }
    ending.take(event((last, 200, FAR)))?;
    ending.take(event((last, 250, START)))
}

fn first_other_set_up(alloc: Global) -> Result<Option<usize>, AllocError> {
    for (i, (rows, bytes, is_sure)) in SET_UPS.iter().enumerate() {
        let said = set_up_after(alloc, rows)?;
        if !is_said(said, Some(Ends(Why::Unfinished, None, *bytes, *is_sure))) {
            return Ok(Some(i));
        }
    }
    Ok(None)
}

#[test]
fn games_are_over(rt: HostRuntime) {
    let courses = first_other_course(rt.alloc());
    assert_eq!(rt; courses, Ok(None));
    let set_ups = first_other_set_up(rt.alloc());
    assert_eq!(rt; set_ups, Ok(None));
}
