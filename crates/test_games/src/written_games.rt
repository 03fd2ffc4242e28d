//! Games that are written and read back.

use crate::failed_writes::empty_game_stops_after_ten;
use crate::games::{CASTLING, EMPTY, Row, expect_none, first_false, game, is_written_as};
use chess_game::Game;
use pgn_book::read_pgn;
use settle_core::Outcome;
use std::alloc::Global;

/// The text reads back as a game with the same text, as many plies and the same result.
fn reads_back(alloc: Global, text: &[u8], game: &Game) -> bool {
    match read_pgn(alloc, text) {
        Ok(read) => is_written_as(alloc, &read, text)
            && read.plies().len() == game.plies().len()
            && read.result() == game.result(),
        Err(_) => false,
    }
}

/// The row's game has this text, which reads back.
fn has_text(alloc: Global, row: &Row<'_>, text: &[u8]) -> bool {
    match game(alloc, row) {
        Some(game) => is_written_as(alloc, &game, text) && reads_back(alloc, text, &game),
        None => false,
    }
}

/// The row's game has its text, which reads back.
fn holds(alloc: Global, row: &Row<'_>) -> bool {
    has_text(alloc, row, row.text().get())
}

/// The number of the first row that doesn't hold, from 0.
fn first_failing(alloc: Global, rows: &[Row<'_>]) -> Option<usize> {
    for (number, row) in rows.iter().enumerate() {
        if !holds(alloc, row) {
            return Some(number);
        }
    }
    None
}

const ONE_MOVE: Row<'static> = Row {
    moves: "e4",
    movetext: "1. e4 *",
    ..EMPTY
};

static GAMES: [Row<'static>; 4] = [
    EMPTY,
    ONE_MOVE,
    Row {
        sign: Some(Outcome::WhiteWins),
        outcome: "1-0",
        movetext: "1-0",
        ..EMPTY
    },
    Row {
        sign: Some(Outcome::Drawn),
        outcome: "1/2-1/2",
        moves: "e4 e5",
        movetext: "1. e4 e5 1/2-1/2",
        ..EMPTY
    },
];

const MATED: Row<'static> = Row {
    outcome: "0-1",
    moves: "f3 e5 g4 Qh4#",
    movetext: "1. f3 e5 2. g4 Qh4# 0-1",
    ..EMPTY
};

static MATES: [Row<'static>; 3] = [
    MATED,
    Row {
        sign: Some(Outcome::WhiteWins),
        ..MATED
    },
    Row {
        sign: Some(Outcome::BlackWins),
        ..MATED
    },
];

static TIMED: [Row<'static>; 3] = [
    Row {
        moves: "e4 e5",
        clocks: &[Some([1, 30, 0]), Some([1, 29, 59])],
        movetext: "1. e4 {[%clk 1:30:00]} 1... e5 {[%clk 1:29:59]} *",
        ..EMPTY
    },
    Row {
        moves: "e4 e5",
        clocks: &[Some([1, 30, 0])],
        movetext: "1. e4 {[%clk 1:30:00]} 1... e5 *",
        ..EMPTY
    },
    Row {
        moves: "e4 e5 Nf3 Nc6",
        clocks: &[None, Some([0, 0, 7])],
        movetext: "1. e4 e5 {[%clk 0:00:07]} 2. Nf3 Nc6 *",
        ..EMPTY
    },
];

/// White castles short, and the text of it as it stands in a file.
static CASTLES: Row<'static> = Row {
    start: CASTLING,
    moves: "O-O",
    movetext: "1. O-O *",
    ..EMPTY
};

const CASTLED: &[u8] =
    b"[Event \"?\"]\n[Site \"?\"]\n[Date \"????.??.??\"]\n[Round \"?\"]\n[White \"?\"]\n[Black \"?\"]\n[Result \"*\"]\n[FEN \"4k3/8/8/8/8/8/8/4K2R w K - 0 1\"]\n[SetUp \"1\"]\n\n1. O-O *\n\n";

static SET_UP: [Row<'static>; 3] = [
    Row {
        start: CASTLING,
        moves: "Rf1",
        movetext: "1. Rf1 *",
        ..EMPTY
    },
    Row {
        start: "4k3/8/8/8/8/8/8/4K3 b - - 9999 9999",
        moves: "Kd8 Kd1 Kc8",
        movetext: "9999... Kd8 9999. Kd1 Kc8 *",
        ..EMPTY
    },
    Row {
        start: "4k3/8/8/3pP3/8/8/8/4K3 w - d6 0 2",
        moves: "exd6",
        movetext: "2. exd6 *",
        ..EMPTY
    },
];

const FULL: &str =
    "1. a3 a6 2. b3 b6 3. c3 c6 4. d3 d6 5. e3 e6 6. Nf3 Nf6 7. Ng1 Ng8 8. Nf3 Nf6 *";

const BROKEN: &str =
    "1. a3 a6 2. b3 b6 3. c3 c6 4. d3 d6 5. e3 Nf6 6. Nf3 Ng8 7. Ng1 Nf6 8. Nf3 Ng8\n*";

static FILLED: [Row<'static>; 2] = [
    Row {
        moves: "a3 a6 b3 b6 c3 c6 d3 d6 e3 e6 Nf3 Nf6 Ng1 Ng8 Nf3 Nf6",
        movetext: FULL,
        ..EMPTY
    },
    Row {
        moves: "a3 a6 b3 b6 c3 c6 d3 d6 e3 Nf6 Nf3 Ng8 Ng1 Nf6 Nf3 Ng8",
        movetext: BROKEN,
        ..EMPTY
    },
];

#[test]
fn games_are_written_and_read(rt: HostRuntime) {
    let alloc = rt.alloc();
    let holds = [
        first_failing(alloc, &GAMES).is_none(),
        // mate decides, whatever the sign
        first_failing(alloc, &MATES).is_none(),
        // a clock's comment asks for the number
        first_failing(alloc, &TIMED).is_none(),
        // another start is set up
        has_text(alloc, &CASTLES, CASTLED),
        first_failing(alloc, &SET_UP).is_none(),
        // lines are filled to 79
        FULL.len() == 79 && BROKEN.len() == 80,
        first_failing(alloc, &FILLED).is_none(),
        empty_game_stops_after_ten(alloc),
    ];
    expect_none(&rt, first_false(&holds));
}
