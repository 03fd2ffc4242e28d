//! Captures in which pieces are moved, with what is recorded of them. All expected values are worked by hand from the
//! protocol, the laws and PGN.

use crate::captures::INITIAL;
use crate::captures::Signal::{Dump, Lift, Put};
use crate::row::{KINGS_PAWN, KINGS_PAWN_OPENING, LATER, PLAIN, Row, TIME};

const KINGS_PAWN_LIFTED: &str = "rnbqkbnr/pppppppp/8/8/8/8/PPPP1PPP/RNBQKBNR";

const CASTLING: &str = "4k3/8/8/8/8/8/8/4K2R w K - 0 1";

const EN_PASSANT: &str = "4k3/8/8/3pP3/8/8/8/4K3 w - d6 0 2";

const PROMOTION: &str = "8/4P2k/8/8/8/8/8/4K3 w - - 0 1";

/// How pieces are lifted and put down.
pub static SETTLING: [Row<'static>; 5] = [
    Row {
        name: "an empty capture is a game without moves",
        capture: &[],
        movetext: "*",
        report: (0, 0, 0, 0),
        ..PLAIN
    },
    KINGS_PAWN_OPENING,
    Row {
        name: "a piece is put down before it is lifted",
        capture: &[Dump(INITIAL), Put("e4", "P"), Lift("e2")],
        movetext: "1. e4 *",
        report: (3, 0, 1, 0),
        ..PLAIN
    },
    Row {
        name: "repeated messages change nothing",
        capture: &[
            Dump(INITIAL),
            Dump(INITIAL),
            Dump(INITIAL),
            Lift("e2"),
            Lift("e2"),
            Dump(KINGS_PAWN_LIFTED),
            Put("e4", "P"),
            Put("e4", "P"),
            Dump(KINGS_PAWN),
        ],
        movetext: "1. e4 *",
        report: (9, 0, 1, 0),
        ..PLAIN
    },
    Row {
        name: "a piece is put back and lifted again",
        capture: &[
            Dump(INITIAL),
            Lift("e2"),
            Put("e2", "P"),
            Dump(INITIAL),
            Lift("e2"),
            Put("e4", "P"),
        ],
        movetext: "1. e4 *",
        report: (6, 0, 1, 0),
        ..PLAIN
    },
];

/// Castling, en passant, captures and promotion.
pub static SPECIAL: [Row<'static>; 5] = [
    Row {
        name: "castling, king first",
        start: CASTLING,
        capture: &[
            Dump("4k3/8/8/8/8/8/8/4K2R"),
            Lift("e1"),
            Put("g1", "K"),
            Lift("h1"),
            Put("f1", "R"),
        ],
        movetext: "1. O-O *",
        report: (5, 0, 1, 0),
        ..PLAIN
    },
    Row {
        name: "castling, rook first: the rook's move is replaced",
        start: CASTLING,
        capture: &[
            Dump("4k3/8/8/8/8/8/8/4K2R"),
            Lift("h1"),
            Put("f1", "R"),
            Lift("e1"),
            Put("g1", "K"),
        ],
        movetext: "1. O-O *",
        report: (5, 0, 1, 0),
        ..PLAIN
    },
    Row {
        name: "en passant settles when the captured pawn is gone",
        start: EN_PASSANT,
        capture: &[
            Dump("4k3/8/8/3pP3/8/8/8/4K3"),
            Lift("e5"),
            Put("d6", "P"),
            Lift("d5"),
        ],
        movetext: "2. exd6 *",
        report: (4, 0, 1, 0),
        ..PLAIN
    },
    Row {
        name: "a capture, the captured piece lifted first",
        start: "4k3/8/8/3p4/4P3/8/8/4K3 w - - 0 1",
        capture: &[
            Dump("4k3/8/8/3p4/4P3/8/8/4K3"),
            Lift("d5"),
            Lift("e4"),
            Put("d5", "P"),
        ],
        movetext: "1. exd5 *",
        report: (4, 0, 1, 0),
        ..PLAIN
    },
    Row {
        name: "a pawn on the last rank waits for its piece",
        start: PROMOTION,
        capture: &[
            Dump("8/4P2k/8/8/8/8/8/4K3"),
            Lift("e7"),
            Put("e8", "P"),
            Put("e8", "N"),
        ],
        movetext: "1. e8=N *",
        report: (4, 0, 1, 0),
        ..PLAIN
    },
];

/// The last move stays open.
pub static LAST_MOVE_OPEN: [Row<'static>; 4] = [
    Row {
        name: "the last move stays open: a shorter step",
        capture: &[
            Dump(INITIAL),
            Lift("e2"),
            Put("e4", "P"),
            Lift("e4"),
            Put("e3", "P"),
        ],
        movetext: "1. e3 *",
        report: (5, 0, 1, 0),
        ..PLAIN
    },
    Row {
        name: "the last move stays open: another promotion",
        start: PROMOTION,
        capture: &[
            Dump("8/4P2k/8/8/8/8/8/4K3"),
            Lift("e7"),
            Put("e8", "N"),
            Put("e8", "Q"),
        ],
        movetext: "1. e8=Q *",
        report: (4, 0, 1, 0),
        ..PLAIN
    },
    Row {
        name: "the last move stays open: on to a capture",
        start: "r3k3/8/8/8/8/8/8/R3K3 w - - 0 1",
        capture: &[
            Dump("r3k3/8/8/8/8/8/8/R3K3"),
            Lift("a1"),
            Put("a4", "R"),
            Lift("a4"),
            Put("a8", "R"),
        ],
        movetext: "1. Rxa8+ *",
        report: (5, 0, 1, 0),
        ..PLAIN
    },
    Row {
        name: "the last move stays open: even a checkmate",
        capture: &[
            Dump(INITIAL),
            Lift("f2"),
            Put("f3", "P"),
            Lift("e7"),
            Put("e5", "p"),
            Lift("g2"),
            Put("g4", "P"),
            Lift("d8"),
            Put("h4", "q"),
            Lift("h4"),
            Put("g5", "q"),
        ],
        movetext: "1. f3 e5 2. g4 Qg5 *",
        report: (11, 0, 4, 0),
        ..PLAIN
    },
];

/// What a replaced move changes, and that the move before the last is closed.
pub static LAST_MOVE_CLOSED: [Row<'static>; 3] = [
    Row {
        name: "the move before the last is closed",
        capture: &[
            Dump(INITIAL),
            Lift("e2"),
            Put("e4", "P"),
            Lift("e7"),
            Put("e5", "p"),
            Lift("e4"),
            Put("e3", "P"),
        ],
        movetext: "1. e4 e5 *",
        report: (7, 0, 2, 0),
        ..PLAIN
    },
    Row {
        name: "a replaced move clears a sign",
        capture: &[
            Dump(INITIAL),
            Lift("d2"),
            Put("d3", "P"),
            Lift("e1"),
            Lift("e8"),
            Put("e4", "K"),
            Put("d5", "k"),
            Lift("e4"),
            Lift("d5"),
            Put("e1", "K"),
            Put("e8", "k"),
            Lift("d3"),
            Put("d4", "P"),
        ],
        movetext: "1. d4 *",
        report: (13, 0, 1, 0),
        ..PLAIN
    },
    Row {
        name: "a replaced move has the time of its own picture",
        capture: &[
            Dump(INITIAL),
            TIME,
            Lift("e2"),
            Put("e4", "P"),
            LATER,
            Lift("e4"),
            Put("e3", "P"),
        ],
        movetext: "1. e3 {[%clk 1:29:50]} *",
        report: (7, 0, 1, 0),
        ..PLAIN
    },
];
