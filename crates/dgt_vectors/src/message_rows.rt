//! Captures with faults, times, signs and turned boards, with what is recorded of them. All expected values are worked
//! by hand from the protocol, the laws and PGN.

use crate::captures::INITIAL;
use crate::captures::Signal::{
    self, Dump, Lift, Put, Raw, Time, TurnedDump, TurnedLift, TurnedPut,
};
use crate::row::{CUT_AND_DUMP, CUT_UPDATE, LATER, PLAIN, Row, TIME, UNKNOWN_CODE};
use dgt_frame::First;

const OPEN_GAME: &str = "rnbqkbnr/pppp1ppp/8/4p3/4P3/8/PPPP1PPP/RNBQKBNR";

const ACKNOWLEDGEMENT: Signal<'static> = Time([0x0A, 0x00, 0x00, 0x0A, 0x00, 0x00, 0x00]);

/// 70 minutes.
const BAD_TIME: Signal<'static> = Time([0x00, 0x70, 0x00, 0x00, 0x30, 0x00, 0x00]);

const NO_CLOCK: Signal<'static> = Time([0x01, 0x30, 0x00, 0x01, 0x29, 0x59, 0x20]);

/// All bits set, that of the missing clock too.
const ALL_BITS: Signal<'static> = Time([0x7F; 7]);

/// Faults, other messages and unfinished frames.
pub static FAULTS: [Row<'static>; 7] = [
    CUT_AND_DUMP,
    Row {
        name: "two moves at once wait",
        capture: &[Dump(INITIAL), CUT_UPDATE, Dump(OPEN_GAME)],
        movetext: "*",
        report: (2, 1, 0, 0),
        ..PLAIN
    },
    Row {
        name: "updates after a fault are not trusted",
        capture: &[Dump(INITIAL), Raw(&[0x05]), Lift("e2"), Put("e4", "P")],
        movetext: "*",
        report: (3, 1, 0, 0),
        ..PLAIN
    },
    Row {
        name: "another message is counted and ignored",
        capture: &[
            Dump(INITIAL),
            Lift("e2"),
            Raw(&[0x93, 0x00, 0x05, 0x01, 0x08]),
            Put("e4", "P"),
        ],
        movetext: "1. e4 *",
        report: (4, 0, 1, 0),
        ..PLAIN
    },
    Row {
        name: "a stray byte, a wrong size and a wrong field are faults",
        capture: &[Raw(&[0x05, 0x34, 0x00, 0x8E, 0x00, 0x06, 0x8E, 0x00, 0x05, 0x40])],
        movetext: "*",
        report: (0, 3, 0, 0),
        ..PLAIN
    },
    Row {
        name: "the byte that cuts a frame begins the next",
        capture: &[Raw(&[0x8E]), Lift("e2")],
        movetext: "*",
        report: (1, 1, 0, 0),
        ..PLAIN
    },
    Row {
        name: "a frame without its last byte is the rest",
        capture: &[Dump(INITIAL), Lift("e2"), Raw(&[0x8E, 0x00, 0x05, 0x24])],
        movetext: "*",
        report: (2, 0, 0, 4),
        ..PLAIN
    },
];

/// Times and acknowledgements.
pub static CLOCKS: [Row<'static>; 6] = [
    Row {
        name: "an acknowledgement and a bad time leave the reading",
        capture: &[
            Dump(INITIAL),
            TIME,
            ACKNOWLEDGEMENT,
            BAD_TIME,
            Lift("e2"),
            Put("e4", "P"),
            Lift("e7"),
            Put("e5", "p"),
        ],
        movetext: "1. e4 {[%clk 1:30:00]} 1... e5 {[%clk 1:29:59]} *",
        report: (8, 0, 2, 0),
        ..PLAIN
    },
    Row {
        name: "the first group can be Black's",
        first: First::Black,
        capture: &[
            Dump(INITIAL),
            TIME,
            ACKNOWLEDGEMENT,
            BAD_TIME,
            Lift("e2"),
            Put("e4", "P"),
            Lift("e7"),
            Put("e5", "p"),
        ],
        movetext: "1. e4 {[%clk 1:29:59]} 1... e5 {[%clk 1:30:00]} *",
        report: (8, 0, 2, 0),
        ..PLAIN
    },
    Row {
        name: "without a clock there is no comment",
        capture: &[
            Dump(INITIAL),
            TIME,
            ACKNOWLEDGEMENT,
            BAD_TIME,
            Lift("e2"),
            Put("e4", "P"),
            NO_CLOCK,
            Lift("e7"),
            Put("e5", "p"),
        ],
        movetext: "1. e4 {[%clk 1:30:00]} 1... e5 *",
        report: (9, 0, 2, 0),
        ..PLAIN
    },
    Row {
        name: "without a clock there is no comment, after a good time too",
        capture: &[
            Dump(INITIAL),
            TIME,
            Lift("e2"),
            Put("e4", "P"),
            NO_CLOCK,
            Lift("e7"),
            Put("e5", "p"),
        ],
        movetext: "1. e4 {[%clk 1:30:00]} 1... e5 *",
        report: (7, 0, 2, 0),
        ..PLAIN
    },
    Row {
        name: "a ply has the time of its own picture, not of the lift",
        capture: &[Dump(INITIAL), TIME, Lift("e2"), LATER, Put("e4", "P")],
        movetext: "1. e4 {[%clk 1:29:50]} *",
        report: (5, 0, 1, 0),
        ..PLAIN
    },
    Row {
        name: "a time with all bits set is no clock",
        capture: &[
            Dump(INITIAL),
            TIME,
            Lift("e2"),
            Put("e4", "P"),
            ALL_BITS,
            Lift("e7"),
            Put("e5", "p"),
        ],
        movetext: "1. e4 {[%clk 1:30:00]} 1... e5 *",
        report: (7, 0, 2, 0),
        ..PLAIN
    },
];

/// Result signs and checkmate.
pub static RESULTS: [Row<'static>; 5] = [
    Row {
        name: "kings on light squares: White wins",
        capture: &[
            Dump(INITIAL),
            Lift("e1"),
            Lift("e8"),
            Put("e4", "K"),
            Put("d5", "k"),
        ],
        result: "1-0",
        movetext: "1-0",
        report: (5, 0, 0, 0),
        ..PLAIN
    },
    Row {
        name: "kings on dark squares: Black wins",
        capture: &[
            Dump(INITIAL),
            Lift("e1"),
            Lift("e8"),
            Put("d4", "K"),
            Put("e5", "k"),
        ],
        result: "0-1",
        movetext: "0-1",
        report: (5, 0, 0, 0),
        ..PLAIN
    },
    Row {
        name: "kings on squares of both colours: a draw",
        capture: &[
            Dump(INITIAL),
            Lift("e1"),
            Lift("e8"),
            Put("e4", "K"),
            Put("e5", "k"),
        ],
        result: "1/2-1/2",
        movetext: "1/2-1/2",
        report: (5, 0, 0, 0),
        ..PLAIN
    },
    Row {
        name: "a move after a sign clears it",
        capture: &[
            Dump(INITIAL),
            Lift("e1"),
            Lift("e8"),
            Put("e4", "K"),
            Put("d5", "k"),
            Lift("e4"),
            Lift("d5"),
            Put("e1", "K"),
            Put("e8", "k"),
            Lift("e2"),
            Put("e4", "P"),
        ],
        movetext: "1. e4 *",
        report: (11, 0, 1, 0),
        ..PLAIN
    },
    Row {
        name: "checkmate outweighs a sign",
        capture: &[
            Dump(INITIAL),
            Lift("f2"),
            Put("f3", "P"),
            Lift("e7"),
            Put("e5", "p"),
            Lift("g2"),
            Put("g4", "P"),
            Lift("d8"),
            Put("h4", "q"),
            Lift("e1"),
            Lift("e8"),
            Put("e4", "K"),
            Put("d5", "k"),
        ],
        result: "0-1",
        movetext: "1. f3 e5 2. g4 Qh4# 0-1",
        report: (13, 0, 4, 0),
        ..PLAIN
    },
];

/// Turned boards and unknown codes.
pub static BOARDS: [Row<'static>; 3] = [
    Row {
        name: "a turned board",
        rotated: true,
        capture: &[TurnedDump(INITIAL), TurnedLift("e2"), TurnedPut("e4", "P")],
        movetext: "1. e4 *",
        report: (3, 0, 1, 0),
        ..PLAIN
    },
    Row {
        name: "a turned board that isn't said to be so",
        capture: &[TurnedDump(INITIAL), TurnedLift("e2"), TurnedPut("e4", "P")],
        movetext: "*",
        report: (3, 0, 0, 0),
        ..PLAIN
    },
    UNKNOWN_CODE,
];
