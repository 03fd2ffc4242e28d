//! A capture with what is recorded of it.

use crate::bytes::Bytes;
use crate::captures::Signal::{self, Dump, Lift, Put, Raw, Time};
use crate::captures::{INITIAL, bytes_of};
use crate::texts::text_of;
use dgt_frame::First;

/// A capture, how it is recorded, and what is expected.
#[derive(Clone, Copy)]
pub struct Row<'a> {
    /// The rule that the row shows.
    pub name: &'a str,
    /// The FEN of the start; empty for the initial position.
    pub start: &'a str,
    pub first: First,
    pub rotated: bool,
    pub capture: &'a [Signal<'a>],
    /// The value of the result tag.
    pub result: &'a str,
    pub movetext: &'a str,
    /// Messages, faults, moves, and the bytes of an unfinished frame.
    pub report: (u32, u32, u32, u16),
}

/// The two commands at the start, and a request for a dump for each fault.
pub fn commands(faults: u32) -> Bytes {
    let mut sent = Bytes::of(&[&[0x42, 0x4B]]);
    for _ in 0..faults {
        sent.add(&[0x42]);
    }
    sent
}

impl<'a> Row<'a> {
    pub fn bytes(&self) -> Bytes {
        bytes_of(self.capture)
    }

    /// The whole text that is expected.
    pub fn text(&self) -> Bytes {
        text_of(self.result, self.start, self.movetext)
    }

    /// What the board is sent.
    pub fn sent(&self) -> Bytes {
        let (_, faults, _, _) = self.report;
        commands(faults)
    }
}

/// After 1. e4.
pub const KINGS_PAWN: &str = "rnbqkbnr/pppppppp/8/8/4P3/8/PPPP1PPP/RNBQKBNR";

/// 1:30:00 and 1:29:59.
pub const TIME: Signal<'static> = Time([0x01, 0x30, 0x00, 0x01, 0x29, 0x59, 0x00]);

/// 1:29:50 and 1:29:59.
pub const LATER: Signal<'static> = Time([0x01, 0x29, 0x50, 0x01, 0x29, 0x59, 0x00]);

/// The first four bytes of an update of e2.
pub const CUT_UPDATE: Signal<'static> = Raw(&[0x8E, 0x00, 0x05, 0x34]);

/// The initial position, White's time first, not turned, no result.
pub const PLAIN: Row<'static> = Row {
    name: "",
    start: "",
    first: First::White,
    rotated: false,
    capture: &[],
    result: "*",
    movetext: "*",
    report: (0, 0, 0, 0),
};

/// 1. e4, the pawn lifted before it is put down.
pub const KINGS_PAWN_OPENING: Row<'static> = Row {
    name: "a piece is lifted and put down",
    capture: &[Dump(INITIAL), Lift("e2"), Put("e4", "P")],
    movetext: "1. e4 *",
    report: (3, 0, 1, 0),
    ..PLAIN
};

/// An update is cut off, and a dump after 1. e4 makes up for it.
pub const CUT_AND_DUMP: Row<'static> = Row {
    name: "a cut frame is made up for by a dump",
    capture: &[Dump(INITIAL), CUT_UPDATE, Dump(KINGS_PAWN)],
    movetext: "1. e4 *",
    report: (2, 1, 1, 0),
    ..PLAIN
};

/// A code that no piece has, on e2.
pub const UNKNOWN_CODE: Row<'static> = Row {
    name: "a code that no piece has matches no position",
    capture: &[Dump(INITIAL), Put("e2", "*")],
    movetext: "*",
    report: (2, 0, 0, 0),
    ..PLAIN
};

/// These two where a test has one alone.
pub static OPENING: Row<'static> = KINGS_PAWN_OPENING;

pub static CUT: Row<'static> = CUT_AND_DUMP;
