//! Captures that are cut or damaged: nothing is refused, and only what the damage hits is lost.

use crate::recordings::text_without_move;
use chess_game::Game;
use dgt_vectors::bytes::Bytes;
use dgt_vectors::recording::{Recording, recorded, report_of};
use dgt_vectors::row::{OPENING, Row, commands};
use dgt_vectors::streams::Sink;
use pgn_book::{read_pgn, write_pgn};
use std::alloc::Global;
use watched_streams::Watch;

/// Damage to the 77 bytes of a dump, e2 lifted and e4 put down.
#[derive(Clone, Copy)]
enum Damage {
    /// Only so many bytes come.
    Cut(usize),
    /// The byte at a place is another.
    Other(usize, u8),
}

impl Damage {
    /// These bytes, damaged.
    fn of(self, bytes: &Bytes) -> Bytes {
        let mut damaged = Bytes::of(&[bytes.get()]);
        match self {
            Damage::Cut(len) => damaged = Bytes::of(&[bytes.front(len)]),
            Damage::Other(at, byte) => damaged.set(at, byte),
        }
        damaged
    }
}

/// What is damaged, the damage, and what is then reported: messages, faults, moves and rest.
type Case<'a> = (&'a str, Damage, (u32, u32, u32, u16));

static DAMAGES: [Case<'static>; 6] = [
    (
        "the dump lacks its last byte",
        Damage::Cut(66),
        (0, 0, 0, 66),
    ),
    (
        "the first update lacks its last byte",
        Damage::Cut(71),
        (1, 0, 0, 4),
    ),
    (
        "the second update lacks its last byte",
        Damage::Cut(76),
        (2, 0, 0, 4),
    ),
    (
        "the dump's identifier is stray",
        Damage::Other(0, 0x06),
        (2, 1, 0, 0),
    ),
    (
        "another frame begins in the dump",
        Damage::Other(10, 0x88),
        (2, 2, 0, 0),
    ),
    (
        "another frame begins in an update",
        Damage::Other(70, 0xB4),
        (2, 2, 0, 0),
    ),
];

/// This is reported, a dump is asked for at each fault, and the text is without a move.
fn is_cost(got: &Recording, report: (u32, u32, u32, u16)) -> bool {
    let (_, faults, _, _) = report;
    got.answer == Ok(report_of(report))
        && got.board_shown.get() == commands(faults).get()
        && got.text_shown.get() == text_without_move().get()
}

/// So damaged, the capture of 1. e4 gives this report.
fn costs(alloc: Global, damage: Damage, report: (u32, u32, u32, u16)) -> bool {
    match recorded(alloc, &OPENING, damage.of(&OPENING.bytes()).get(), 4096) {
        Ok(got) => is_cost(&got, report),
        Err(_) => false,
    }
}

/// The name of the first damage that costs something else.
fn first_other_cost<'a>(alloc: Global, cases: &[Case<'a>]) -> Option<&'a str> {
    for (name, damage, report) in cases {
        if !costs(alloc, *damage, *report) {
            return Some(*name);
        }
    }
    None
}

/// Whether the game's plies but the last are the first of the other game's plies.
fn is_front_of(cut: &Game, whole: &Game) -> bool {
    let closed = cut.plies().len().saturating_sub(1);
    match (cut.plies().get(..closed), whole.plies().get(..closed)) {
        (Some(front), Some(other)) => front == other,
        _ => false,
    }
}

/// Whether writing this game gives this text.
fn is_written_as(game: &Game, text: &[u8]) -> bool {
    let mut out = Watch::new(Sink::new(512));
    write_pgn(game, &mut out).is_ok() && out.inner().held() == text
}

/// Whether this text is that of a game, and the game is the front of the whole one, the last move aside.
fn is_front_text(alloc: Global, text: &[u8], whole: &Game) -> bool {
    match read_pgn(alloc, text) {
        Ok(game) => is_front_of(&game, whole) && is_written_as(&game, text),
        Err(_) => false,
    }
}

/// This cut of a capture is recorded, and its game is the front of the whole game, the last move aside.
fn cut_holds(alloc: Global, row: &Row<'_>, front: &[u8], whole: &Game) -> bool {
    match recorded(alloc, row, front, 4096) {
        Ok(got) => got.answer.is_ok() && is_front_text(alloc, got.text_shown.get(), whole),
        Err(_) => false,
    }
}

/// The least length at which a cut of the capture doesn't hold.
fn first_cut(alloc: Global, row: &Row<'_>, whole: &Game) -> Option<usize> {
    let bytes = row.bytes();
    for len in 0..bytes.len() {
        if !cut_holds(alloc, row, bytes.front(len), whole) {
            return Some(len);
        }
    }
    None
}

/// The least length at which a cut doesn't hold; the whole length where the row's own text isn't read.
pub fn cut_failing(alloc: Global, row: &Row<'_>) -> Option<usize> {
    match read_pgn(alloc, row.text().get()) {
        Ok(whole) => first_cut(alloc, row, &whole),
        Err(_) => Some(row.bytes().len()),
    }
}

/// Whether this text reads back as a game of which it is the text.
fn reads_back(alloc: Global, text: &[u8]) -> bool {
    match read_pgn(alloc, text) {
        Ok(game) => is_written_as(&game, text),
        Err(_) => false,
    }
}

/// A capture with one top bit turned is recorded, and its text reads back.
fn turned_bit_holds(alloc: Global, row: &Row<'_>, at: usize) -> bool {
    let mut turned = row.bytes();
    turned.turn(at, 0x80);
    match recorded(alloc, row, turned.get(), 4096) {
        Ok(got) => got.answer.is_ok() && reads_back(alloc, got.text_shown.get()),
        Err(_) => false,
    }
}

/// The first byte of the capture whose top bit can't be turned.
pub fn turned_bit_failing(alloc: Global, row: &Row<'_>) -> Option<usize> {
    for at in 0..row.bytes().len() {
        if !turned_bit_holds(alloc, row, at) {
            return Some(at);
        }
    }
    None
}

#[test]
fn damage_costs_what_it_hits(rt: HostRuntime) {
    assert_eq!(rt; first_other_cost(rt.alloc(), &DAMAGES), None);
}
