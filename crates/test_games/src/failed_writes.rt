//! Writers that fail.

use crate::games::{EMPTY, game};
use chess_game::Game;
use dgt_vectors::streams::Sink;
use pgn_book::write_pgn;
use std::alloc::Global;
use watched_streams::{Watch, WriteFault};

/// A stream that takes ten bytes, a few at a time, and then fails.
fn ten() -> Sink {
    Sink::new(10).in_chunks(3)
}

/// Over a stream that takes ten bytes, writing this game fails after ten, and the stream says that it failed.
fn stops_after_ten(game: &Game) -> bool {
    let mut out = Watch::new(ten());
    write_pgn(game, &mut out) == Err(WriteFault { written: 10 }) && out.failed()
}

/// A fault tells how much was written.
pub fn empty_game_stops_after_ten(alloc: Global) -> bool {
    match game(alloc, &EMPTY) {
        Some(game) => stops_after_ten(&game),
        None => false,
    }
}
