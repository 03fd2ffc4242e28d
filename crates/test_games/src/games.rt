//! Games and their export texts. The texts are those of the PGN standard's export form, worked out by hand from known
//! games.

use chess_clock::Hms;
use chess_game::{Game, Tags};
use chess_rules::{Move, Position};
use chess_text::{read_fen, read_san};
use dgt_vectors::bytes::Bytes;
use dgt_vectors::texts::text_of;
use pgn_book::write_pgn;
use settle_core::{Outcome, Ply};
use std::alloc::Global;
use std::process::Abort;
use watched_streams::Watch;

/// Fails with the number of the first row that isn't as it says, if there is one.
pub fn expect_none(rt: &impl Abort, first: Option<usize>) {
    assert_eq!(rt; first, None);
}

/// The number of the first that doesn't hold.
pub fn first_false(holds: &[bool]) -> Option<usize> {
    for (i, holds) in holds.iter().enumerate() {
        if !*holds {
            return Some(i);
        }
    }
    None
}

/// White may castle short.
pub const CASTLING: &str = "4k3/8/8/8/8/8/8/4K2R w K - 0 1";

/// A game and its export text. Its tags are unknown.
#[derive(Clone, Copy)]
pub struct Row<'a> {
    /// The FEN of the start; empty for the initial position.
    pub start: &'a str,
    pub moves: &'a str,
    /// Hours, minutes and seconds after the first moves.
    pub clocks: &'a [Option<[u8; 3]>],
    pub sign: Option<Outcome>,
    /// The result that is written.
    pub outcome: &'a str,
    pub movetext: &'a str,
}

/// No move from the initial position, without clocks and sign.
pub const EMPTY: Row<'static> = Row {
    start: "",
    moves: "",
    clocks: &[],
    sign: None,
    outcome: "*",
    movetext: "*",
};

impl Row<'_> {
    /// The export text.
    pub fn text(&self) -> Bytes {
        text_of(self.outcome, self.start, self.movetext)
    }
}

/// The position of a FEN, or the initial position where it is empty.
fn start_of(fen: &str) -> Option<Position> {
    if fen.is_empty() {
        return Some(Position::initial());
    }
    match read_fen(fen.as_bytes()) {
        Ok(position) => Some(position),
        Err(_) => None,
    }
}

fn time(clock: Option<[u8; 3]>) -> Option<Hms> {
    let [hours, minutes, seconds] = clock?;
    if hours > 9 || minutes > 59 || seconds > 59 {
        return None;
    }
    Some(Hms {
        hours,
        minutes,
        seconds,
    })
}

/// A move and the position after it.
#[derive(Clone, Copy)]
struct Step {
    mv: Move,
    after: Position,
}

/// The legal move of a SAN.
fn step_of(position: &Position, san: &str) -> Option<Step> {
    let Ok(mv) = read_san(position, san.as_bytes()) else {
        return None;
    };
    let (asked, played) = (mv, mv);
    if !position.is_legal(asked) {
        return None;
    }
    let after = position.play(played);
    Some(Step { mv, after })
}

/// The plies of these moves, the first of which have these clocks; where each is legal and there is memory.
fn plies_of(
    alloc: Global,
    start: &Position,
    moves: &str,
    clocks: &[Option<[u8; 3]>],
) -> Option<Vec<Ply>> {
    let mut plies = Vec::new(alloc);
    let mut position = *start;
    for (i, san) in moves.split_whitespace().enumerate() {
        let Step { mv, after } = step_of(&position, san)?;
        let clock = match clocks.get(i) {
            Some(clock) => time(*clock),
            None => None,
        };
        if plies.push(Ply { mv, clock }).is_err() {
            return None;
        }
        position = after;
    }
    Some(plies)
}

/// The game of a row, where its moves are legal and there is memory.
pub fn game(alloc: Global, row: &Row<'_>) -> Option<Game> {
    let start = start_of(row.start)?;
    let plies = plies_of(alloc, &start, row.moves, row.clocks)?;
    if !Game::is_line(&start, &plies) {
        return None;
    }
    Some(Game::new(Tags::new(alloc), start, plies, row.sign))
}

/// Writing this game gives this text.
pub fn is_written_as(alloc: Global, game: &Game, text: &[u8]) -> bool {
    let mut out = Watch::new(Vec::new(alloc));
    write_pgn(game, &mut out).is_ok() && out.inner().as_slice() == text
}
