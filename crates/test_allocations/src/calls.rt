//! The calls on positions, tags and games. Each is made again where it was refused.

use crate::Outcome;
use crate::settling::is_opening;
use chess_rules::{Move, Position};
use dgt_vectors::texts::{GameText, NO_MOVE};
use pgn_book::{Game, PgnError, Tag, TagError, Tags, read_pgn};
use std::alloc::{AllocError, Global};

/// The origin and the target of each move of the initial position: two for each pawn, from a2 to h2, two for each
/// knight.
const FIRST_MOVES: [(u8, u8); 20] = [
    (48, 32),
    (48, 40),
    (49, 33),
    (49, 41),
    (50, 34),
    (50, 42),
    (51, 35),
    (51, 43),
    (52, 36),
    (52, 44),
    (53, 37),
    (53, 45),
    (54, 38),
    (54, 46),
    (55, 39),
    (55, 47),
    (57, 40),
    (57, 42),
    (62, 45),
    (62, 47),
];

fn goes(mv: Move, from: u8, to: u8) -> bool {
    mv.from.number() == from && mv.to.number() == to && mv.promotion.is_none()
}

fn are_first_moves(moves: &[Move]) -> bool {
    for (mv, (from, to)) in moves.iter().zip(&FIRST_MOVES) {
        if !goes(*mv, *from, *to) {
            return false;
        }
    }
    moves.len() == 20
}

/// Whether the initial position has its 20 moves.
fn lists(alloc: Global) -> Result<bool, AllocError> {
    let moves = Position::initial().legal_moves(alloc)?;
    Ok(are_first_moves(moves.as_slice()))
}

/// The initial position has 20 moves.
pub fn legal_moves(alloc: Global) -> Outcome {
    match lists(alloc) {
        Ok(holds) => Outcome::granted(holds),
        Err(_) => Outcome::refused(matches!(lists(alloc), Ok(true))),
    }
}

fn has_value(tags: &Tags, tag: Tag, value: &str) -> bool {
    tags.get(tag) == value
}

/// The values of White and Black; the other tags are unknown.
fn has_values(tags: &Tags, white: &str, black: &str) -> bool {
    has_value(tags, Tag::White, white)
        && has_value(tags, Tag::Black, black)
        && has_value(tags, Tag::Event, "?")
        && has_value(tags, Tag::Site, "?")
        && has_value(tags, Tag::Date, "????.??.??")
        && has_value(tags, Tag::Round, "?")
}

/// A tag and its new value, and the values of White and Black before it and after it.
type Setting<'a> = (Tag, &'a str, (&'a str, &'a str), (&'a str, &'a str));

static SETTINGS: [Setting<'static>; 3] = [
    (Tag::White, "Berta", ("?", "?"), ("Berta", "?")),
    (Tag::Black, "Clara", ("Berta", "?"), ("Berta", "Clara")),
    (Tag::White, "Anna", ("Berta", "Clara"), ("Anna", "Clara")),
];

/// The value is set: whether the tags are then those after it.
fn sets(tags: &mut Tags, setting: &Setting<'_>) -> Result<bool, TagError> {
    let (tag, value, _, (white, black)) = *setting;
    tags.set(tag, value)?;
    Ok(has_values(tags, white, black))
}

/// A refused value leaves all as it was.
fn sets_again(tags: &mut Tags, setting: &Setting<'_>) -> bool {
    let (_, _, (white, black), _) = *setting;
    has_values(tags, white, black) && matches!(sets(tags, setting), Ok(true))
}

fn set_one(tags: &mut Tags, setting: &Setting<'_>) -> Outcome {
    match sets(tags, setting) {
        Ok(holds) => Outcome::granted(holds),
        Err(TagError::Memory) => Outcome::refused(sets_again(tags, setting)),
        Err(_) => Outcome::Broken,
    }
}

fn set_all(tags: &mut Tags) -> Outcome {
    let mut outcome = Outcome::Granted;
    for setting in &SETTINGS {
        outcome = outcome.and(set_one(tags, setting));
    }
    outcome
}

/// Values are set one after another.
pub fn set(alloc: Global) -> Outcome {
    set_all(&mut Tags::new(alloc))
}

const GAME: GameText<'static> = GameText {
    white: "Anna",
    black: "Clara",
    result: "1-0",
    movetext: "1. e4 {[%clk 1:30:00]} 1-0",
    ..NO_MOVE
};

fn is_game(game: &Game) -> bool {
    *game.start() == Position::initial()
        && is_opening(game.plies())
        && game.result() == Some(settle_core::Outcome::WhiteWins)
        && has_values(game.tags(), "Anna", "Clara")
}

/// Whether the text is read as that game. An error is the one of reading.
fn reads(alloc: Global) -> Result<bool, PgnError> {
    let game = read_pgn(alloc, GAME.bytes().get())?;
    Ok(is_game(&game))
}

/// To run out of memory is no fault of the text.
pub fn reads_game(alloc: Global) -> Outcome {
    match reads(alloc) {
        Ok(holds) => Outcome::granted(holds),
        Err(PgnError::Memory) => Outcome::refused(matches!(reads(alloc), Ok(true))),
        Err(_) => Outcome::Broken,
    }
}
