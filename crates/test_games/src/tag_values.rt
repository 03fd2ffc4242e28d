//! Values of tags, and how they are escaped.

use crate::games::{expect_none, first_false, is_written_as};
use chess_game::{Game, Tag, TagError, Tags};
use chess_rules::Position;
use dgt_vectors::texts::{GameText, NO_MOVE};
use pgn_book::read_pgn;
use std::alloc::{AllocError, Global};

/// So many of this part.
fn repeated(alloc: Global, part: &str, count: usize) -> Result<String, AllocError> {
    let mut text = String::new(alloc);
    for _ in 0..count {
        text.push_str(part)?;
    }
    Ok(text)
}

/// What each value gets.
static VALUES: [(Tag, &str, Result<(), TagError>); 8] = [
    (Tag::Site, "caf\u{e9}", Err(TagError::Text)),
    (Tag::Site, "a\nb", Err(TagError::Text)),
    (Tag::Date, "2024.5.1", Err(TagError::Date)),
    (Tag::Date, "", Err(TagError::Date)),
    (Tag::Date, "2024.05.010", Err(TagError::Date)),
    (Tag::Date, "2024-05-01", Err(TagError::Date)),
    (Tag::Date, "2024.??.??", Ok(())),
    (Tag::Event, "", Ok(())),
];

/// The number of the first value that gets another result, from 0.
fn first_other_answer(tags: &mut Tags) -> Option<usize> {
    for (number, (tag, value, answer)) in VALUES.iter().enumerate() {
        if tags.set(*tag, value) != *answer {
            return Some(number);
        }
    }
    None
}

/// The tags after these calls.
static SET: [(Tag, &str); 3] = [
    (Tag::Site, "?"),
    (Tag::Date, "2024.??.??"),
    (Tag::Event, ""),
];

/// The number of the first tag with another value, from 0.
fn first_other_value(tags: &Tags) -> Option<usize> {
    for (number, (tag, value)) in SET.iter().enumerate() {
        if tags.get(*tag) != *value {
            return Some(number);
        }
    }
    None
}

/// As White's name, so many of this part get this result.
fn gets(
    alloc: Global,
    tags: &mut Tags,
    part: &str,
    count: usize,
    answer: Result<(), TagError>,
) -> bool {
    match repeated(alloc, part, count) {
        Ok(name) => tags.set(Tag::White, name.as_str()) == answer,
        Err(_) => false,
    }
}

/// White's name is so many of this part.
fn has_name(alloc: Global, tags: &Tags, part: &str, count: usize) -> bool {
    match repeated(alloc, part, count) {
        Ok(name) => tags.get(Tag::White) == name.as_str(),
        Err(_) => false,
    }
}

const ESCAPED: &str =
    "[Event \"?\"]\n[Site \"?\"]\n[Date \"????.??.??\"]\n[Round \"?\"]\n[White \"\\\"\\\"\"]\n[Black \"\\\\ and \\\"\"]\n[Result \"*\"]\n\n*\n\n";

/// The game without a move of players with these names.
fn game_between(alloc: Global, white: &str, black: &str) -> Option<Game> {
    let mut tags = Tags::new(alloc);
    if tags.set(Tag::White, white).is_err() || tags.set(Tag::Black, black).is_err() {
        return None;
    }
    Some(Game::new(tags, Position::initial(), Vec::new(alloc), None))
}

/// This text reads back as a game between players with these names.
fn reads_names(alloc: Global, text: &[u8], white: &str, black: &str) -> bool {
    match read_pgn(alloc, text) {
        Ok(read) => read.tags().get(Tag::White) == white && read.tags().get(Tag::Black) == black,
        Err(_) => false,
    }
}

/// The game without a move of players with these names has this text, which reads back.
fn names_have_text(alloc: Global, white: &str, black: &str, text: &[u8]) -> bool {
    match game_between(alloc, white, black) {
        Some(game) => is_written_as(alloc, &game, text) && reads_names(alloc, text, white, black),
        None => false,
    }
}

/// White's name has the text of the game without a move in which it is written so.
fn name_has_text(alloc: Global, white: &str, written: &str) -> bool {
    let game = GameText {
        white: written,
        ..NO_MOVE
    };
    names_have_text(alloc, white, "?", game.bytes().get())
}

/// A hundred marks as White's name are each escaped.
fn marks_are_escaped(alloc: Global, marks: &str) -> bool {
    match repeated(alloc, "\\\"", 100) {
        Ok(written) => name_has_text(alloc, marks, written.as_str()),
        Err(_) => false,
    }
}

fn marks_come_back(alloc: Global) -> bool {
    match repeated(alloc, "\"", 100) {
        Ok(marks) => marks_are_escaped(alloc, marks.as_str()),
        Err(_) => false,
    }
}

/// Values are checked one after the other, and those that were set stand.
fn values_are_checked(alloc: Global) -> bool {
    let mut tags = Tags::new(alloc);
    first_other_answer(&mut tags).is_none() && first_other_value(&tags).is_none()
}

/// A value of a hundred bytes is set, and stays where a longer one is refused.
fn long_values_are_refused(alloc: Global) -> bool {
    let mut tags = Tags::new(alloc);
    gets(alloc, &mut tags, "\"", 100, Ok(()))
        && gets(alloc, &mut tags, "\"", 101, Err(TagError::Long))
        && gets(alloc, &mut tags, "\n", 200, Err(TagError::Text))
        && has_name(alloc, &tags, "\"", 100)
}

#[test]
fn values_are_checked_and_escaped(rt: HostRuntime) {
    let holds = [
        values_are_checked(rt.alloc()),
        long_values_are_refused(rt.alloc()),
        names_have_text(rt.alloc(), "\"\"", "\\ and \"", ESCAPED.as_bytes()),
        marks_come_back(rt.alloc()),
    ];
    expect_none(&rt, first_false(&holds));
}
