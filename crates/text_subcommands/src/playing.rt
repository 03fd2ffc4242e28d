//! The subcommand `positions`.
ghost use Rattle.std.specs.Prelude.{◌≡◌, ◌≢◌, ◌≤◌, ◌+◌, ◌++◌, ◌∷◌, ℕ, List, IfOk, IfSome, IfNone, MatchOption, OnOk, Some, None, codes, false, length, true};
ghost use Rattle.std.specs.Io.KnownBytes.{Appends, Keeps};
ghost use Rattle.watched_streams.specs.Output.{AppendsPart};
ghost use Rattle.chess_rules.specs.declared.chess_move.Move.{Move};
ghost use Rattle.chess_rules.specs.declared.parts.Parts.{Parts as PartsOf};
ghost use Rattle.chess_rules.specs.After.{after};
ghost use Rattle.chess_rules.specs.Legal.{Legal};
ghost use Rattle.chess_text.specs.Fen.{fen as fen_of};
ghost use Rattle.chess_text.specs.San.{San};
ghost use Rattle.watched_streams.specs.Watch.{IsFlushed, inner_of, has_failed};
ghost use Rattle.chess_text.specs.Start.{HasNoStart, StartsAt, given};
ghost use Rattle.text_subcommands.specs.Played.{Plays, NamesMoves, NamesNoMove, PlaysAll, PlaysPart, RefusesMoves, StopsAtWord, fen_lines, word_message};
ghost use Rattle.text_subcommands.specs.Refusals.{Refuses, RefusesStart};
ghost use Rattle.text_subcommands.specs.Messages.{Says, Tells};
ghost use Rattle.text_subcommands.specs.Streams.{streams};
ghost use Rattle.text_subcommands.specs.Words.{is_blank as is_blank_lem, parts, words};
ghost use Rattle.text_subcommands.specs.Inside.Parts.{len_behind, parts_behind};

use crate::input::{TextError, read_text};
use crate::messages::{put_answer, refused, refused_fen, refused_run};
use chess_rules::Position;
use chess_text::{read_san, start_of, write_fen};
use itoa::Buffer;
use std::alloc::{AllocError, Global};
use std::io::{Read, Write};
use watched_streams::{Lines, Watch, add};

/// The most bytes of the input of `positions`.
pub const LINE_LIMIT: usize = 1_048_576;

fn is_blank(b: u8) -> bool
    ensures { result ≡ is_blank_lem b }
{
    b == b' ' || b == b'\t' || b == b'\r' || b == b'\n'
}

/// What stands before the first blank, and what stands behind it.
fn first_part(text: &[u8]) -> (&[u8], Option<&[u8]>)
    ensures parts { parts text.now ≡ result.0.now ∷ parts_behind result.1 }
    ensures len { length result.0.now + len_behind result.1 ≡ length text.now }
{
    for (i, b) in text.iter().enumerate() {
        if is_blank(*b) {
            return (&text[..i], Some(&text[i + 1..]));
        }
    }
    (text, None)
}

/// The position after the legal move whose SAN the word is.
fn position_named(position: &Position, word: &[u8]) -> Option<Position>
    ensures named { IfSome result (λ next. (m : Move) × Legal position.now m × San position.now m word.now × (next ≡ after position.now m)) }
    ensures none { IfNone result (NamesNoMove position.now word.now) }
{
    match read_san(position, word) {
        Ok(m) => Some(position.play(m)),
        Err(_) => None,
    }
}

/// Adds the FEN of a position, as a line.
fn add_position(lines: &mut Vec<u8>, position: &Position) -> Result<(), AllocError>
    ensures { OnOk result (lines.new.items ≡ lines.old.items ++ fen_of position.now ++ codes "\n") }
{
    lines.extend_from_slice(write_fen(position).as_str().as_bytes())?;
    lines.extend_from_slice(b"\n")
}

/// Adds the position at the start, and that after each move, up to the first word that is no move, whose number it
/// returns.
fn play_words(
    start: Position,
    text: &[u8],
    lines: &mut Vec<u8>,
) -> Result<Option<usize>, AllocError>
    ensures { IfOk result (λ stopped. (moves : List Move) × (lines.new.items ≡ lines.old.items ++ fen_lines start moves)
        × MatchOption stopped (NamesMoves start (words text.now) moves) (λ number. (number ≡ length moves + 1) × StopsAtWord start (words text.now) moves)) }
{
    add_position(lines, &start)?;
    let mut position = start;
    let mut number = 0;
    let mut left = text;
    'parts: loop {
        let (word, behind) = first_part(left);
        if !word.is_empty() {
            number += 1;
            let Some(next) = position_named(&position, word) else {
                return Ok(Some(number));
            };
            position = next;
            add_position(lines, &position)?;
        }
        let Some(more) = behind else {
            return Ok(None);
        };
        left = more;
    }
}

/// Says which word is no move, and returns the status.
fn refused_move<E: Write>(err: &mut Watch<E>, number: usize) -> u8
    ensures status { result ≡ 1 }
    ensures says { Says (E.contents (inner_of err.old)) (E.contents (inner_of err.new)) (has_failed err.new) (word_message number) }
{
    let mut buffer = Buffer::new();
    let mut line = Lines::new();
    add(&mut line, b"move ");
    add(&mut line, buffer.format(number).as_bytes());
    add(&mut line, b": not a legal move\n");
    refused(err, line.as_slice(), 1)
}

/// Writes the lines of the positions, says which word is no move, where one isn't, and returns the status.
fn put_positions<O: Write, E: Write>(
    lines: &[u8],
    stopped: Option<usize>,
    out: &mut Watch<O>,
    err: &mut Watch<E>,
) -> u8
    requires { has_failed out.old ≡ false }
    ensures done { result ≡ 0 → (stopped ≡ None) × Appends (O.contents (inner_of out.old)) (O.contents (inner_of out.new)) lines.now × (has_failed out.new ≡ false) × (err.new ≡ err.old) }
    ensures refused { result ≡ 1 → (number : ℕ) × (stopped ≡ Some number) × Appends (O.contents (inner_of out.old)) (O.contents (inner_of out.new)) lines.now
        × Says (E.contents (inner_of err.old)) (E.contents (inner_of err.new)) (has_failed err.new) (word_message number) }
    ensures fault { result ≡ 3 → AppendsPart (O.contents (inner_of out.old)) (O.contents (inner_of out.new)) lines.now × (has_failed out.new ≡ true)
        × Says (E.contents (inner_of err.old)) (E.contents (inner_of err.new)) (has_failed err.new) (codes "write fault\n") }
    ensures out_blamed { has_failed out.new ≡ true → result ≡ 3 }
    ensures known { result ≤ 3 }
    ensures status { result ≢ 2 }
    ensures flushed { IsFlushed out.new }
{
    let status = put_answer(out, err, lines);
    if status != 0 {
        return status;
    }
    match stopped {
        None => 0,
        Some(number) => refused_move(err, number),
    }
}

/// Plays the words of a text from the start, and returns the status.
fn play_text<O: Write, E: Write>(
    alloc: Global,
    start: Position,
    text: &[u8],
    out: &mut Watch<O>,
    err: &mut Watch<E>,
) -> u8
    requires working { has_failed out.old ≡ false }
    requires within { length text.now ≤ LINE_LIMIT }
    ensures done { result ≡ 0 → PlaysAll start (Some text.now) (O.contents (inner_of out.old)) (O.contents (inner_of out.new)) }
    ensures fault { result ≡ 3 → PlaysPart start (Some text.now) (O.contents (inner_of out.old)) (O.contents (inner_of out.new)) }
    ensures memory { result ≡ 4 → Keeps (O.contents (inner_of out.old)) (O.contents (inner_of out.new)) }
    ensures tells { Tells result (RefusesMoves start (Some text.now) (O.contents (inner_of out.old)) (O.contents (inner_of out.new)))
        (E.contents (inner_of err.old)) (E.contents (inner_of err.new)) false (has_failed out.new) (has_failed err.new) }
    ensures works { result ≡ 0 → (has_failed out.new ≡ false) × (err.new ≡ err.old) }
    ensures out_blamed { has_failed out.new ≡ true → result ≡ 3 }
    ensures known { result ≤ 4 }
    ensures status { result ≢ 2 }
    ensures flushed { IsFlushed out.new }
{
    let mut lines = Vec::new(alloc);
    match play_words(start, text, &mut lines) {
        Ok(stopped) => put_positions(lines.as_slice(), stopped, out, err),
        Err(_) => refused_run(out, err, b"memory\n", 4),
    }
}

/// Plays the moves of the input from the start, and returns the status.
fn play<R: Read, O: Write, E: Write>(
    alloc: Global,
    start: Position,
    reader: &mut Watch<R>,
    out: &mut Watch<O>,
    err: &mut Watch<E>,
) -> u8
    requires reading { has_failed reader.old ≡ false }
    requires working { has_failed out.old ≡ false }
    ensures plays { Plays start result (streams R.remaining O.contents E.contents reader.old reader.new out.old out.new err.old err.new) }
    ensures works { result ≡ 0 → (has_failed reader.new ≡ false) × ((has_failed out.new ≡ false) × (err.new ≡ err.old)) }
    ensures reader_blamed { has_failed reader.new ≡ true → result ≡ 3 }
    ensures out_blamed { has_failed out.new ≡ true → result ≡ 3 }
    ensures known { result ≤ 4 }
    ensures status { result ≢ 2 }
    ensures flushed { IsFlushed out.new }
{
    match read_text(alloc, reader, LINE_LIMIT) {
        Ok(text) => play_text(alloc, start, text.as_slice(), out, err),
        Err(TextError::Memory) => refused_run(out, err, b"memory\n", 4),
        Err(TextError::Read) => refused_run(out, err, b"read fault\n", 3),
        Err(TextError::TooLong) => refused_run(out, err, b"input: too long\n", 1),
    }
}

/// Writes the position that has the FEN, or the initial one, and that after each move of the input, as FEN, one a line,
/// and returns the exit status: 0 where each word of the input is a legal move in SAN, 1 where one isn't, where the
/// input is longer than `LINE_LIMIT`, or where no position has the FEN, 3 where a stream has failed, 4 where memory ran
/// out; one line on `err` says why it isn't 0. Neither `reader` nor `out` may have failed before.
pub fn positions<R: Read, O: Write, E: Write>(
    alloc: Global,
    fen: Option<&str>,
    reader: &mut Watch<R>,
    out: &mut Watch<O>,
    err: &mut Watch<E>,
) -> u8
    requires reading { has_failed reader.old ≡ false }
    requires working { has_failed out.old ≡ false }
    ensures plays { (start : PartsOf) → StartsAt (given fen.entry) start → Plays start result
        (streams R.remaining O.contents E.contents reader.old reader.new out.old out.new err.old err.new) }
    ensures refuses { HasNoStart (given fen.entry) → Refuses (RefusesStart (given fen.entry)) result
        (streams R.remaining O.contents E.contents reader.old reader.new out.old out.new err.old err.new) }
    ensures refused { HasNoStart (given fen.entry) → result ≡ 1 }
    ensures works { result ≡ 0 → (has_failed reader.new ≡ false) × ((has_failed out.new ≡ false) × (err.new ≡ err.old)) }
    ensures reader_blamed { has_failed reader.new ≡ true → result ≡ 3 }
    ensures out_blamed { has_failed out.new ≡ true → result ≡ 3 }
    ensures known { result ≤ 4 }
    ensures status { result ≢ 2 }
    ensures flushed { IsFlushed out.old → IsFlushed out.new }
{
    match start_of(fen) {
        Ok(start) => play(alloc, start, reader, out, err),
        Err(error) => refused_fen(err, error),
    }
}
