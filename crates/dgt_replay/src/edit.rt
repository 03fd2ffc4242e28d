//! The subcommands `add`, `back` and `instead`, which change a capture.
ghost use Rattle.std.specs.Prelude.{◌≡◌, ◌≢◌, ◌≤◌, ◌⊎◌, Some, codes, false, option_map, true};
ghost use Rattle.std.specs.Io.KnownBytes.{Appends};
ghost use Rattle.board_captures.specs.Reading.{IsTooLong, setting_of};
ghost use Rattle.board_events.specs.Settings.{Setting};
ghost use Rattle.chess_text.specs.Start.{HasNoStart, given};
ghost use Rattle.replay_arguments.specs.Setups.{MeetsBoard};
ghost use Rattle.text_subcommands.specs.Messages.{Says};
ghost use Rattle.text_subcommands.specs.Refusals.{Refuses, RefusesStart};
ghost use Rattle.text_subcommands.specs.Streams.{streams};
ghost use Rattle.watched_streams.specs.Output.{AppendsPart};
ghost use Rattle.watched_streams.specs.Watch.{IsFlushed, has_failed, inner_of};
ghost use Rattle.adding.specs.Lines.{answer_line};
ghost use Rattle.dgt_replay.specs.Add.{AnswersLine, added_of};
ghost use Rattle.dgt_replay.specs.Back.{AnswersBack};
ghost use Rattle.dgt_replay.specs.Instead.{AnswersInstead};
ghost use Rattle.dgt_replay.specs.Edit.{Edits, Puts, text_in as text_in_of};
ghost use Rattle.dgt_replay.specs.Inside.Editing.{AnswersOf, PutsAnswer};

use adding::{Answer, add_line, line_of};
use board_captures::{CaptureError, Method};
use chess_text::start_of;
use dgt_frame::LIMIT;
use going_back::{Told, tell_back, tell_instead};
use replay_arguments::EditArguments;
use std::alloc::Global;
use std::io::{Read, Write};
use text_subcommands::{TextError, put_answer, read_text, refused_fen, refused_run};
use watched_streams::{Watch, put_and_flush};

/// How a capture is changed.
#[derive(Clone, Copy)]
pub enum EditKind {
    /// A typed line is added.
    Add,
    /// Its game goes back.
    Back,
    /// Its game gets typed moves in place of its last ones.
    Instead,
}

/// Writes the bytes, and says the line.
fn put_and_tell<O: Write, E: Write>(
    bytes: &[u8],
    line: &[u8],
    out: &mut Watch<O>,
    err: &mut Watch<E>,
) -> u8
    requires working { has_failed out.old ≡ false }
    requires erring { has_failed err.old ≡ false }
    ensures done { result ≡ 0 → Appends (O.contents (inner_of out.old)) (O.contents (inner_of out.new)) bytes.now
        × Appends (E.contents (inner_of err.old)) (E.contents (inner_of err.new)) line.now
        × (has_failed out.new ≡ false) × (has_failed err.new ≡ false) }
    ensures fault { result ≡ 3 → ((has_failed out.new ≡ true) × Says (E.contents (inner_of err.old)) (E.contents (inner_of err.new)) (has_failed err.new) (codes "write fault\n"))
        ⊎ ((has_failed err.new ≡ true) × Appends (O.contents (inner_of out.old)) (O.contents (inner_of out.new)) bytes.now
        × AppendsPart (E.contents (inner_of err.old)) (E.contents (inner_of err.new)) line.now) }
    ensures out_blamed { has_failed out.new ≡ true → result ≡ 3 }
    ensures known { (result ≡ 0) ⊎ (result ≡ 3) }
    ensures flushed { IsFlushed out.new }
    ensures told { result ≡ 0 → IsFlushed err.new }
{
    let status = put_answer(out, err, bytes);
    if status != 0 {
        return status;
    }
    if put_and_flush(err, line) {
        return 0;
    }
    3
}

/// Writes the bytes that add a typed line, and says what was added, or why nothing is.
fn put_added<O: Write, E: Write>(
    alloc: Global,
    answer: &Answer<'_>,
    out: &mut Watch<O>,
    err: &mut Watch<E>,
) -> u8
    requires working { has_failed out.old ≡ false }
    requires erring { has_failed err.old ≡ false }
    ensures puts { PutsAnswer (added_of answer.now) (answer_line answer.now) result (O.contents (inner_of out.old)) (O.contents (inner_of out.new))
        (E.contents (inner_of err.old)) (E.contents (inner_of err.new)) (has_failed out.new) (has_failed err.new) }
    ensures works { result ≡ 0 → (has_failed out.new ≡ false) × (has_failed err.new ≡ false) }
    ensures out_blamed { has_failed out.new ≡ true → result ≡ 3 }
    ensures known { result ≤ 4 }
    ensures status { result ≢ 2 }
    ensures flushed { IsFlushed out.new }
    ensures told { result ≡ 0 → IsFlushed err.new }
{
    let Ok(line) = line_of(alloc, answer) else {
        return refused_run(out, err, b"memory\n", 4);
    };
    match answer {
        Answer::Added(_, bytes) => put_and_tell(bytes.as_slice(), line.as_slice(), out, err),
        Answer::Refused(..) => refused_run(out, err, line.as_slice(), 1),
    }
}

/// Writes the new capture of a game that goes back or gets other moves, and says what was done, or why nothing was.
fn put_told<O: Write, E: Write>(told: &Told, out: &mut Watch<O>, err: &mut Watch<E>) -> u8
    requires working { has_failed out.old ≡ false }
    requires erring { has_failed err.old ≡ false }
    ensures puts { PutsAnswer (option_map (λ made. made.items) told.now.made) told.now.line.items result (O.contents (inner_of out.old)) (O.contents (inner_of out.new))
        (E.contents (inner_of err.old)) (E.contents (inner_of err.new)) (has_failed out.new) (has_failed err.new) }
    ensures works { result ≡ 0 → (has_failed out.new ≡ false) × (has_failed err.new ≡ false) }
    ensures out_blamed { has_failed out.new ≡ true → result ≡ 3 }
    ensures known { result ≤ 4 }
    ensures status { result ≢ 2 }
    ensures flushed { IsFlushed out.new }
    ensures told { result ≡ 0 → IsFlushed err.new }
{
    match &told.made {
        Some(made) => put_and_tell(made.as_slice(), told.line.as_slice(), out, err),
        None => refused_run(out, err, told.line.as_slice(), 1),
    }
}

/// Answers a typed line by the game of a capture.
fn add_to<O: Write, E: Write>(
    alloc: Global,
    method: &Method,
    typed: &[u8],
    capture: &[u8],
    out: &mut Watch<O>,
    err: &mut Watch<E>,
) -> u8
    requires working { has_failed out.old ≡ false }
    requires erring { has_failed err.old ≡ false }
    ensures puts { Puts (AnswersLine (setting_of method.now) method.now.recovers typed.now) (IsTooLong (setting_of method.now) method.now.recovers) (Some capture.now) result (O.contents (inner_of out.old)) (O.contents (inner_of out.new))
        (E.contents (inner_of err.old)) (E.contents (inner_of err.new)) (has_failed out.new) (has_failed err.new) }
    ensures works { result ≡ 0 → (has_failed out.new ≡ false) × (has_failed err.new ≡ false) }
    ensures out_blamed { has_failed out.new ≡ true → result ≡ 3 }
    ensures known { result ≤ 4 }
    ensures status { result ≢ 2 }
    ensures flushed { IsFlushed out.new }
    ensures told { result ≡ 0 → IsFlushed err.new }
{
    match add_line(alloc, method, capture, typed) {
        Ok(answer) => put_added(alloc, &answer, out, err),
        Err(CaptureError::TooLong) => refused_run(out, err, b"input: too long\n", 1),
        Err(CaptureError::Memory) => refused_run(out, err, b"memory\n", 4),
    }
}

/// Answers how far the game of a capture is to go back.
fn back_to<O: Write, E: Write>(
    alloc: Global,
    method: &Method,
    to: &[u8],
    capture: &[u8],
    out: &mut Watch<O>,
    err: &mut Watch<E>,
) -> u8
    requires working { has_failed out.old ≡ false }
    requires erring { has_failed err.old ≡ false }
    ensures puts { Puts (AnswersBack (setting_of method.now) method.now.recovers to.now) (IsTooLong (setting_of method.now) method.now.recovers) (Some capture.now) result (O.contents (inner_of out.old)) (O.contents (inner_of out.new))
        (E.contents (inner_of err.old)) (E.contents (inner_of err.new)) (has_failed out.new) (has_failed err.new) }
    ensures works { result ≡ 0 → (has_failed out.new ≡ false) × (has_failed err.new ≡ false) }
    ensures out_blamed { has_failed out.new ≡ true → result ≡ 3 }
    ensures known { result ≤ 4 }
    ensures status { result ≢ 2 }
    ensures flushed { IsFlushed out.new }
    ensures told { result ≡ 0 → IsFlushed err.new }
{
    match tell_back(alloc, method, capture, to) {
        Ok(told) => put_told(&told, out, err),
        Err(CaptureError::TooLong) => refused_run(out, err, b"input: too long\n", 1),
        Err(CaptureError::Memory) => refused_run(out, err, b"memory\n", 4),
    }
}

/// Answers the moves that the game of a capture is to get in place of its last ones.
fn replace_by<O: Write, E: Write>(
    alloc: Global,
    method: &Method,
    typed: &[u8],
    capture: &[u8],
    out: &mut Watch<O>,
    err: &mut Watch<E>,
) -> u8
    requires working { has_failed out.old ≡ false }
    requires erring { has_failed err.old ≡ false }
    ensures puts { Puts (AnswersInstead (setting_of method.now) method.now.recovers typed.now) (IsTooLong (setting_of method.now) method.now.recovers) (Some capture.now) result (O.contents (inner_of out.old)) (O.contents (inner_of out.new))
        (E.contents (inner_of err.old)) (E.contents (inner_of err.new)) (has_failed out.new) (has_failed err.new) }
    ensures works { result ≡ 0 → (has_failed out.new ≡ false) × (has_failed err.new ≡ false) }
    ensures out_blamed { has_failed out.new ≡ true → result ≡ 3 }
    ensures known { result ≤ 4 }
    ensures status { result ≢ 2 }
    ensures flushed { IsFlushed out.new }
    ensures told { result ≡ 0 → IsFlushed err.new }
{
    match tell_instead(alloc, method, capture, typed) {
        Ok(told) => put_told(&told, out, err),
        Err(CaptureError::TooLong) => refused_run(out, err, b"input: too long\n", 1),
        Err(CaptureError::Memory) => refused_run(out, err, b"memory\n", 4),
    }
}

/// Answers the text of a subcommand's option.
fn edit_to<O: Write, E: Write>(
    alloc: Global,
    kind: EditKind,
    method: &Method,
    text: &[u8],
    capture: &[u8],
    out: &mut Watch<O>,
    err: &mut Watch<E>,
) -> u8
    requires working { has_failed out.old ≡ false }
    requires erring { has_failed err.old ≡ false }
    ensures puts { Puts (AnswersOf kind (setting_of method.now) method.now.recovers text.now) (IsTooLong (setting_of method.now) method.now.recovers) (Some capture.now) result (O.contents (inner_of out.old)) (O.contents (inner_of out.new))
        (E.contents (inner_of err.old)) (E.contents (inner_of err.new)) (has_failed out.new) (has_failed err.new) }
    ensures works { result ≡ 0 → (has_failed out.new ≡ false) × (has_failed err.new ≡ false) }
    ensures out_blamed { has_failed out.new ≡ true → result ≡ 3 }
    ensures known { result ≤ 4 }
    ensures status { result ≢ 2 }
    ensures flushed { IsFlushed out.new }
    ensures told { result ≡ 0 → IsFlushed err.new }
{
    match kind {
        EditKind::Add => add_to(alloc, method, text, capture, out, err),
        EditKind::Back => back_to(alloc, method, text, capture, out, err),
        EditKind::Instead => replace_by(alloc, method, text, capture, out, err),
    }
}

/// The text of an option; none is an empty one.
fn text_in<'a>(text: Option<&'a str>) -> &'a [u8]
    ensures { result.now ≡ text_in_of (given text.entry) }
{
    match text {
        Some(text) => text.as_bytes(),
        None => b"",
    }
}

/// Answers a capture whose game begins in this position, and returns the status.
fn edit_from<R: Read, O: Write, E: Write>(
    alloc: Global,
    kind: EditKind,
    method: &Method,
    text: &[u8],
    reader: &mut Watch<R>,
    out: &mut Watch<O>,
    err: &mut Watch<E>,
) -> u8
    requires reading { has_failed reader.old ≡ false }
    requires working { has_failed out.old ≡ false }
    requires erring { has_failed err.old ≡ false }
    ensures edits { Edits (AnswersOf kind (setting_of method.now) method.now.recovers text.now) (IsTooLong (setting_of method.now) method.now.recovers) result
        (streams R.remaining O.contents E.contents reader.old reader.new out.old out.new err.old err.new) }
    ensures works { result ≡ 0 → (has_failed reader.new ≡ false) × ((has_failed out.new ≡ false) × (has_failed err.new ≡ false)) }
    ensures reader_blamed { has_failed reader.new ≡ true → result ≡ 3 }
    ensures out_blamed { has_failed out.new ≡ true → result ≡ 3 }
    ensures known { result ≤ 4 }
    ensures status { result ≢ 2 }
    ensures flushed { IsFlushed out.new }
    ensures told { result ≡ 0 → IsFlushed err.new }
{
    match read_text(alloc, reader, LIMIT as usize) {
        Ok(capture) => edit_to(alloc, kind, method, text, capture.as_slice(), out, err),
        Err(TextError::Memory) => refused_run(out, err, b"memory\n", 4),
        Err(TextError::Read) => refused_run(out, err, b"read fault\n", 3),
        Err(TextError::TooLong) => refused_run(out, err, b"input: too long\n", 1),
    }
}

/// Answers the capture on the input, and returns the status: writes the bytes that a typed line adds to it, or the new
/// capture of a game that goes back or gets other moves. What was done, or why nothing was, is one line on `err`.
pub fn edit<R: Read, O: Write, E: Write>(
    alloc: Global,
    kind: EditKind,
    options: &EditArguments<'_>,
    reader: &mut Watch<R>,
    out: &mut Watch<O>,
    err: &mut Watch<E>,
) -> u8
    requires reading { has_failed reader.old ≡ false }
    requires working { has_failed out.old ≡ false }
    requires erring { has_failed err.old ≡ false }
    ensures edits { (setting : Setting) → MeetsBoard options.now.board setting
        → Edits (AnswersOf kind setting options.now.recovers (text_in_of (given options.now.text))) (IsTooLong setting options.now.recovers) result
        (streams R.remaining O.contents E.contents reader.old reader.new out.old out.new err.old err.new) }
    ensures refuses { HasNoStart (given options.now.board.fen) → Refuses (RefusesStart (given options.now.board.fen)) result
        (streams R.remaining O.contents E.contents reader.old reader.new out.old out.new err.old err.new) }
    ensures refused { HasNoStart (given options.now.board.fen) → result ≡ 1 }
    ensures works { result ≡ 0 → (has_failed reader.new ≡ false) × ((has_failed out.new ≡ false) × (has_failed err.new ≡ false)) }
    ensures reader_blamed { has_failed reader.new ≡ true → result ≡ 3 }
    ensures out_blamed { has_failed out.new ≡ true → result ≡ 3 }
    ensures known { result ≤ 4 }
    ensures status { result ≢ 2 }
    ensures flushed { IsFlushed out.old → IsFlushed out.new }
    ensures told { result ≡ 0 → IsFlushed err.old → IsFlushed err.new }
{
    match start_of(options.board.fen) {
        Ok(start) => {
            let method = Method {
                start,
                first: options.board.first,
                rotated: options.board.rotated,
                recovers: options.recovers,
            };
            edit_from(
                alloc,
                kind,
                &method,
                text_in(options.text),
                reader,
                out,
                err,
            )
        }
        Err(error) => refused_fen(err, error),
    }
}
