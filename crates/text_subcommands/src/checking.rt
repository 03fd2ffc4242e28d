//! The subcommand `check`.
ghost use Rattle.std.specs.Prelude.{◌≡◌, ◌≢◌, ◌≤◌, ◌⊎◌, ◌+◌, ◌++◌, length, codes, Err, IfErr, IfOk, IfSome, OnOk, false, true};
ghost use Rattle.std.specs.Io.KnownBytes.{Appends, Keeps};
ghost use Rattle.arrayvec.specs.ArrayVec.{array_vec_len};
ghost use Rattle.watched_streams.specs.Watch.{IsFlushed, inner_of, has_failed};
ghost use Rattle.text_subcommands.specs.Checked.{ChecksGame, ChecksPart, RefusesPgn, summary_line};
ghost use Rattle.watched_streams.specs.Input.{ReadsWithin};
ghost use Rattle.pgn_book.specs.Pgn.{Pgn};
ghost use Rattle.text_subcommands.specs.Inside.Unread.{message_of, status_of};
ghost use Rattle.text_subcommands.specs.Messages.{Says, Tells};
ghost use Rattle.watched_streams.specs.Output.{AppendsPart};

use crate::input::{TextError, read_text};
use crate::messages::{put_answer, refused_run};
use itoa::Buffer;
use pgn_book::{Game, PgnError, read_pgn, result_str};
use settle_core::Outcome;
use std::alloc::Global;
use std::io::{Read, Write};
use watched_streams::{GATHERED, LONGEST, Lines, Watch, add};

/// The most bytes of the input of `check`, a PGN text.
pub const TEXT_LIMIT: usize = 268_435_456;

/// Why no game was read.
#[derive(Clone, Copy)]
enum GameError {
    Memory,
    Read,
    TooLong,
    NotExport,
}

impl GameError {
    /// What the program says of it.
    fn line(self) -> &'static [u8]
        ensures { result.now ≡ message_of self }
    {
        match self {
            GameError::Memory => b"memory\n",
            GameError::Read => b"read fault\n",
            GameError::TooLong => b"input: too long\n",
            GameError::NotExport => b"pgn: not export\n",
        }
    }

    /// The exit status that tells of it.
    fn status(self) -> u8
        ensures { result ≡ status_of self }
    {
        match self {
            GameError::Memory => 4,
            GameError::Read => 3,
            GameError::TooLong | GameError::NotExport => 1,
        }
    }
}

/// Reads the game whose export text the input is.
fn read_game<R: Read>(alloc: Global, reader: &mut Watch<R>) -> Result<Game, GameError>
    requires { has_failed reader.old ≡ false }
    ensures game { IfOk result (λ game. IfSome (R.remaining (inner_of reader.old)) (λ bytes. Pgn game bytes × (length bytes ≤ TEXT_LIMIT))) }
    ensures refused { IfErr result (λ error. status_of error ≡ 1 → RefusesPgn (R.remaining (inner_of reader.old)) (message_of error)) }
    ensures bounded { ReadsWithin TEXT_LIMIT (R.remaining (inner_of reader.old)) (R.remaining (inner_of reader.new)) }
    ensures read { result ≡ Err GameError.Read → has_failed reader.new ≡ true }
    ensures works { OnOk result (has_failed reader.new ≡ false) }
    ensures blamed { has_failed reader.new ≡ true → result ≡ Err GameError.Read }
{
    let text = match read_text(alloc, reader, TEXT_LIMIT) {
        Ok(text) => text,
        Err(TextError::Memory) => return Err(GameError::Memory),
        Err(TextError::Read) => return Err(GameError::Read),
        Err(TextError::TooLong) => return Err(GameError::TooLong),
    };
    match read_pgn(alloc, text.as_slice()) {
        Ok(game) => Ok(game),
        Err(PgnError::Memory) => Err(GameError::Memory),
        Err(PgnError::NotExport) => Err(GameError::NotExport),
    }
}

/// Adds how many moves a game has, and its result.
fn add_summary(lines: &mut Lines, moves: u64, outcome: Option<Outcome>)
    requires { array_vec_len lines.old + LONGEST ≤ GATHERED }
    ensures { lines.new.items ≡ lines.old.items ++ summary_line moves outcome }
{
    let mut buffer = Buffer::new();
    add(lines, b"moves ");
    add(lines, buffer.format(moves).as_bytes());
    add(lines, b", result ");
    add(lines, result_str(outcome).as_bytes());
    add(lines, b"\n");
}

/// Writes the line about a game, and returns the status: 0, or 3 where the output has failed, which is then said.
fn put_summary<O: Write, E: Write>(game: &Game, out: &mut Watch<O>, err: &mut Watch<E>) -> u8
    requires { has_failed out.old ≡ false }
    ensures done { result ≡ 0 → Appends (O.contents (inner_of out.old)) (O.contents (inner_of out.new)) (summary_line (length game.now.plies) game.now.result)
        × (has_failed out.new ≡ false) × (err.new ≡ err.old) }
    ensures fault { result ≡ 3 → AppendsPart (O.contents (inner_of out.old)) (O.contents (inner_of out.new)) (summary_line (length game.now.plies) game.now.result)
        × (has_failed out.new ≡ true) × Says (E.contents (inner_of err.old)) (E.contents (inner_of err.new)) (has_failed err.new) (codes "write fault\n") }
    ensures out_blamed { has_failed out.new ≡ true → result ≡ 3 }
    ensures known { (result ≡ 0) ⊎ (result ≡ 3) }
    ensures flushed { IsFlushed out.new }
{
    let mut lines = Lines::new();
    add_summary(&mut lines, game.plies().len() as u64, game.result());
    put_answer(out, err, lines.as_slice())
}

/// Says whether the input is a game in PGN export form, and returns the exit status: 0 where it is, 1 where it isn't or
/// is longer than `TEXT_LIMIT`, 3 where a stream has failed, 4 where memory ran out. The number of a game's moves and
/// its result go to `out`, in one line; else one line on `err` says why. Neither `reader` nor `out` may have failed
/// before.
pub fn check<R: Read, O: Write, E: Write>(
    alloc: Global,
    reader: &mut Watch<R>,
    out: &mut Watch<O>,
    err: &mut Watch<E>,
) -> u8
    requires reading { has_failed reader.old ≡ false }
    requires working { has_failed out.old ≡ false }
    ensures passes { result ≡ 0 → ChecksGame (R.remaining (inner_of reader.old)) (O.contents (inner_of out.old)) (O.contents (inner_of out.new)) }
    ensures tells { Tells result (RefusesPgn (R.remaining (inner_of reader.old))) (E.contents (inner_of err.old)) (E.contents (inner_of err.new))
        (has_failed reader.new) (has_failed out.new) (has_failed err.new) }
    ensures bounded { ReadsWithin TEXT_LIMIT (R.remaining (inner_of reader.old)) (R.remaining (inner_of reader.new)) }
    ensures fault { result ≡ 3 → ChecksPart (R.remaining (inner_of reader.old)) (O.contents (inner_of out.old)) (O.contents (inner_of out.new)) }
    ensures unread { has_failed reader.new ≡ true → Keeps (O.contents (inner_of out.old)) (O.contents (inner_of out.new)) }
    ensures blamed { has_failed reader.new ≡ true → result ≡ 3 }
    ensures out_blamed { has_failed out.new ≡ true → result ≡ 3 }
    ensures silent { (result ≡ 1) ⊎ (result ≡ 4) → Keeps (O.contents (inner_of out.old)) (O.contents (inner_of out.new)) }
    ensures works { result ≡ 0 → (has_failed reader.new ≡ false) × ((has_failed out.new ≡ false) × (err.new ≡ err.old)) }
    ensures known { result ≤ 4 }
    ensures status { result ≢ 2 }
    ensures flushed { IsFlushed out.new }
{
    match read_game(alloc, reader) {
        Ok(game) => put_summary(&game, out, err),
        Err(error) => refused_run(out, err, error.line(), error.status()),
    }
}
