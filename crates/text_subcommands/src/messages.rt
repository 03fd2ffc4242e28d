//! What the program says on standard error when it refuses.
ghost use Rattle.std.specs.Prelude.{◌≡◌, ◌≢◌, ◌≤◌, ◌++◌, ◌⊎◌, codes, length, false, true};
ghost use Rattle.std.specs.Io.KnownBytes.{Appends, Keeps};
ghost use Rattle.watched_streams.specs.Watch.{IsFlushed, inner_of, has_failed};
ghost use Rattle.watched_streams.specs.Output.{AppendsPart};
ghost use Rattle.chess_game.specs.TagNames.{tag_name};
ghost use Rattle.text_subcommands.specs.Messages.{Says, fen_message, tag_message};

use chess_text::FenError;
use pgn_book::{Tag, TagError};
use std::io::Write;
use watched_streams::{Lines, Watch, add, put, put_and_flush};

/// Writes the message about a refusal to standard error, unless that has failed before, and returns the status that was
/// given. The message is a whole line, with its end. Where the write fails, a first part of it stands.
pub fn refused<E: Write>(err: &mut Watch<E>, message: &[u8], status: u8) -> u8
    ensures status { result ≡ status }
    ensures says { Says (E.contents (inner_of err.old)) (E.contents (inner_of err.new)) (has_failed err.new) message.now }
    ensures silent { has_failed err.old ≡ true → err.new ≡ err.old }
{
    if !err.failed() {
        let _ = put(err, message);
    }
    status
}

/// Writes the answer to what was asked for, flushes it, and returns the status: 0, or 3 where the output has failed,
/// which is then said.
pub fn put_answer<O: Write, E: Write>(out: &mut Watch<O>, err: &mut Watch<E>, answer: &[u8]) -> u8
    requires { has_failed out.old ≡ false }
    ensures done { result ≡ 0 → Appends (O.contents (inner_of out.old)) (O.contents (inner_of out.new)) answer.now × (has_failed out.new ≡ false)
        × (err.new ≡ err.old) }
    ensures fault { result ≡ 3 → AppendsPart (O.contents (inner_of out.old)) (O.contents (inner_of out.new)) answer.now × (has_failed out.new ≡ true)
        × Says (E.contents (inner_of err.old)) (E.contents (inner_of err.new)) (has_failed err.new) (codes "write fault\n") }
    ensures out_blamed { has_failed out.new ≡ true → result ≡ 3 }
    ensures known { (result ≡ 0) ⊎ (result ≡ 3) }
    ensures flushed { IsFlushed out.new }
{
    if put_and_flush(out, answer) {
        return 0;
    }
    refused(err, b"write fault\n", 3)
}

/// Flushes the output, and writes this message about a refusal, or that the output has failed; returns the status.
pub fn refused_run<O: Write, E: Write>(
    out: &mut Watch<O>,
    err: &mut Watch<E>,
    message: &[u8],
    status: u8,
) -> u8
    requires { has_failed out.old ≡ false }
    ensures ended { ((result ≡ status) × Says (E.contents (inner_of err.old)) (E.contents (inner_of err.new)) (has_failed err.new) message.now)
        ⊎ ((result ≡ 3) × (has_failed out.new ≡ true) × Says (E.contents (inner_of err.old)) (E.contents (inner_of err.new)) (has_failed err.new) (codes "write fault\n")) }
    ensures kept { Keeps (O.contents (inner_of out.old)) (O.contents (inner_of out.new)) }
    ensures out_blamed { has_failed out.new ≡ true → result ≡ 3 }
    ensures flushed { IsFlushed out.new }
{
    if out.flush().is_err() {
        return refused(err, b"write fault\n", 3);
    }
    refused(err, message, status)
}

fn message_of(error: FenError) -> &'static [u8]
    ensures { result.now ≡ fen_message error }
{
    match error {
        FenError::Form => b"fen: form\n",
        FenError::Counters => b"fen: counters\n",
        FenError::Placement => b"fen: placement\n",
        FenError::Kings => b"fen: kings\n",
        FenError::Pawns => b"fen: pawns\n",
        FenError::Rights => b"fen: rights\n",
        FenError::EnPassant => b"fen: en passant\n",
        FenError::Check => b"fen: check\n",
    }
}

/// Says on standard error why a FEN is refused, in one line, and returns the status, 1.
pub fn refused_fen<E: Write>(err: &mut Watch<E>, error: FenError) -> u8
    ensures status { result ≡ 1 }
    ensures says { Says (E.contents (inner_of err.old)) (E.contents (inner_of err.new)) (has_failed err.new) (fen_message error) }
    ensures silent { has_failed err.old ≡ true → err.new ≡ err.old }
{
    refused(err, message_of(error), 1)
}

fn refused_value<E: Write>(err: &mut Watch<E>, tag: Tag, reason: &[u8]) -> u8
    requires { length reason.now ≤ 10 }
    ensures status { result ≡ 1 }
    ensures says { Says (E.contents (inner_of err.old)) (E.contents (inner_of err.new)) (has_failed err.new)
        (codes "tag " ++ tag_name tag ++ reason.now) }
    ensures silent { has_failed err.old ≡ true → err.new ≡ err.old }
{
    let mut line = Lines::new();
    add(&mut line, b"tag ");
    add(&mut line, tag.name().as_bytes());
    add(&mut line, reason);
    refused(err, line.as_slice(), 1)
}

/// Says on standard error why the value of a tag is refused, in one line that names the tag, and returns the status, 1;
/// or that memory ran out, with status 4.
pub fn refused_tag<E: Write>(err: &mut Watch<E>, tag: Tag, error: TagError) -> u8
    ensures memory { error ≡ TagError.Memory → result ≡ 4 }
    ensures value { error ≢ TagError.Memory → result ≡ 1 }
    ensures says { Says (E.contents (inner_of err.old)) (E.contents (inner_of err.new)) (has_failed err.new) (tag_message tag error) }
    ensures silent { has_failed err.old ≡ true → err.new ≡ err.old }
{
    match error {
        TagError::Text => refused_value(err, tag, b": text\n"),
        TagError::Long => refused_value(err, tag, b": long\n"),
        TagError::Date => refused_value(err, tag, b": date\n"),
        TagError::Memory => refused(err, b"memory\n", 4),
    }
}
