//! The subcommand `times`.
ghost use Rattle.std.specs.Prelude.{◌≡◌, ◌≢◌, ◌≤◌, ◌⊎◌, length, Err, IfErr, IfOk, IfSome, OnOk, false, true};
ghost use Rattle.std.specs.Io.KnownBytes.{Keeps};
ghost use Rattle.watched_streams.specs.Watch.{IsFlushed, inner_of, has_failed};
ghost use Rattle.watched_streams.specs.Input.{ReadsWithin};
ghost use Rattle.board_times.specs.declared.reading.Found.{Found as FoundOf};
ghost use Rattle.board_times.specs.declared.reading.Kept.{Kept as KeptOf};
ghost use Rattle.board_times.specs.Listing.{listing_of};
ghost use Rattle.board_times.specs.Times.{IsFound};
ghost use Rattle.text_subcommands.specs.Timed.{ListsPart, ListsTimes, RefusesTimes};
ghost use Rattle.text_subcommands.specs.Inside.Untimed.{message_of, status_of};
ghost use Rattle.text_subcommands.specs.Messages.{Tells};

use crate::input::{TextError, read_text};
use crate::messages::{put_answer, refused_run};
use board_times::{Found, Kept, listing_of, read_times};
use std::alloc::Global;
use std::io::{Read, Write};
use watched_streams::Watch;

/// The most bytes of the input of `times`.
pub const TIMES_LIMIT: usize = 67_108_864;

/// Why nothing is listed.
#[derive(Clone, Copy)]
enum TimesError {
    Memory,
    Read,
    TooLong,
    Empty,
    NoHeading,
    AnotherVersion,
}

impl TimesError {
    /// What the program says of it.
    fn line(self) -> &'static [u8]
        ensures { result.now ≡ message_of self }
    {
        match self {
            TimesError::Memory => b"memory\n",
            TimesError::Read => b"read fault\n",
            TimesError::TooLong => b"input: too long\n",
            TimesError::Empty => b"times: empty\n",
            TimesError::NoHeading => b"times: no heading\n",
            TimesError::AnotherVersion => b"times: another version\n",
        }
    }

    /// The exit status that tells of it.
    fn status(self) -> u8
        ensures { result ≡ status_of self }
    {
        match self {
            TimesError::Memory => 4,
            TimesError::Read => 3,
            _ => 1,
        }
    }
}

/// Reads the file of times that the input is.
fn read_kept<R: Read>(alloc: Global, reader: &mut Watch<R>) -> Result<Kept, TimesError>
    requires { has_failed reader.old ≡ false }
    ensures kept { IfOk result (λ kept. IfSome (R.remaining (inner_of reader.old)) (λ bytes. IsFound bytes (FoundOf.Times kept) × (length bytes ≤ TIMES_LIMIT))) }
    ensures refused { IfErr result (λ error. status_of error ≡ 1 → RefusesTimes (R.remaining (inner_of reader.old)) (message_of error)) }
    ensures bounded { ReadsWithin TIMES_LIMIT (R.remaining (inner_of reader.old)) (R.remaining (inner_of reader.new)) }
    ensures read { result ≡ Err TimesError.Read → has_failed reader.new ≡ true }
    ensures works { OnOk result (has_failed reader.new ≡ false) }
    ensures blamed { has_failed reader.new ≡ true → result ≡ Err TimesError.Read }
{
    let text = match read_text(alloc, reader, TIMES_LIMIT) {
        Ok(text) => text,
        Err(TextError::Memory) => return Err(TimesError::Memory),
        Err(TextError::Read) => return Err(TimesError::Read),
        Err(TextError::TooLong) => return Err(TimesError::TooLong),
    };
    match read_times(alloc, text.as_slice()) {
        Err(_) => Err(TimesError::Memory),
        Ok(Found::Missing) => Err(TimesError::Empty),
        Ok(Found::Unreadable) => Err(TimesError::NoHeading),
        Ok(Found::Newer(_)) => Err(TimesError::AnotherVersion),
        Ok(Found::Times(kept)) => Ok(kept),
    }
}

/// Reads the file of times that the input is, and makes its lines.
fn read_listing<R: Read>(alloc: Global, reader: &mut Watch<R>) -> Result<Vec<u8>, TimesError>
    requires { has_failed reader.old ≡ false }
    ensures listed { IfOk result (λ text. (kept : KeptOf) × (text.items ≡ listing_of kept)
        × IfSome (R.remaining (inner_of reader.old)) (λ bytes. IsFound bytes (FoundOf.Times kept) × (length bytes ≤ TIMES_LIMIT))) }
    ensures refused { IfErr result (λ error. status_of error ≡ 1 → RefusesTimes (R.remaining (inner_of reader.old)) (message_of error)) }
    ensures bounded { ReadsWithin TIMES_LIMIT (R.remaining (inner_of reader.old)) (R.remaining (inner_of reader.new)) }
    ensures read { result ≡ Err TimesError.Read → has_failed reader.new ≡ true }
    ensures works { OnOk result (has_failed reader.new ≡ false) }
    ensures blamed { has_failed reader.new ≡ true → result ≡ Err TimesError.Read }
{
    let kept = match read_kept(alloc, reader) {
        Ok(kept) => kept,
        Err(error) => return Err(error),
    };
    match listing_of(alloc, &kept) {
        Ok(text) => Ok(text),
        Err(_) => Err(TimesError::Memory),
    }
}

/// Writes the lines of the file of times that the input is, for a person, and returns the exit status: 0 where it is one, 1 where it
/// isn't or is longer than `TIMES_LIMIT`, 3 where a stream has failed, 4 where memory ran out. Where nothing is listed, one line on
/// `err` says why. Neither `reader` nor `out` may have failed before.
pub fn times<R: Read, O: Write, E: Write>(
    alloc: Global,
    reader: &mut Watch<R>,
    out: &mut Watch<O>,
    err: &mut Watch<E>,
) -> u8
    requires reading { has_failed reader.old ≡ false }
    requires working { has_failed out.old ≡ false }
    ensures passes { result ≡ 0 → ListsTimes (R.remaining (inner_of reader.old)) (O.contents (inner_of out.old)) (O.contents (inner_of out.new)) }
    ensures tells { Tells result (RefusesTimes (R.remaining (inner_of reader.old))) (E.contents (inner_of err.old)) (E.contents (inner_of err.new))
        (has_failed reader.new) (has_failed out.new) (has_failed err.new) }
    ensures bounded { ReadsWithin TIMES_LIMIT (R.remaining (inner_of reader.old)) (R.remaining (inner_of reader.new)) }
    ensures fault { result ≡ 3 → ListsPart (R.remaining (inner_of reader.old)) (O.contents (inner_of out.old)) (O.contents (inner_of out.new)) }
    ensures unread { has_failed reader.new ≡ true → Keeps (O.contents (inner_of out.old)) (O.contents (inner_of out.new)) }
    ensures blamed { has_failed reader.new ≡ true → result ≡ 3 }
    ensures out_blamed { has_failed out.new ≡ true → result ≡ 3 }
    ensures silent { (result ≡ 1) ⊎ (result ≡ 4) → Keeps (O.contents (inner_of out.old)) (O.contents (inner_of out.new)) }
    ensures works { result ≡ 0 → (has_failed reader.new ≡ false) × ((has_failed out.new ≡ false) × (err.new ≡ err.old)) }
    ensures known { result ≤ 4 }
    ensures status { result ≢ 2 }
    ensures flushed { IsFlushed out.new }
{
    match read_listing(alloc, reader) {
        Ok(text) => put_answer(out, err, text.as_slice()),
        Err(error) => refused_run(out, err, error.line(), error.status()),
    }
}
