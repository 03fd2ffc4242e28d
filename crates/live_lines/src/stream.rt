//! What a host tells on a stream, and what is answered on another: the subcommand `live`.
ghost use Rattle.std.specs.Prelude.{◌≡◌, ◌≢◌, ◌-◌, [], ℕ, Bool, List, IfErr, IfOk, MatchResult, OnErr, OnOk, Option, drop, length, false, true};
ghost use Rattle.std.specs.Io.KnownBytes.{Appends};
ghost use Rattle.board_events.specs.declared.setup.Setup.{Setup as SetupOf};
ghost use Rattle.board_events.specs.Settings.{setting_of};
ghost use Rattle.board_game.specs.Report.{first_line};
ghost use Rattle.watched_streams.specs.Output.{AppendsPart};
ghost use Rattle.watched_streams.specs.Watch.{IsFlushed, inner_of, has_failed};
ghost use Rattle.live_lines.specs.Entries.{IsWhole, entry_text};
ghost use Rattle.live_lines.specs.Inside.Progress.{BreaksOff, ComesOn, FailsToRead, GoesOn, HasAttended, HasCome, ReadsOn};
ghost use Rattle.live_lines.specs.Next.{IsUnfinished};
ghost use Rattle.live_lines.specs.Recorder.{HasBegun};
ghost use Rattle.live_lines.specs.Status.{is_read, is_write, message_of, status_of};
ghost use Rattle.live_lines.specs.Streams.{AttendsAll, EndsBy};

use crate::entries::Entry;
use crate::next::{Next, next_entry};
use crate::recorder::Recorder;
use board_events::Setup;
use board_listing::{Listing, add_first};
use std::alloc::{AllocError, Global};
use std::io::{Read, Write};
use watched_streams::{CHUNK, Lines, Watch, put_and_flush};

/// Why a recorder gave up.
#[derive(Clone, Copy, Debug, PartialEq, Eq)]
pub enum AttendError {
    /// A read failed; one that was interrupted counts as failed.
    Read,
    /// A write failed or took no byte, or a flush failed.
    Write,
    /// What was told is no entry, or the input has ended within one.
    NoEntry,
    /// There were more than 2^64 - 1 reads.
    TooLong,
    /// There was no memory.
    Memory,
}

impl AttendError {
    /// What the program says of it.
    pub fn line(self) -> &'static [u8]
        ensures { result.now ≡ message_of self }
    {
        match self {
            AttendError::Read => b"read fault\n",
            AttendError::Write => b"write fault\n",
            AttendError::NoEntry => b"input: no entry\n",
            AttendError::TooLong => b"input: too long\n",
            AttendError::Memory => b"memory\n",
        }
    }

    /// The exit status that tells of it.
    pub fn status(self) -> u8
        ensures { result ≡ status_of self }
    {
        match self {
            AttendError::Read | AttendError::Write => 3,
            AttendError::NoEntry | AttendError::TooLong => 1,
            AttendError::Memory => 4,
        }
    }
}

/// Writes bytes at once.
fn send<O: Write>(out: &mut Watch<O>, bytes: &[u8]) -> Result<(), AttendError>
    requires { has_failed out.old ≡ false }
    ensures ok { OnOk result (Appends (O.contents (inner_of out.old)) (O.contents (inner_of out.new)) bytes.now) }
    ensures working { OnOk result (has_failed out.new ≡ false) }
    ensures part { OnErr result (AppendsPart (O.contents (inner_of out.old)) (O.contents (inner_of out.new)) bytes.now) }
    ensures failed { OnErr result (has_failed out.new ≡ true) }
    ensures cause { IfErr result (λ error. error ≡ AttendError.Write) }
    ensures flushed { IsFlushed out.new }
{
    if !put_and_flush(out, bytes) {
        return Err(AttendError::Write);
    }
    Ok(())
}

/// Writes the first line of the report.
fn begin<O: Write>(setup: &Setup, out: &mut Watch<O>) -> Result<(), AttendError>
    requires { has_failed out.old ≡ false }
    ensures ok { OnOk result (Appends (O.contents (inner_of out.old)) (O.contents (inner_of out.new)) (first_line (setting_of setup.now))) }
    ensures working { OnOk result (has_failed out.new ≡ false) }
    ensures part { OnErr result (AppendsPart (O.contents (inner_of out.old)) (O.contents (inner_of out.new)) (first_line (setting_of setup.now))) }
    ensures failed { OnErr result (has_failed out.new ≡ true) }
    ensures cause { IfErr result (λ error. error ≡ AttendError.Write) }
    ensures flushed { IsFlushed out.new }
{
    let mut lines = Lines::new();
    let listing = Listing::Watched {
        start: setup.start,
        first: setup.first,
        rotated: setup.rotated,
    };
    add_first(&mut lines, &listing);
    send(out, lines.as_slice())
}

/// Answers an entry, and writes that at once.
fn answer<O: Write>(
    recorder: &mut Recorder,
    entry: Entry,
    bytes: &[u8],
    answers: &mut Vec<u8>,
    out: &mut Watch<O>,
) -> Result<(), AttendError>
    requires working { has_failed out.old ≡ false }
    requires begun { HasBegun recorder.old }
    requires whole { IsWhole entry bytes.now }
    ensures ok { (setup : SetupOf) (recovers : Bool) (before said : List ℕ) → HasAttended recorder.old setup recovers before said
        → OnOk result (GoesOn recorder.new setup recovers before said (entry_text entry bytes.now) []
        (O.contents (inner_of out.old)) (O.contents (inner_of out.new))) }
    ensures working { OnOk result (has_failed out.new ≡ false) }
    ensures begun { OnOk result (HasBegun recorder.new) }
    ensures broken { (setup : SetupOf) (recovers : Bool) (before said : List ℕ) → HasAttended recorder.old setup recovers before said
        → IfErr result (λ error. BreaksOff error setup recovers before said (entry_text entry bytes.now)
        (O.contents (inner_of out.old)) (O.contents (inner_of out.new))) }
    ensures blamed { IfErr result (λ error. (is_read error ≡ false) × (has_failed out.new ≡ is_write error)) }
    ensures flushed { IsFlushed out.old → IsFlushed out.new }
{
    answers.clear();
    let Ok(()) = recorder.take(entry, bytes, answers) else {
        return Err(AttendError::Memory);
    };
    // For its clause: the report up to here.
    recorder.conclude();
    if let Err(error) = send(out, answers.as_slice()) {
        return Err(error);
    }
    Ok(())
}

/// Answers the entries that begin a text. The result is what is left of it.
fn answer_all<'a, O: Write>(
    recorder: &mut Recorder,
    text: &'a [u8],
    answers: &mut Vec<u8>,
    out: &mut Watch<O>,
) -> Result<&'a [u8], AttendError>
    requires working { has_failed out.old ≡ false }
    requires begun { HasBegun recorder.old }
    requires attended { (setup : SetupOf) × (recovers : Bool) × (before : List ℕ) × (said : List ℕ) × HasAttended recorder.old setup recovers before said }
    ensures ok { (setup : SetupOf) (recovers : Bool) (before said : List ℕ) → HasAttended recorder.old setup recovers before said
        → IfOk result (λ rest. IsUnfinished rest.now × GoesOn recorder.new setup recovers before said text.now rest.now
        (O.contents (inner_of out.old)) (O.contents (inner_of out.new))) }
    ensures working { OnOk result (has_failed out.new ≡ false) }
    ensures begun { OnOk result (HasBegun recorder.new) }
    ensures broken { (setup : SetupOf) (recovers : Bool) (before said : List ℕ) → HasAttended recorder.old setup recovers before said
        → IfErr result (λ error. BreaksOff error setup recovers before said text.now
        (O.contents (inner_of out.old)) (O.contents (inner_of out.new))) }
    ensures blamed { IfErr result (λ error. (is_read error ≡ false) × (has_failed out.new ≡ is_write error)) }
    ensures flushed { IsFlushed out.old → IsFlushed out.new }
{
    let mut left = text;
    'entries: loop {
        let told = match next_entry(left) {
            Next::Waits => return Ok(left),
            Next::Wrong => return Err(AttendError::NoEntry),
            Next::Told(told) => told,
        };
        if let Err(error) = answer(recorder, told.entry, told.bytes, answers, out) {
            return Err(error);
        }
        left = told.rest;
    }
}

/// Reads on behind a text. Whether there was more.
fn read_more<R: Read>(reader: &mut Watch<R>, text: &mut Vec<u8>) -> Result<bool, AttendError>
    requires { has_failed reader.old ≡ false }
    ensures more { IfOk result (λ is_more. ReadsOn is_more text.old.items text.new.items (R.remaining (inner_of reader.old)) (R.remaining (inner_of reader.new))) }
    ensures reading { OnOk result (has_failed reader.new ≡ false) }
    ensures fails { IfErr result (λ error. FailsToRead error (R.remaining (inner_of reader.old)) (R.remaining (inner_of reader.new))) }
    ensures blamed { IfErr result (λ error. (has_failed reader.new ≡ is_read error) × (is_write error ≡ false)) }
{
    let mut buffer = [0u8; CHUNK];
    let Ok(count) = reader.read(&mut buffer) else {
        return Err(AttendError::Read);
    };
    if count == 0 {
        return Ok(false);
    }
    if text.extend_from_slice(&buffer[..count]).is_err() {
        return Err(AttendError::Memory);
    }
    Ok(true)
}

/// Lets all of a text go but its last bytes, so many.
fn keep_last(alloc: Global, text: &mut Vec<u8>, count: usize) -> Result<(), AllocError>
    ensures { OnOk result (text.new.items ≡ drop (length text.old.items - count) text.old.items) }
{
    if count >= text.len() {
        return Ok(());
    }
    let last = Vec::from_slice(alloc, &text[text.len() - count..])?;
    *text = last;
    Ok(())
}

/// Ends where nothing is left of the input but this: it is no entry.
fn end(rest: &[u8]) -> Result<(), AttendError>
    ensures ok { OnOk result (rest.now ≡ []) }
    ensures refused { IfErr result (λ error. (error ≡ AttendError.NoEntry) × (rest.now ≢ [])) }
{
    if rest.is_empty() {
        Ok(())
    } else {
        Err(AttendError::NoEntry)
    }
}

/// Reads on, and answers the entries that are whole now. Whether there was more to read.
fn attend_more<R: Read, O: Write>(
    alloc: Global,
    recorder: &mut Recorder,
    text: &mut Vec<u8>,
    reader: &mut Watch<R>,
    out: &mut Watch<O>,
) -> Result<bool, AttendError>
    requires reading { has_failed reader.old ≡ false }
    requires working { has_failed out.old ≡ false }
    requires begun { HasBegun recorder.old }
    requires come { (setup : SetupOf) × (recovers : Bool) × (input : Option (List ℕ)) × (written : Option (List ℕ))
        × HasCome recorder.old setup recovers text.old.items input (R.remaining (inner_of reader.old)) written (O.contents (inner_of out.old)) }
    ensures comes { (setup : SetupOf) (recovers : Bool) (input written : Option (List ℕ))
        → HasCome recorder.old setup recovers text.old.items input (R.remaining (inner_of reader.old)) written (O.contents (inner_of out.old))
        → MatchResult result (λ more. ComesOn more recorder.new setup recovers text.new.items input (R.remaining (inner_of reader.new)) written (O.contents (inner_of out.new)))
        (λ error. EndsBy error setup recovers input (R.remaining (inner_of reader.new)) written (O.contents (inner_of out.new))) }
    ensures whole { OnOk result ((has_failed reader.new ≡ false) × (has_failed out.new ≡ false)) }
    ensures begun { OnOk result (HasBegun recorder.new) }
    ensures blamed { IfErr result (λ error. (has_failed reader.new ≡ is_read error) × (has_failed out.new ≡ is_write error)) }
    ensures flushed { IsFlushed out.old → IsFlushed out.new }
{
    let is_more = match read_more(reader, text) {
        Ok(is_more) => is_more,
        Err(error) => return Err(error),
    };
    if !is_more {
        return match end(text.as_slice()) {
            Ok(()) => Ok(false),
            Err(error) => Err(error),
        };
    }
    let mut answers = Vec::new(alloc);
    let count = match answer_all(recorder, text.as_slice(), &mut answers, out) {
        Ok(rest) => rest.len(),
        Err(error) => return Err(error),
    };
    let Ok(()) = keep_last(alloc, text, count) else {
        return Err(AttendError::Memory);
    };
    Ok(true)
}

/// Attends a board for a host that tells of it on a stream, entry by entry: writes the first line of the report, and what each
/// entry is answered, which is flushed before more is read. No stream may have failed before.
///
/// # Errors
///
/// - `Read`: a read failed. All entries before it were answered.
/// - `Write`: a write failed or took no byte, or a flush failed. The answers are cut off somewhere.
/// - `NoEntry`: what follows the entries that were answered is no entry; or the input has ended within one.
/// - `TooLong`: there were more than 2^64 - 1 reads. The entries of the first ones were answered.
/// - `Memory`: there was none for an entry. Those before it were answered.
pub fn attend<R: Read, O: Write>(
    alloc: Global,
    setup: Setup,
    recovers: bool,
    reader: &mut Watch<R>,
    out: &mut Watch<O>,
) -> Result<(), AttendError>
    requires reading { has_failed reader.old ≡ false }
    requires working { has_failed out.old ≡ false }
    ensures ok { OnOk result (AttendsAll setup recovers (R.remaining (inner_of reader.old))
        (O.contents (inner_of out.old)) (O.contents (inner_of out.new))) }

    // Before a read nobody knows whether it will fail, and after one that failed nothing may be written. So each read begins with
    // all entries before it answered.
    ensures ends { IfErr result (λ error. EndsBy error setup recovers (R.remaining (inner_of reader.old))
        (R.remaining (inner_of reader.new)) (O.contents (inner_of out.old)) (O.contents (inner_of out.new))) }

    // A stream is blamed where it has failed, and only there.
    ensures whole { OnOk result ((has_failed reader.new ≡ false) × (has_failed out.new ≡ false)) }
    ensures blamed { IfErr result (λ error. (has_failed reader.new ≡ is_read error) × (has_failed out.new ≡ is_write error)) }
    ensures flushed { IsFlushed out.new }
{
    if let Err(error) = begin(&setup, out) {
        return Err(error);
    }
    let mut recorder = Recorder::new(alloc, setup, recovers);
    let mut text = Vec::new(alloc);
    'reads: for _ in 0..u64::MAX {
        let is_more = match attend_more(alloc, &mut recorder, &mut text, reader, out) {
            Ok(is_more) => is_more,
            Err(error) => return Err(error),
        };
        if !is_more {
            return Ok(());
        }
    }
    Err(AttendError::TooLong)
}
