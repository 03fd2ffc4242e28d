//! The subcommand `record`.
ghost use Rattle.std.specs.Prelude.{◌≡◌, ◌≢◌, ◌≤◌, ◌+◌, ◌++◌, ◌⊎◌, false, true};
ghost use Rattle.std.specs.Io.KnownBytes.{Appends};
ghost use Rattle.arrayvec.specs.ArrayVec.{array_vec_len};
ghost use Rattle.board_events.specs.declared.setup.Setup.{Setup as SetupOf};
ghost use Rattle.watched_streams.specs.Watch.{IsFlushed, inner_of, has_failed};
ghost use Rattle.dgt_replay.specs.Does.{Records};
ghost use Rattle.text_subcommands.specs.Refusals.{Refuses};
ghost use Rattle.text_subcommands.specs.Messages.{Says};
ghost use Rattle.watched_streams.specs.Output.{AppendsPart};
ghost use Rattle.dgt_replay.specs.Recorded.{EndsFor, Fails, RecordsAndTells, report_line};
ghost use Rattle.dgt_replay.specs.Status.{message_of};
ghost use Rattle.replay_arguments.specs.Setups.{ForMemory, Meets, MeetsNothing, tag_text};
ghost use Rattle.chess_text.specs.Start.{given};
ghost use Rattle.dgt_replay.specs.Refusals.{RefusesSetup};
ghost use Rattle.dgt_replay.specs.Inside.Refused.{refusal_message, status_of};
ghost use Rattle.text_subcommands.specs.Streams.{streams};

use board_session::{RecordError, Report, Setup, record};
use chess_text::laws::texts_tell_positions;
use replay_arguments::{RecordArguments, Refusal, setup_of};
use std::alloc::Global;
use std::io::{Read, Write};
use text_subcommands::{refused, refused_fen, refused_tag};
use watched_streams::{GATHERED, LONGEST, Lines, Watch, add, add_number, put};

/// Says why a game can't be set up, and returns the status.
pub fn refused_setup<E: Write>(err: &mut Watch<E>, refusal: Refusal) -> u8
    ensures memory { ForMemory refusal → result ≡ 4 }
    ensures refused { ¬ ForMemory refusal → result ≡ 1 }
    ensures says { Says (E.contents (inner_of err.old)) (E.contents (inner_of err.new)) (has_failed err.new) (refusal_message refusal) }
{
    match refusal {
        Refusal::Fen(error) => refused_fen(err, error),
        Refusal::Tag { tag, error } => refused_tag(err, tag, error),
    }
}

/// Adds the line about a recording, which begins a new line after the bytes for the board.
fn add_report(lines: &mut Lines, report: &Report)
    requires { array_vec_len lines.old + LONGEST ≤ GATHERED }
    ensures { lines.new.items ≡ lines.old.items ++ report_line report.now }
{
    add(lines, b"\nmessages ");
    add_number(lines, report.messages);
    add(lines, b", faults ");
    add_number(lines, report.faults);
    add(lines, b", moves ");
    add_number(lines, report.moves);
    add(lines, b", rest ");
    add_number(lines, u32::from(report.rest));
    add(lines, b"\n");
}

/// Writes the line about a recording, and returns the status: 3 where the line could not be written to its end.
fn tell<E: Write>(err: &mut Watch<E>, report: &Report) -> u8
    requires { has_failed err.old ≡ false }
    ensures done { result ≡ 0 → Appends (E.contents (inner_of err.old)) (E.contents (inner_of err.new)) (report_line report.now) × (has_failed err.new ≡ false) }
    ensures fault { result ≡ 3 → AppendsPart (E.contents (inner_of err.old)) (E.contents (inner_of err.new)) (report_line report.now) × (has_failed err.new ≡ true) }
    ensures known { (result ≡ 0) ⊎ (result ≡ 3) }
{
    let mut lines = Lines::new();
    add_report(&mut lines, report);
    match put(err, lines.as_slice()) {
        Ok(()) => 0,
        Err(_) => 3,
    }
}

/// What the program says of a recording that was given up, on a line after the bytes for the board: nothing where their
/// stream has failed.
fn line_of(error: RecordError) -> &'static [u8]
    ensures { result.now ≡ message_of error }
{
    match error {
        RecordError::Memory => b"\nmemory\n",
        RecordError::Read => b"\nread fault\n",
        RecordError::Board => b"",
        RecordError::Write => b"\nwrite fault\n",
        RecordError::TooLong => b"\ninput: too long\n",
    }
}

/// The exit status that tells of it.
fn status_of(error: RecordError) -> u8
    ensures { result ≡ status_of error }
{
    match error {
        RecordError::Read | RecordError::Board | RecordError::Write => 3,
        RecordError::TooLong => 1,
        RecordError::Memory => 4,
    }
}

/// Records the game that is set up so, and returns the status.
fn record_as<R: Read, O: Write, E: Write>(
    alloc: Global,
    setup: Setup,
    reader: &mut Watch<R>,
    out: &mut Watch<O>,
    err: &mut Watch<E>,
) -> u8
    requires reading { has_failed reader.old ≡ false }
    requires working { has_failed out.old ≡ false }
    requires erring { has_failed err.old ≡ false }
    ensures all { result ≡ 0 → RecordsAndTells setup (streams R.remaining O.contents E.contents reader.old reader.new out.old out.new err.old err.new) }
    ensures long { result ≡ 1 → EndsFor RecordError.TooLong setup (streams R.remaining O.contents E.contents reader.old reader.new out.old out.new err.old err.new) }
    ensures fails { result ≡ 3 → Fails setup (streams R.remaining O.contents E.contents reader.old reader.new out.old out.new err.old err.new) }
    ensures memory { result ≡ 4 → EndsFor RecordError.Memory setup (streams R.remaining O.contents E.contents reader.old reader.new out.old out.new err.old err.new) }
    ensures works { result ≡ 0 → (has_failed reader.new ≡ false) × ((has_failed out.new ≡ false) × (has_failed err.new ≡ false)) }
    ensures reader_blamed { has_failed reader.new ≡ true → result ≡ 3 }
    ensures out_blamed { has_failed out.new ≡ true → result ≡ 3 }
    ensures known { result ≤ 4 }
    ensures status { result ≢ 2 }
    ensures flushed { IsFlushed out.new }
{
    match record(alloc, setup, reader, err, out) {
        Ok(report) => tell(err, &report),
        Err(error) => refused(err, line_of(error), status_of(error)),
    }
}

/// Records the game of a board whose bytes are read, and returns the status. The bytes for the board go to `err`, and
/// one more line after them.
pub fn record_game<R: Read, O: Write, E: Write>(
    alloc: Global,
    options: &RecordArguments<'_>,
    reader: &mut Watch<R>,
    out: &mut Watch<O>,
    err: &mut Watch<E>,
) -> u8
    requires reading { has_failed reader.old ≡ false }
    requires working { has_failed out.old ≡ false }
    requires erring { has_failed err.old ≡ false }
    ensures records { (setup : SetupOf) → Meets options.now setup → Records setup result (streams R.remaining O.contents E.contents reader.old reader.new out.old out.new err.old err.new) }
    ensures refuses { MeetsNothing options.now → Refuses (RefusesSetup (given options.now.board.fen) (tag_text options.now)) result (streams R.remaining O.contents E.contents reader.old reader.new out.old out.new err.old err.new) }
    ensures works { result ≡ 0 → (has_failed reader.new ≡ false) × ((has_failed out.new ≡ false) × (has_failed err.new ≡ false)) }
    ensures reader_blamed { has_failed reader.new ≡ true → result ≡ 3 }
    ensures out_blamed { has_failed out.new ≡ true → result ≡ 3 }
    ensures known { result ≤ 4 }
    ensures status { result ≢ 2 }
    ensures flushed { IsFlushed out.old → IsFlushed out.new }
{
    // For its clause: no two setups are as the arguments say, since no two positions share a FEN.
    texts_tell_positions();
    match setup_of(alloc, options) {
        Ok(setup) => record_as(alloc, setup, reader, out, err),
        Err(refusal) => refused_setup(err, refusal),
    }
}
