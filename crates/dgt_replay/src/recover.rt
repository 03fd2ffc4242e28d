//! The subcommand `recover`.
ghost use Rattle.std.specs.Prelude.{◌≡◌, ◌≢◌, ◌≤◌, false, true};
ghost use Rattle.board_events.specs.Settings.{Setting};
ghost use Rattle.watched_streams.specs.Watch.{IsFlushed, inner_of, has_failed};
ghost use Rattle.dgt_replay.specs.Does.{RecoversPairs};
ghost use Rattle.text_subcommands.specs.Refusals.{Refuses, RefusesStart};
ghost use Rattle.text_subcommands.specs.Streams.{streams};
ghost use Rattle.replay_arguments.specs.Setups.{MeetsBoard};
ghost use Rattle.chess_text.specs.Start.{HasNoStart, given};

use chess_rules::Position;
use chess_text::start_of;
use recovery::recover_stream;
use replay_arguments::BoardArguments;
use std::alloc::Global;
use std::io::{Read, Write};
use text_subcommands::{refused, refused_fen};
use watched_streams::{Watch, flush_unless_failed};

/// Gives on a stream that begins in this position, and returns the status.
fn recover_from<R: Read, O: Write, E: Write>(
    alloc: Global,
    start: Position,
    options: &BoardArguments<'_>,
    reader: &mut Watch<R>,
    out: &mut Watch<O>,
    err: &mut Watch<E>,
) -> u8
    requires reading { has_failed reader.old ≡ false }
    requires working { has_failed out.old ≡ false }
    requires erring { has_failed err.old ≡ false }
    ensures recovers { RecoversPairs (record { start = start; first = options.now.first; rotated = options.now.rotated }) result
        (streams R.remaining O.contents E.contents reader.old reader.new out.old out.new err.old err.new) }
    ensures works { result ≡ 0 → (has_failed reader.new ≡ false) × ((has_failed out.new ≡ false) × (has_failed err.new ≡ false)) }
    ensures reader_blamed { has_failed reader.new ≡ true → result ≡ 3 }
    ensures out_blamed { has_failed out.new ≡ true → result ≡ 3 }
    ensures known { result ≤ 4 }
    ensures status { result ≢ 2 }
    ensures flushed { IsFlushed out.new }
    ensures told { result ≡ 0 → IsFlushed err.old → IsFlushed err.new }
{
    let done = recover_stream(
        alloc,
        start,
        options.first,
        options.rotated,
        reader,
        out,
        err,
    );
    if !flush_unless_failed(out) {
        return refused(err, b"write fault\n", 3);
    }
    match done {
        Ok(()) => 0,
        Err(error) => refused(err, error.line(), error.status()),
    }
}

/// Gives on the bytes of a board, with the moves put in that two hands hid, and returns the status. The line of each
/// pair goes to `err`.
pub fn recover<R: Read, O: Write, E: Write>(
    alloc: Global,
    options: &BoardArguments<'_>,
    reader: &mut Watch<R>,
    out: &mut Watch<O>,
    err: &mut Watch<E>,
) -> u8
    requires reading { has_failed reader.old ≡ false }
    requires working { has_failed out.old ≡ false }
    requires erring { has_failed err.old ≡ false }
    ensures recovers { (setting : Setting) → MeetsBoard options.now setting → RecoversPairs setting result
        (streams R.remaining O.contents E.contents reader.old reader.new out.old out.new err.old err.new) }
    ensures refuses { HasNoStart (given options.now.fen) → Refuses (RefusesStart (given options.now.fen)) result
        (streams R.remaining O.contents E.contents reader.old reader.new out.old out.new err.old err.new) }
    ensures refused { HasNoStart (given options.now.fen) → result ≡ 1 }
    ensures works { result ≡ 0 → (has_failed reader.new ≡ false) × ((has_failed out.new ≡ false) × (has_failed err.new ≡ false)) }
    ensures reader_blamed { has_failed reader.new ≡ true → result ≡ 3 }
    ensures out_blamed { has_failed out.new ≡ true → result ≡ 3 }
    ensures known { result ≤ 4 }
    ensures status { result ≢ 2 }
    ensures flushed { IsFlushed out.old → IsFlushed out.new }
    ensures told { result ≡ 0 → IsFlushed err.old → IsFlushed err.new }
{
    match start_of(options.fen) {
        Ok(start) => recover_from(alloc, start, options, reader, out, err),
        Err(error) => refused_fen(err, error),
    }
}
