//! The subcommand `live`.
ghost use Rattle.std.specs.Prelude.{◌≡◌, ◌≢◌, ◌≤◌, false, true};
ghost use Rattle.board_events.specs.declared.setup.Setup.{Setup as SetupOf};
ghost use Rattle.chess_text.specs.Start.{HasNoStart, given};
ghost use Rattle.dgt_replay.specs.Does.{AttendsBoard};
ghost use Rattle.dgt_replay.specs.Refusals.{RefusesSetup};
ghost use Rattle.replay_arguments.specs.Setups.{Meets, MeetsNothing, tag_text};
ghost use Rattle.text_subcommands.specs.Refusals.{Refuses};
ghost use Rattle.text_subcommands.specs.Streams.{streams};
ghost use Rattle.watched_streams.specs.Watch.{IsFlushed, has_failed, inner_of};

use crate::record::refused_setup;
use board_session::Setup;
use chess_text::laws::texts_tell_positions;
use live_lines::attend;
use replay_arguments::{LiveArguments, setup_of};
use std::alloc::Global;
use std::io::{Read, Write};
use text_subcommands::refused;
use watched_streams::Watch;

/// Attends a board whose game is set up so, and returns the status.
fn live_from<R: Read, O: Write, E: Write>(
    alloc: Global,
    setup: Setup,
    recovers: bool,
    reader: &mut Watch<R>,
    out: &mut Watch<O>,
    err: &mut Watch<E>,
) -> u8
    requires reading { has_failed reader.old ≡ false }
    requires working { has_failed out.old ≡ false }
    requires erring { has_failed err.old ≡ false }
    ensures attends { AttendsBoard setup recovers result
        (streams R.remaining O.contents E.contents reader.old reader.new out.old out.new err.old err.new) }
    ensures works { result ≡ 0 → (has_failed reader.new ≡ false) × ((has_failed out.new ≡ false) × (has_failed err.new ≡ false)) }
    ensures reader_blamed { has_failed reader.new ≡ true → result ≡ 3 }
    ensures out_blamed { has_failed out.new ≡ true → result ≡ 3 }
    ensures known { result ≤ 4 }
    ensures status { result ≢ 2 }
    ensures flushed { IsFlushed out.new }
{
    match attend(alloc, setup, recovers, reader, out) {
        Ok(()) => 0,
        Err(error) => refused(err, error.line(), error.status()),
    }
}

/// Attends a board for a host that records it, and returns the status: answers each entry on the input.
pub fn live<R: Read, O: Write, E: Write>(
    alloc: Global,
    options: &LiveArguments<'_>,
    reader: &mut Watch<R>,
    out: &mut Watch<O>,
    err: &mut Watch<E>,
) -> u8
    requires reading { has_failed reader.old ≡ false }
    requires working { has_failed out.old ≡ false }
    requires erring { has_failed err.old ≡ false }
    ensures attends { (setup : SetupOf) → Meets options.now.game setup → AttendsBoard setup options.now.recovers result
        (streams R.remaining O.contents E.contents reader.old reader.new out.old out.new err.old err.new) }
    ensures refuses { MeetsNothing options.now.game → Refuses (RefusesSetup (given options.now.game.board.fen) (tag_text options.now.game)) result
        (streams R.remaining O.contents E.contents reader.old reader.new out.old out.new err.old err.new) }
    ensures refused { HasNoStart (given options.now.game.board.fen) → result ≡ 1 }
    ensures works { result ≡ 0 → (has_failed reader.new ≡ false) × ((has_failed out.new ≡ false) × (has_failed err.new ≡ false)) }
    ensures reader_blamed { has_failed reader.new ≡ true → result ≡ 3 }
    ensures out_blamed { has_failed out.new ≡ true → result ≡ 3 }
    ensures known { result ≤ 4 }
    ensures status { result ≢ 2 }
    ensures flushed { IsFlushed out.old → IsFlushed out.new }
{
    // For its clause: no two setups are as the arguments say, since no two positions share a FEN.
    texts_tell_positions();
    match setup_of(alloc, &options.game) {
        Ok(setup) => live_from(alloc, setup, options.recovers, reader, out, err),
        Err(refusal) => refused_setup(err, refusal),
    }
}
