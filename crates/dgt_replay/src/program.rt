//! The program over any streams.
ghost use Rattle.std.specs.Prelude.{◌≡◌, ◌≢◌, ◌≤◌, Bool, List, [], ℕ, Option, codes, map, string_bytes, false, true};
ghost use Rattle.std.specs.Borrow.{Bor};
ghost use Rattle.std.specs.Io.KnownBytes.{Keeps};
ghost use Rattle.board_events.specs.declared.setup.Setup.{Setup};
ghost use Rattle.board_events.specs.Settings.{Setting};
ghost use Rattle.chess_rules.specs.declared.parts.Parts.{Parts as PartsOf};
ghost use Rattle.clap.specs.Values.{kind_of};
ghost use Rattle.clap.specs.Walk.{Row, first_of};
ghost use Rattle.watched_streams.specs.Watch.{IsFlushed, inner_of, has_failed};
ghost use Rattle.replay_arguments.specs.declared.arguments.BoardArguments.{BoardArguments as BoardOptions};
ghost use Rattle.replay_arguments.specs.Subcommands.{AreMistaken, Asks, AsksForHelp, AsksForVersion, AsksToAdd, AsksToAttend, AsksToFollow, AsksToGoBack, AsksToRecord, AsksToRecover, AsksToReplace, AsksToWatch, IsCheck, IsPictures, IsRefused, IsShow, IsTimes};
ghost use Rattle.board_listing.specs.declared.listing.Listing.{Listing};
ghost use Rattle.board_listing.specs.EventLines.{rest_line};
ghost use Rattle.board_listing.specs.OneText.{event_lines, no_line, picture_lines};
ghost use Rattle.replay_arguments.specs.Setups.{MeetsBoard, SetsUpNothing};
ghost use Rattle.chess_text.specs.Start.{HasNoStart, StartsAt, given};
ghost use Rattle.replay_arguments.specs.TagOptions.{option_of};
ghost use Rattle.text_subcommands.specs.Checked.{Checks};
ghost use Rattle.dgt_replay.specs.Add.{AddsLine};
ghost use Rattle.dgt_replay.specs.Back.{TakesBack};
ghost use Rattle.dgt_replay.specs.Instead.{PutsInstead};
ghost use Rattle.dgt_replay.specs.Does.{AttendsBoard, Lists, Records, RecoversPairs, WritesText};
ghost use Rattle.dgt_replay.specs.Inside.Dispatching.{Does, game_listing};
ghost use Rattle.dgt_replay.specs.Edit.{text_in};
ghost use Rattle.text_subcommands.specs.Played.{Plays};
ghost use Rattle.text_subcommands.specs.Printed.{Prints};
ghost use Rattle.text_subcommands.specs.Timed.{TellsTimes};
ghost use Rattle.text_subcommands.specs.Refusals.{Refuses, RefusesStart};
ghost use Rattle.dgt_replay.specs.Refusals.{RefusesSetup};
ghost use Rattle.dgt_replay.specs.Messages.{GivesText, RefusesArguments};
ghost use Rattle.text_subcommands.specs.Messages.{Says};
ghost use Rattle.text_subcommands.specs.Streams.{streams};

use crate::edit::{EditKind, edit};
use crate::live::live;
use crate::record::record_game;
use crate::recover::recover;
use board_listing::{Listing, list_stream};
use chess_rules::Position;
use chess_text::start_of;
use clap::Error;
use clap::error::ErrorKind;
use dgt_frame::First;
use replay_arguments::laws::without_options;
use replay_arguments::{BoardArguments, Subcommand, read_arguments};
use std::alloc::Global;
use std::io::{Read, Write};
use text_subcommands::{check, moves, positions, put_answer, refused, refused_fen, times};
use watched_streams::{Watch, flush_unless_failed};

/// The text, or where help is if it is empty: `clap` promises nothing of its texts.
fn or_where_help_is(text: &[u8]) -> &[u8]
    ensures kept { text.now ≢ [] → result.now ≡ text.now }
    ensures not_empty { result.now ≢ [] }
{
    if text.is_empty() {
        b"dgt_replay: help is in README.md\n"
    } else {
        text
    }
}

/// Writes the text of `clap`, and returns its status.
fn refused_arguments<O: Write, E: Write>(
    alloc: Global,
    error: &Error,
    out: &mut Watch<O>,
    err: &mut Watch<E>,
) -> u8
    requires working { has_failed out.old ≡ false }
    requires erring { has_failed err.old ≡ false }
    ensures memory { kind_of error.now ≡ ErrorKind.OutOfMemory → (result ≡ 4) × Keeps (O.contents (inner_of out.old)) (O.contents (inner_of out.new))
        × Says (E.contents (inner_of err.old)) (E.contents (inner_of err.new)) (has_failed err.new) (codes "memory\n") }
    ensures memory_unwritten { kind_of error.now ≡ ErrorKind.OutOfMemory → out.new ≡ out.old }
    ensures refuses { kind_of error.now ≢ ErrorKind.DisplayHelp → kind_of error.now ≢ ErrorKind.DisplayVersion → (out.new ≡ out.old)
        × RefusesArguments result (E.contents (inner_of err.old)) (E.contents (inner_of err.new)) (has_failed err.new) }
    ensures help { kind_of error.now ≡ ErrorKind.DisplayHelp → GivesText result (O.contents (inner_of out.old)) (O.contents (inner_of out.new))
        (E.contents (inner_of err.old)) (E.contents (inner_of err.new)) (has_failed out.new) (has_failed err.new) }
    ensures version { kind_of error.now ≡ ErrorKind.DisplayVersion → GivesText result (O.contents (inner_of out.old)) (O.contents (inner_of out.new))
        (E.contents (inner_of err.old)) (E.contents (inner_of err.new)) (has_failed out.new) (has_failed err.new) }
    ensures works { result ≡ 0 → (has_failed out.new ≡ false) × (has_failed err.new ≡ false) }
    ensures out_blamed { has_failed out.new ≡ true → result ≡ 3 }
    ensures known { result ≤ 4 }
    ensures flushed { IsFlushed out.old → IsFlushed out.new }
{
    if matches!(error.kind(), ErrorKind::OutOfMemory) {
        return refused(err, b"memory\n", 4);
    }
    let Ok(text) = format!(in alloc; "{error}") else {
        return refused(err, b"memory\n", 4);
    };
    let text = or_where_help_is(text.as_str().as_bytes());
    if error.use_stderr() {
        return refused(err, text, 2);
    }
    put_answer(out, err, text)
}

fn list<R: Read, O: Write, E: Write>(
    alloc: Global,
    listing: Listing,
    reader: &mut Watch<R>,
    out: &mut Watch<O>,
    err: &mut Watch<E>,
) -> u8
    requires reading { has_failed reader.old ≡ false }
    requires working { has_failed out.old ≡ false }
    requires erring { has_failed err.old ≡ false }
    ensures lists { Lists listing result (streams R.remaining O.contents E.contents reader.old reader.new out.old out.new err.old err.new) }
    ensures works { result ≡ 0 → (has_failed reader.new ≡ false) × ((has_failed out.new ≡ false) × (has_failed err.new ≡ false)) }
    ensures reader_blamed { has_failed reader.new ≡ true → result ≡ 3 }
    ensures out_blamed { has_failed out.new ≡ true → result ≡ 3 }
    ensures known { result ≤ 4 }
    ensures status { result ≢ 2 }
    ensures flushed { IsFlushed out.new }
{
    let done = list_stream(alloc, listing, reader, out);
    if !flush_unless_failed(out) {
        return refused(err, b"write fault\n", 3);
    }
    match done {
        Ok(()) => 0,
        Err(error) => refused(err, error.line(), error.status()),
    }
}

/// What is listed of a game that is followed or watched.
fn game_listing(watched: bool, start: Position, first: First, rotated: bool) -> Listing
    ensures { let setting : Setting = record { start = start; first = first; rotated = rotated } in result ≡ game_listing watched setting }
{
    if watched {
        Listing::Watched {
            start,
            first,
            rotated,
        }
    } else {
        Listing::Game {
            start,
            first,
            rotated,
        }
    }
}

/// Lists what each event makes of a game; where it is watched, with what the board and the clocks show.
fn follow<R: Read, O: Write, E: Write>(
    alloc: Global,
    watched: bool,
    options: &BoardArguments<'_>,
    reader: &mut Watch<R>,
    out: &mut Watch<O>,
    err: &mut Watch<E>,
) -> u8
    requires reading { has_failed reader.old ≡ false }
    requires working { has_failed out.old ≡ false }
    requires erring { has_failed err.old ≡ false }
    ensures lists { (setting : Setting) → MeetsBoard options.now setting → Lists (game_listing watched setting) result
        (streams R.remaining O.contents E.contents reader.old reader.new out.old out.new err.old err.new) }
    ensures refuses { HasNoStart (given options.now.fen) → Refuses (RefusesStart (given options.now.fen)) result
        (streams R.remaining O.contents E.contents reader.old reader.new out.old out.new err.old err.new) }
    ensures refused { HasNoStart (given options.now.fen) → result ≡ 1 }
    ensures works { result ≡ 0 → (has_failed reader.new ≡ false) × ((has_failed out.new ≡ false) × (has_failed err.new ≡ false)) }
    ensures reader_blamed { has_failed reader.new ≡ true → result ≡ 3 }
    ensures out_blamed { has_failed out.new ≡ true → result ≡ 3 }
    ensures known { result ≤ 4 }
    ensures status { result ≢ 2 }
    ensures flushed { IsFlushed out.old → IsFlushed out.new }
{
    match start_of(options.fen) {
        Ok(start) => {
            let listing = game_listing(watched, start, options.first, options.rotated);
            list(alloc, listing, reader, out, err)
        }
        Err(error) => refused_fen(err, error),
    }
}

/// Does what the subcommand asks for.
fn dispatch<R: Read, O: Write, E: Write>(
    alloc: Global,
    subcommand: &Subcommand<'_>,
    reader: &mut Watch<R>,
    out: &mut Watch<O>,
    err: &mut Watch<E>,
) -> u8
    requires reading { has_failed reader.old ≡ false }
    requires working { has_failed out.old ≡ false }
    requires erring { has_failed err.old ≡ false }
    ensures does { Does subcommand.now result (streams R.remaining O.contents E.contents reader.old reader.new out.old out.new err.old err.new) }
    ensures moves_unread { (fen : Option (Bor (List ℕ))) → subcommand.now ≡ Subcommand.Moves fen → reader.new ≡ reader.old }
    ensures works { result ≡ 0 → (has_failed reader.new ≡ false) × ((has_failed out.new ≡ false) × (has_failed err.new ≡ false)) }
    ensures reader_blamed { has_failed reader.new ≡ true → result ≡ 3 }
    ensures out_blamed { has_failed out.new ≡ true → result ≡ 3 }
    ensures known { result ≤ 4 }
    ensures status { result ≢ 2 }
    ensures flushed { IsFlushed out.old → IsFlushed out.new }
    ensures recover_told { (options : BoardOptions) → subcommand.now ≡ Subcommand.Recover options → result ≡ 0
        → IsFlushed err.old → IsFlushed err.new }
{
    match subcommand {
        Subcommand::Show => list(alloc, Listing::Events, reader, out, err),
        Subcommand::Pictures { rotated } => {
            let pictures = Listing::Pictures { rotated: *rotated };
            list(alloc, pictures, reader, out, err)
        }
        Subcommand::Record(options) => record_game(alloc, options, reader, out, err),
        Subcommand::Follow(options) => follow(alloc, false, options, reader, out, err),
        Subcommand::Watch(options) => follow(alloc, true, options, reader, out, err),
        Subcommand::Recover(options) => recover(alloc, options, reader, out, err),
        Subcommand::Add(options) => edit(alloc, EditKind::Add, options, reader, out, err),
        Subcommand::Back(options) => edit(alloc, EditKind::Back, options, reader, out, err),
        Subcommand::Instead(options) => edit(alloc, EditKind::Instead, options, reader, out, err),
        Subcommand::Live(options) => live(alloc, options, reader, out, err),
        Subcommand::Check => check(alloc, reader, out, err),
        Subcommand::Times => times(alloc, reader, out, err),
        Subcommand::Moves { fen } => moves(alloc, *fen, out, err),
        Subcommand::Positions { fen } => positions(alloc, *fen, reader, out, err),
    }
}

/// Does what the arguments ask for, of which the first is the program's name, and returns the exit status: 0 where all
/// was done, or help or the version was asked for, 1 where the input is refused, 2 where the arguments are, 3 where a
/// stream has failed, 4 where memory ran out. Under `record` the bytes for the board go to `err`, under `recover` the
/// lines. No stream may have failed before.
pub fn run<R: Read, O: Write, E: Write>(
    alloc: Global,
    arguments: &[String],
    reader: &mut Watch<R>,
    out: &mut Watch<O>,
    err: &mut Watch<E>,
) -> u8
    requires reading { has_failed reader.old ≡ false }
    requires working { has_failed out.old ≡ false }
    requires erring { has_failed err.old ≡ false }

    // `show`: the lines of the events, and of the rest.
    ensures show { IsShow (map string_bytes arguments.now) → WritesText event_lines rest_line result
        (streams R.remaining O.contents E.contents reader.old reader.new out.old out.new err.old err.new) }

    // `pictures`, with or without `--rotated`: the placements.
    ensures pictures { (rotated : Bool) → IsPictures rotated (map string_bytes arguments.now) → WritesText (picture_lines rotated) no_line result
        (streams R.remaining O.contents E.contents reader.old reader.new out.old out.new err.old err.new) }

    // `record` with any options: the game, from the start and with the tags that they say. Where no position has the
    // FEN, or a tag may not have its text, the first reason is said.
    ensures record_is { (setup : Setup) → AsksToRecord (map string_bytes arguments.now) setup → Records setup result
        (streams R.remaining O.contents E.contents reader.old reader.new out.old out.new err.old err.new) }
    ensures record_refuses { (rows : List Row) → Asks (map string_bytes arguments.now) (codes "record") rows → SetsUpNothing rows
        → Refuses (RefusesSetup (first_of (codes "fen") rows) (λ tag. first_of (option_of tag) rows)) result
        (streams R.remaining O.contents E.contents reader.old reader.new out.old out.new err.old err.new) }

    // `follow` with any options: the lines of what each event makes of the game, from the start that they say. Where no
    // position has the FEN, the reason is said.
    ensures follow { (setting : Setting) → AsksToFollow (map string_bytes arguments.now) setting → Lists (Listing.Game setting.start setting.first setting.rotated) result
        (streams R.remaining O.contents E.contents reader.old reader.new out.old out.new err.old err.new) }
    ensures follow_refuses { (rows : List Row) → Asks (map string_bytes arguments.now) (codes "follow") rows → HasNoStart (first_of (codes "fen") rows)
        → Refuses (RefusesStart (first_of (codes "fen") rows)) result
        (streams R.remaining O.contents E.contents reader.old reader.new out.old out.new err.old err.new) }

    // `watch` with any options: the same lines, and between them those of what the board and the clocks show and of
    // each position.
    ensures watch { (setting : Setting) → AsksToWatch (map string_bytes arguments.now) setting → Lists (Listing.Watched setting.start setting.first setting.rotated) result
        (streams R.remaining O.contents E.contents reader.old reader.new out.old out.new err.old err.new) }
    ensures watch_refuses { (rows : List Row) → Asks (map string_bytes arguments.now) (codes "watch") rows → HasNoStart (first_of (codes "fen") rows)
        → Refuses (RefusesStart (first_of (codes "fen") rows)) result
        (streams R.remaining O.contents E.contents reader.old reader.new out.old out.new err.old err.new) }

    // `recover` with any options: the bytes with what is put in, and its lines, from the start that they say. Where no
    // position has the FEN, the reason is said.
    ensures recover { (setting : Setting) → AsksToRecover (map string_bytes arguments.now) setting → RecoversPairs setting result
        (streams R.remaining O.contents E.contents reader.old reader.new out.old out.new err.old err.new) }
    ensures recover_refuses { (rows : List Row) → Asks (map string_bytes arguments.now) (codes "recover") rows → HasNoStart (first_of (codes "fen") rows)
        → Refuses (RefusesStart (first_of (codes "fen") rows)) result
        (streams R.remaining O.contents E.contents reader.old reader.new out.old out.new err.old err.new) }

    // `add` with any options: the bytes that the typed line adds to the capture, or why it adds nothing. Where no position
    // has the FEN, the reason is said.
    ensures add { (setting : Setting) (recovers : Bool) (line : Option (List ℕ)) → AsksToAdd (map string_bytes arguments.now) setting recovers line
        → AddsLine setting recovers (text_in line) result (streams R.remaining O.contents E.contents reader.old reader.new out.old out.new err.old err.new) }
    ensures add_refuses { (rows : List Row) → Asks (map string_bytes arguments.now) (codes "add") rows → HasNoStart (first_of (codes "fen") rows)
        → Refuses (RefusesStart (first_of (codes "fen") rows)) result
        (streams R.remaining O.contents E.contents reader.old reader.new out.old out.new err.old err.new) }

    // `back` with any options: the capture of a game that goes back as far as the text says, or why it doesn't. Where no
    // position has the FEN, the reason is said.
    ensures back { (setting : Setting) (recovers : Bool) (to : Option (List ℕ)) → AsksToGoBack (map string_bytes arguments.now) setting recovers to
        → TakesBack setting recovers (text_in to) result (streams R.remaining O.contents E.contents reader.old reader.new out.old out.new err.old err.new) }
    ensures back_refuses { (rows : List Row) → Asks (map string_bytes arguments.now) (codes "back") rows → HasNoStart (first_of (codes "fen") rows)
        → Refuses (RefusesStart (first_of (codes "fen") rows)) result
        (streams R.remaining O.contents E.contents reader.old reader.new out.old out.new err.old err.new) }

    // `instead` with any options: the capture of a game that gets the moves of the line in place of its last ones, or why it
    // doesn't. Where no position has the FEN, the reason is said.
    ensures instead { (setting : Setting) (recovers : Bool) (line : Option (List ℕ)) → AsksToReplace (map string_bytes arguments.now) setting recovers line
        → PutsInstead setting recovers (text_in line) result (streams R.remaining O.contents E.contents reader.old reader.new out.old out.new err.old err.new) }
    ensures instead_refuses { (rows : List Row) → Asks (map string_bytes arguments.now) (codes "instead") rows → HasNoStart (first_of (codes "fen") rows)
        → Refuses (RefusesStart (first_of (codes "fen") rows)) result
        (streams R.remaining O.contents E.contents reader.old reader.new out.old out.new err.old err.new) }

    // `live` with any options: the answers to what a host tells of a board that it records, from the start and with the tags
    // that they say. Where no position has the FEN, or a tag may not have its text, the first reason is said.
    ensures live { (setup : Setup) (recovers : Bool) → AsksToAttend (map string_bytes arguments.now) setup recovers → AttendsBoard setup recovers result
        (streams R.remaining O.contents E.contents reader.old reader.new out.old out.new err.old err.new) }
    ensures live_refuses { (rows : List Row) → Asks (map string_bytes arguments.now) (codes "live") rows → SetsUpNothing rows
        → Refuses (RefusesSetup (first_of (codes "fen") rows) (λ tag. first_of (option_of tag) rows)) result
        (streams R.remaining O.contents E.contents reader.old reader.new out.old out.new err.old err.new) }

    // `check`: the input is the export text of a game.
    ensures check { IsCheck (map string_bytes arguments.now) → Checks result (streams R.remaining O.contents E.contents reader.old reader.new out.old out.new err.old err.new) }

    // `times`: the input is a file of times, and its lines were written.
    ensures times { IsTimes (map string_bytes arguments.now) → TellsTimes result (streams R.remaining O.contents E.contents reader.old reader.new out.old out.new err.old err.new) }

    // `moves` with any options: the legal moves of the position that they say. It reads nothing.
    ensures moves { (rows : List Row) → Asks (map string_bytes arguments.now) (codes "moves") rows → Prints (first_of (codes "fen") rows) result
        (streams R.remaining O.contents E.contents reader.old reader.new out.old out.new err.old err.new) }
    ensures moves_unread { (rows : List Row) → Asks (map string_bytes arguments.now) (codes "moves") rows → reader.new ≡ reader.old }

    // `positions` with any options: the position that they say, and that after each move of the input, as FEN. Where no
    // position has the FEN, the reason is said.
    ensures positions { (rows : List Row) → Asks (map string_bytes arguments.now) (codes "positions") rows → (start : PartsOf) → StartsAt (first_of (codes "fen") rows) start
        → Plays start result (streams R.remaining O.contents E.contents reader.old reader.new out.old out.new err.old err.new) }
    ensures positions_refuses { (rows : List Row) → Asks (map string_bytes arguments.now) (codes "positions") rows → HasNoStart (first_of (codes "fen") rows)
        → Refuses (RefusesStart (first_of (codes "fen") rows)) result
        (streams R.remaining O.contents E.contents reader.old reader.new out.old out.new err.old err.new) }

    // Mistaken arguments: nothing is read, nothing is written to the output, and the reason alone is said. Help and the
    // version read nothing.
    ensures mistaken { AreMistaken (map string_bytes arguments.now) → (reader.new ≡ reader.old) × ((out.new ≡ out.old)
        × RefusesArguments result (E.contents (inner_of err.old)) (E.contents (inner_of err.new)) (has_failed err.new)) }
    ensures help { AsksForHelp (map string_bytes arguments.now) → (reader.new ≡ reader.old) × GivesText result (O.contents (inner_of out.old)) (O.contents (inner_of out.new))
        (E.contents (inner_of err.old)) (E.contents (inner_of err.new)) (has_failed out.new) (has_failed err.new) }
    ensures version { AsksForVersion (map string_bytes arguments.now) → (reader.new ≡ reader.old) × GivesText result (O.contents (inner_of out.old)) (O.contents (inner_of out.new))
        (E.contents (inner_of err.old)) (E.contents (inner_of err.new)) (has_failed out.new) (has_failed err.new) }

    // Whatever was asked for, status 0 comes only where no stream has failed; where the input or the output has, it is
    // 3.
    ensures works { result ≡ 0 → (has_failed reader.new ≡ false) × ((has_failed out.new ≡ false) × (has_failed err.new ≡ false)) }
    ensures reader_blamed { has_failed reader.new ≡ true → result ≡ 3 }
    ensures out_blamed { has_failed out.new ≡ true → result ≡ 3 }

    // Whatever was asked for, what was written to the output doesn't wait for a flush, unless a call on it has failed.
    // Under `recover` with status 0 neither does a line on standard error.
    ensures flushed { IsFlushed out.old → IsFlushed out.new }
    ensures recover_told { (rows : List Row) → Asks (map string_bytes arguments.now) (codes "recover") rows → result ≡ 0
        → IsFlushed err.old → IsFlushed err.new }

    // There is no other status, and 2 is for arguments that are refused.
    ensures known { result ≤ 4 }
    ensures usage { result ≡ 2 → IsRefused (map string_bytes arguments.now) }
{
    // For its clause: what arguments without options mean.
    without_options();
    match read_arguments(alloc, arguments) {
        Err(error) => refused_arguments(alloc, &error, out, err),
        Ok(subcommand) => dispatch(alloc, &subcommand, reader, out, err),
    }
}
