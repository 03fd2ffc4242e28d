//! The command line of the program, as `clap` parses it.
ghost use Rattle.std.specs.Prelude.{◌≡◌, IfOk};
ghost use Rattle.clap.specs.Simple.{App, app_of, new_app};
ghost use Rattle.replay_arguments.specs.Command.{AddsRule, AddsApp, IsApp, Makes, add_app, back_app, check_app, follow_app, instead_app, live_app, moves_app, pictures_app, positions_app, record_app, recover_app, recover_rule, replay, rotated_rule, show_app, text_rule, times_app, watch_app, with_board, with_board_subcommands, with_edit, with_edit_subcommands, with_tags, with_text_subcommands};

use crate::tag_options::{option_help, option_name};
use chess_game::Tag;
use clap::{Arg, ArgAction, Command};
use std::alloc::{AllocError, Global};

/// The version of the program.
const VERSION: &str = "0.1.0";

/// The command with a flag more. Where memory ran out before, it stays so.
fn with_rotated<'a>(
    alloc: Global,
    command: Result<Command<'a>, AllocError>,
) -> Result<Command<'a>, AllocError>
    ensures { AddsRule command.entry rotated_rule result }
{
    let command = command?;
    let rotated = Arg::new(alloc, "rotated")
        .long("rotated")
        .action(ArgAction::SetTrue)
        .help("Field n means square 63 - n: Black has the connector on the left");
    command.arg(rotated)
}

/// The command with an option more, which has a value. Where memory ran out before, it stays so.
fn with_text<'a>(
    alloc: Global,
    command: Result<Command<'a>, AllocError>,
    name: &'a str,
    value: &'a str,
    help: &'a str,
) -> Result<Command<'a>, AllocError>
    ensures { AddsRule command.entry (text_rule name.entry.now) result }
{
    let command = command?;
    let text = Arg::new(alloc, name)
        .long(name)
        .value_name(value)
        .help(help);
    command.arg(text)
}

/// The command with a subcommand more. Where memory ran out before, for either, it stays so.
fn with_subcommand<'a>(
    command: Result<Command<'a>, AllocError>,
    subcommand: Result<Command<'a>, AllocError>,
) -> Result<Command<'a>, AllocError>
    ensures { AddsApp command.entry subcommand.entry result }
{
    let command = command?;
    command.subcommand(subcommand?)
}

/// A command of this name, without arguments.
fn named<'a>(alloc: Global, name: &'a str, about: &'a str) -> Command<'a>
    ensures { IsApp result (new_app name.entry.now) }
{
    Command::new(alloc, name).about(about)
}

fn show<'a>(alloc: Global) -> Command<'a>
    ensures { IsApp result show_app }
{
    named(
        alloc,
        "show",
        "Prints one line for each message and fault of a capture on standard input",
    )
}

fn pictures<'a>(alloc: Global) -> Result<Command<'a>, AllocError>
    ensures { IfOk result (λ command. IsApp command pictures_app) }
{
    let command = named(
        alloc,
        "pictures",
        "Prints the placement of each picture of a capture on standard input",
    );
    with_rotated(alloc, Ok(command))
}

/// The command with an option for each tag.
fn with_tags<'a>(
    alloc: Global,
    command: Result<Command<'a>, AllocError>,
) -> Result<Command<'a>, AllocError>
    ensures { (app : App) → Makes command.entry app → Makes result (with_tags app) }
{
    let mut tagged = command;
    for tag in Tag::ALL {
        tagged = with_text(alloc, tagged, option_name(tag), "TEXT", option_help(tag));
    }
    tagged
}

/// The command with the options that say how a board stands and where its game starts.
fn with_board<'a>(
    alloc: Global,
    command: Result<Command<'a>, AllocError>,
) -> Result<Command<'a>, AllocError>
    ensures { (app : App) → Makes command.entry app → Makes result (with_board app) }
{
    let command = with_rotated(alloc, command);
    let command = with_text(
        alloc,
        command,
        "first",
        "SIDE",
        "Whose time comes first in a time message: white or black",
    );
    with_text(alloc, command, "fen", "TEXT", "The position at the start")
}

fn record<'a>(alloc: Global) -> Result<Command<'a>, AllocError>
    ensures { IfOk result (λ command. IsApp command record_app) }
{
    let command = named(
        alloc,
        "record",
        "Records the game of a board on standard input as PGN; what the board is sent goes to standard error",
    );
    with_tags(alloc, with_board(alloc, Ok(command)))
}

fn follow<'a>(alloc: Global) -> Result<Command<'a>, AllocError>
    ensures { IfOk result (λ command. IsApp command follow_app) }
{
    let command = named(
        alloc,
        "follow",
        "Prints what each message of a board on standard input makes of the game, before it reads more",
    );
    with_board(alloc, Ok(command))
}

fn watch<'a>(alloc: Global) -> Result<Command<'a>, AllocError>
    ensures { IfOk result (λ command. IsApp command watch_app) }
{
    let command = named(
        alloc,
        "watch",
        "Prints what follow prints, and each picture, each position of the game and each reading of the clocks",
    );
    with_board(alloc, Ok(command))
}

fn recover<'a>(alloc: Global) -> Result<Command<'a>, AllocError>
    ensures { IfOk result (λ command. IsApp command recover_app) }
{
    let command = named(
        alloc,
        "recover",
        "Writes the bytes of a board on standard input again, with dumps put in for moves that two hands hid",
    );
    with_board(alloc, Ok(command))
}

/// The command with the flag that a capture is recovered.
fn with_recover<'a>(
    alloc: Global,
    command: Result<Command<'a>, AllocError>,
) -> Result<Command<'a>, AllocError>
    ensures { AddsRule command.entry recover_rule result }
{
    let command = command?;
    let recover = Arg::new(alloc, "recover")
        .long("recover")
        .action(ArgAction::SetTrue)
        .help("Read the capture with the moves that recover puts in");
    command.arg(recover)
}

/// The command with the options of a board, the flag, and an option more, which has a value.
fn with_edit<'a>(
    alloc: Global,
    command: Result<Command<'a>, AllocError>,
    name: &'a str,
    value: &'a str,
    help: &'a str,
) -> Result<Command<'a>, AllocError>
    ensures { (app : App) → Makes command.entry app → Makes result (with_edit name.entry.now app) }
{
    let command = with_board(alloc, command);
    let command = with_recover(alloc, command);
    with_text(alloc, command, name, value, help)
}

fn add<'a>(alloc: Global) -> Result<Command<'a>, AllocError>
    ensures { IfOk result (λ command. IsApp command add_app) }
{
    let command = named(
        alloc,
        "add",
        "Writes the bytes that add typed moves, or a result, to a capture on standard input",
    );
    with_edit(
        alloc,
        Ok(command),
        "line",
        "TEXT",
        "What was typed: moves, or a result",
    )
}

fn back<'a>(alloc: Global) -> Result<Command<'a>, AllocError>
    ensures { IfOk result (λ command. IsApp command back_app) }
{
    let command = named(
        alloc,
        "back",
        "Writes a new capture, in which the game of a capture on standard input goes back to one of its plies",
    );
    with_edit(
        alloc,
        Ok(command),
        "to",
        "PLY",
        "The last ply that stays, or how many stay; without it, all but the last",
    )
}

fn instead<'a>(alloc: Global) -> Result<Command<'a>, AllocError>
    ensures { IfOk result (λ command. IsApp command instead_app) }
{
    let command = named(
        alloc,
        "instead",
        "Writes a new capture, in which the game of a capture on standard input gets typed moves in place of its last ones",
    );
    with_edit(
        alloc,
        Ok(command),
        "line",
        "TEXT",
        "The moves; the number of the first says from where on",
    )
}

fn live<'a>(alloc: Global) -> Result<Command<'a>, AllocError>
    ensures { IfOk result (λ command. IsApp command live_app) }
{
    let command = named(
        alloc,
        "live",
        "Answers what a host tells on standard input, entry by entry, of a board that it records",
    );
    let command = with_recover(alloc, with_board(alloc, Ok(command)));
    with_tags(alloc, command)
}

fn check<'a>(alloc: Global) -> Command<'a>
    ensures { IsApp result check_app }
{
    named(
        alloc,
        "check",
        "Checks that standard input is a game in PGN export form",
    )
}

fn times<'a>(alloc: Global) -> Command<'a>
    ensures { IsApp result times_app }
{
    named(
        alloc,
        "times",
        "Prints what the file of times on standard input says: when a capture's bytes came",
    )
}

fn moves<'a>(alloc: Global) -> Result<Command<'a>, AllocError>
    ensures { IfOk result (λ command. IsApp command moves_app) }
{
    let command = named(alloc, "moves", "Prints the legal moves of a position");
    with_text(alloc, Ok(command), "fen", "TEXT", "The position")
}

fn positions<'a>(alloc: Global) -> Result<Command<'a>, AllocError>
    ensures { IfOk result (λ command. IsApp command positions_app) }
{
    let command = named(
        alloc,
        "positions",
        "Prints the FEN of each position as the moves on standard input are played",
    );
    with_text(
        alloc,
        Ok(command),
        "fen",
        "TEXT",
        "The position at the start",
    )
}

/// The command with the subcommands that read what a board sends.
fn with_board_subcommands<'a>(
    alloc: Global,
    command: Result<Command<'a>, AllocError>,
) -> Result<Command<'a>, AllocError>
    ensures { (app : App) → Makes command.entry app → Makes result (with_board_subcommands app) }
{
    let command = with_subcommand(command, Ok(show(alloc)));
    let command = with_subcommand(command, pictures(alloc));
    let command = with_subcommand(command, record(alloc));
    let command = with_subcommand(command, follow(alloc));
    let command = with_subcommand(command, watch(alloc));
    with_subcommand(command, recover(alloc))
}

/// The command with the subcommands that change a capture.
fn with_edit_subcommands<'a>(
    alloc: Global,
    command: Result<Command<'a>, AllocError>,
) -> Result<Command<'a>, AllocError>
    ensures { (app : App) → Makes command.entry app → Makes result (with_edit_subcommands app) }
{
    let command = with_subcommand(command, add(alloc));
    let command = with_subcommand(command, back(alloc));
    with_subcommand(command, instead(alloc))
}

/// The command with the subcommands that read texts, or nothing.
fn with_text_subcommands<'a>(
    alloc: Global,
    command: Result<Command<'a>, AllocError>,
) -> Result<Command<'a>, AllocError>
    ensures { (app : App) → Makes command.entry app → Makes result (with_text_subcommands app) }
{
    let command = with_subcommand(command, Ok(check(alloc)));
    let command = with_subcommand(command, Ok(times(alloc)));
    let command = with_subcommand(command, moves(alloc));
    with_subcommand(command, positions(alloc))
}

/// The command of the program, with its subcommands.
pub fn command<'a>(alloc: Global) -> Result<Command<'a>, AllocError>
    ensures { IfOk result (λ command. app_of command ≡ replay) }
{
    let command = named(
        alloc,
        "dgt_replay",
        "Records games of chess from a DGT board",
    )
    .version(VERSION)
    .subcommand_required(true);
    let command = with_board_subcommands(alloc, Ok(command));
    let command = with_edit_subcommands(alloc, command);
    with_text_subcommands(alloc, with_subcommand(command, live(alloc)))
}
