//! What the arguments of the command line ask for.
ghost use Rattle.std.specs.Prelude.{◌≡◌, ◌⊎◌, Some, None, map, string_bytes, codes, IfOk, IfErr, IfSome, MatchOption, OnOk, [], is_some, option_map};
ghost use Rattle.clap.specs.Faults.{fault_of};
ghost use Rattle.clap.specs.Kinds.{IsAmong};
ghost use Rattle.clap.specs.Values.{kind_of};
ghost use Rattle.clap.specs.Matches.{first_value, found_of};
ghost use Rattle.clap.specs.Simple.{app_of, subcommand_rows_of};
ghost use Rattle.clap.specs.Walk.{first_of, rows_of};
ghost use Rattle.replay_arguments.specs.Command.{replay};
ghost use Rattle.replay_arguments.specs.Subcommands.{AsksFor, Chooses, IsRefused};
ghost use Rattle.replay_arguments.specs.Setups.{Wants, WantsBoard, WantsEdit, WantsLive, side_in};
ghost use Rattle.chess_text.specs.Start.{given};
ghost use Rattle.replay_arguments.specs.TagOptions.{option_of};

use crate::command::command;
use crate::tag_options::option_name;
use chess_game::Tag;
use clap::error::ErrorKind;
use clap::{ArgMatches, Command, Error};
use dgt_frame::First;
use std::alloc::Global;

/// What the arguments ask for.
#[derive(Clone, Copy)]
pub enum Subcommand<'a> {
    /// The messages and faults of a stream.
    Show,
    /// The pictures of a stream. With `rotated`, field n means square 63 - n.
    Pictures { rotated: bool },
    /// The game of a stream as PGN.
    Record(RecordArguments<'a>),
    /// What each event of a stream makes of the game.
    Follow(BoardArguments<'a>),
    /// The same, with what the board and the clocks show, and each position.
    Watch(BoardArguments<'a>),
    /// The bytes of a stream, and between them those that recover its hidden moves.
    Recover(BoardArguments<'a>),
    /// The bytes that a typed line adds to a capture.
    Add(EditArguments<'a>),
    /// A capture whose game goes back to one of its plies.
    Back(EditArguments<'a>),
    /// A capture whose game gets typed moves in place of its last ones.
    Instead(EditArguments<'a>),
    /// What a host that records a board is answered.
    Live(LiveArguments<'a>),
    /// Whether a text is PGN in export form.
    Check,
    /// What a file of times says.
    Times,
    /// The legal moves of a position.
    Moves { fen: Option<&'a str> },
    /// The positions of a line of moves.
    Positions { fen: Option<&'a str> },
}

/// How a board stands, and where its game starts.
#[derive(Clone, Copy)]
pub struct BoardArguments<'a> {
    /// Whether field n means square 63 - n.
    pub rotated: bool,
    /// Whose time comes first in a time message.
    pub first: First,
    /// The position at the start, or none for the initial position.
    pub fen: Option<&'a str>,
}

/// How a capture is to be changed.
#[derive(Clone, Copy)]
pub struct EditArguments<'a> {
    /// How its board stands, and where its game starts.
    pub board: BoardArguments<'a>,
    /// Whether the moves that no picture showed are recovered first.
    pub recovers: bool,
    /// The line that was typed, or how far the game goes back; if any.
    pub text: Option<&'a str>,
}

/// How a board that a host records is to be attended.
#[derive(Clone, Copy)]
pub struct LiveArguments<'a> {
    /// How its game is set up: as a recording is.
    pub game: RecordArguments<'a>,
    /// Whether the moves that no picture showed are recovered.
    pub recovers: bool,
}

/// How a game is to be recorded.
#[derive(Clone, Copy)]
pub struct RecordArguments<'a> {
    /// How its board stands, and where it starts.
    pub board: BoardArguments<'a>,
    /// The value of the tag Event, or none for the unknown value, as of the tags below.
    pub event: Option<&'a str>,
    /// The value of the tag Site.
    pub site: Option<&'a str>,
    /// The value of the tag Date.
    pub date: Option<&'a str>,
    /// The value of the tag Round.
    pub round: Option<&'a str>,
    /// The value of the tag White.
    pub white: Option<&'a str>,
    /// The value of the tag Black.
    pub black: Option<&'a str>,
}

fn side_named(name: &str) -> Option<First>
    ensures { result ≡ side_in (Some name.now) }
{
    match name {
        "white" => Some(First::White),
        "black" => Some(First::Black),
        _ => None,
    }
}

/// The side that the text names, or White.
fn side_of(text: Option<&str>) -> Option<First>
    ensures { result ≡ side_in (option_map (λ text. text.now) text.entry) }
{
    match text {
        None => Some(First::White),
        Some(name) => side_named(name),
    }
}

fn board_arguments_of<'a>(matches: &ArgMatches<'a>) -> Option<BoardArguments<'a>>
    ensures wants { IfSome result (λ options. WantsBoard (rows_of (found_of matches.now)) options) }
    ensures known { is_some result ≡ is_some (side_in (first_value (found_of matches.now) (codes "first"))) }
{
    let Some(first) = side_of(matches.get_str("first")) else {
        return None;
    };
    Some(BoardArguments {
        rotated: matches.get_flag("rotated"),
        first,
        fen: matches.get_str("fen"),
    })
}

/// What is given for the tag.
fn tag_text_of<'a>(matches: &ArgMatches<'a>, tag: Tag) -> Option<&'a str>
    ensures { given result ≡ first_of (option_of tag) (rows_of (found_of matches.now)) }
{
    matches.get_str(option_name(tag))
}

fn record_arguments_of<'a>(matches: &ArgMatches<'a>) -> Option<RecordArguments<'a>>
    ensures wants { IfSome result (λ options. Wants (rows_of (found_of matches.now)) options) }
    ensures known { is_some result ≡ is_some (side_in (first_value (found_of matches.now) (codes "first"))) }
{
    let Some(board) = board_arguments_of(matches) else {
        return None;
    };
    Some(RecordArguments {
        board,
        event: tag_text_of(matches, Tag::Event),
        site: tag_text_of(matches, Tag::Site),
        date: tag_text_of(matches, Tag::Date),
        round: tag_text_of(matches, Tag::Round),
        white: tag_text_of(matches, Tag::White),
        black: tag_text_of(matches, Tag::Black),
    })
}

/// How a capture is to be changed, by the text of this option.
fn edit_arguments_of<'a>(name: &str, matches: &ArgMatches<'a>) -> Option<EditArguments<'a>>
    ensures wants { IfSome result (λ options. WantsEdit name.now (rows_of (found_of matches.now)) options) }
    ensures known { is_some result ≡ is_some (side_in (first_value (found_of matches.now) (codes "first"))) }
{
    let Some(board) = board_arguments_of(matches) else {
        return None;
    };
    Some(EditArguments {
        board,
        recovers: matches.get_flag("recover"),
        text: matches.get_str(name),
    })
}

/// How a board that a host records is to be attended.
fn live_arguments_of<'a>(matches: &ArgMatches<'a>) -> Option<LiveArguments<'a>>
    ensures wants { IfSome result (λ options. WantsLive (rows_of (found_of matches.now)) options) }
    ensures known { is_some result ≡ is_some (side_in (first_value (found_of matches.now) (codes "first"))) }
{
    let Some(game) = record_arguments_of(matches) else {
        return None;
    };
    let recovers = matches.get_flag("recover");
    Some(LiveArguments { game, recovers })
}

fn subcommand_named<'a>(name: &str, matches: &ArgMatches<'a>) -> Option<Subcommand<'a>>
    ensures { Chooses name.now (rows_of (found_of matches.now)) result }
{
    match name {
        "show" => Some(Subcommand::Show),
        "pictures" => Some(Subcommand::Pictures {
            rotated: matches.get_flag("rotated"),
        }),
        "record" => match record_arguments_of(matches) {
            Some(options) => Some(Subcommand::Record(options)),
            None => None,
        },
        "follow" => match board_arguments_of(matches) {
            Some(follow) => Some(Subcommand::Follow(follow)),
            None => None,
        },
        "watch" => match board_arguments_of(matches) {
            Some(watch) => Some(Subcommand::Watch(watch)),
            None => None,
        },
        "recover" => match board_arguments_of(matches) {
            Some(recover) => Some(Subcommand::Recover(recover)),
            None => None,
        },
        "add" => match edit_arguments_of("line", matches) {
            Some(add) => Some(Subcommand::Add(add)),
            None => None,
        },
        "back" => match edit_arguments_of("to", matches) {
            Some(back) => Some(Subcommand::Back(back)),
            None => None,
        },
        "instead" => match edit_arguments_of("line", matches) {
            Some(instead) => Some(Subcommand::Instead(instead)),
            None => None,
        },
        "live" => match live_arguments_of(matches) {
            Some(live) => Some(Subcommand::Live(live)),
            None => None,
        },
        "check" => Some(Subcommand::Check),
        "times" => Some(Subcommand::Times),
        "moves" => Some(Subcommand::Moves {
            fen: matches.get_str("fen"),
        }),
        "positions" => Some(Subcommand::Positions {
            fen: matches.get_str("fen"),
        }),
        _ => None,
    }
}

fn subcommand_in<'a>(matches: &ArgMatches<'a>) -> Option<Subcommand<'a>>
    ensures { MatchOption (subcommand_rows_of matches.now) (result ≡ None) (λ found. Chooses found.0 found.1 result) }
{
    match matches.subcommand() {
        Some((name, matches)) => subcommand_named(name, matches),
        None => None,
    }
}

/// What is said of a side that is neither.
fn unknown_side<'a>(command: &mut Command<'a>) -> Error
    ensures { (kind_of result ≡ ErrorKind.OutOfMemory) ⊎ (kind_of result ≡ ErrorKind.InvalidValue) }
{
    match command.error(
        ErrorKind::InvalidValue,
        "the side after '--first' is white or black",
    ) {
        Ok(error) => error,
        Err(refused) => Error::from(refused),
    }
}

/// Reads the arguments by the command of the program: apart from `read_arguments`, which lets the command go.
fn read_by<'a>(command: &mut Command<'a>, arguments: &'a [String]) -> Result<Subcommand<'a>, Error>
    requires { app_of command.old ≡ replay }
    ensures chooses { IfOk result (λ subcommand. AsksFor (map string_bytes arguments.entry.now) subcommand) }
    ensures refused { IfErr result (λ error. (kind_of error ≡ ErrorKind.OutOfMemory) ⊎ IsRefused (map string_bytes arguments.entry.now)) }
    ensures faultless { OnOk result (fault_of replay (map string_bytes arguments.entry.now) ≡ []) }
    ensures fault { IfErr result (λ error. (kind_of error ≡ ErrorKind.OutOfMemory) ⊎ (IsAmong (kind_of error) (fault_of replay (map string_bytes arguments.entry.now))
        ⊎ ((fault_of replay (map string_bytes arguments.entry.now) ≡ []) × (kind_of error ≡ ErrorKind.InvalidValue)))) }
{
    let matches = match command.try_get_matches_from_mut(arguments) {
        Ok(matches) => matches,
        Err(error) => return Err(error),
    };
    match subcommand_in(&matches) {
        Some(subcommand) => Ok(subcommand),
        None => Err(unknown_side(command)),
    }
}

/// Reads the arguments, of which the first is the program's name. An `Err` has the text of `clap`: help that was asked
/// for, or why the arguments are refused, or that memory ran out.
pub fn read_arguments<'a>(alloc: Global, arguments: &'a [String]) -> Result<Subcommand<'a>, Error>
    ensures chooses { IfOk result (λ subcommand. AsksFor (map string_bytes arguments.entry.now) subcommand) }
    ensures refused { IfErr result (λ error. (kind_of error ≡ ErrorKind.OutOfMemory) ⊎ IsRefused (map string_bytes arguments.entry.now)) }
    ensures faultless { OnOk result (fault_of replay (map string_bytes arguments.entry.now) ≡ []) }
    ensures fault { IfErr result (λ error. (kind_of error ≡ ErrorKind.OutOfMemory) ⊎ (IsAmong (kind_of error) (fault_of replay (map string_bytes arguments.entry.now))
        ⊎ ((fault_of replay (map string_bytes arguments.entry.now) ≡ []) × (kind_of error ≡ ErrorKind.InvalidValue)))) }
{
    let mut command = command(alloc)?;
    read_by(&mut command, arguments)
}
