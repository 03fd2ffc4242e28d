//! The lines that say what becomes of a game that goes back, or gets other moves.
ghost use Rattle.std.specs.Prelude.{◌≡◌, ◌<◌, ◌≤◌, ◌++◌, IfOk, Some, codes, decimal, length, take};
ghost use Rattle.chess_rules.specs.Legal.{Legal};
ghost use Rattle.pgn_book.specs.Movetext.{result_text};
ghost use Rattle.settle_core.specs.Folding.{moves_of};
ghost use Rattle.settle_core.specs.Settling.{Line, position_after};
ghost use Rattle.going_back.specs.Inside.Tellable.{IsChangeTellable, IsLegalBehind, IsTellable};
ghost use Rattle.going_back.specs.Telling.{IsChangeLine, IsLineOf, IsNearLine, IsReason};

use crate::answering::Answer;
use crate::going::{BackError, ply_at, position_behind};
use crate::naming::write_name;
use crate::replacing::Change;
use chess_rules::{Move, Position};
use itoa::Buffer;
use settle_core::{Outcome, Ply};
use std::alloc::{AllocError, Global};
use typed_lines::joined;
use watched_streams::Lines;

/// A number between two texts, behind what the line begins with.
fn count_line(
    alloc: Global,
    front: &[u8],
    kind: &[u8],
    count: usize,
    rest: &[u8],
) -> Result<Vec<u8>, AllocError>
    ensures { IfOk result (λ line. line.items ≡ front.now ++ (kind.now ++ (decimal count ++ rest.now))) }
{
    let mut buffer = Buffer::new();
    let text = joined(alloc, kind, buffer.format(count).as_bytes(), rest)?;
    joined(alloc, front, text.as_slice(), b"")
}

/// A result behind a blank, at the end of a line.
fn ending(outcome: Outcome) -> &'static [u8]
    ensures { result.now ≡ codes " " ++ (result_text (Some outcome) ++ codes "\n") }
{
    match outcome {
        Outcome::WhiteWins => b" 1-0\n",
        Outcome::BlackWins => b" 0-1\n",
        Outcome::Drawn => b" 1/2-1/2\n",
    }
}

/// The result that a game had, at the end of a line.
fn result_ending(ending: Option<Outcome>) -> &'static [u8]
    ensures { result.now ≡ codes ", result " ++ (result_text ending ++ codes "\n") }
{
    match ending {
        Some(Outcome::WhiteWins) => b", result 1-0\n",
        Some(Outcome::BlackWins) => b", result 0-1\n",
        Some(Outcome::Drawn) => b", result 1/2-1/2\n",
        None => b", result *\n",
    }
}

fn back_line(
    alloc: Global,
    stays: usize,
    gone: usize,
    ending: Option<Outcome>,
) -> Result<Vec<u8>, AllocError>
    ensures { IfOk result (λ line. line.items
        ≡ codes "back: plies " ++ (decimal stays ++ (codes ", gone " ++ (decimal gone ++ (codes ", result " ++ (result_text ending ++ codes "\n")))))) }
{
    let rest = count_line(alloc, b", ", b"gone ", gone, result_ending(ending))?;
    count_line(alloc, b"back: ", b"plies ", stays, rest.as_slice())
}

/// The line about moves that have come.
fn replaced_line(
    alloc: Global,
    stays: usize,
    gone: usize,
    come: usize,
    ending: Option<Outcome>,
) -> Result<Vec<u8>, AllocError>
    ensures { IfOk result (λ line. line.items
        ≡ codes "instead: plies " ++ (decimal stays ++ (codes ", gone " ++ (decimal gone ++ (codes ", come " ++ (decimal come ++ (codes ", result " ++ (result_text ending ++ codes "\n")))))))) }
{
    let ends = count_line(alloc, b", ", b"come ", come, result_ending(ending))?;
    let rest = count_line(alloc, b", ", b"gone ", gone, ends.as_slice())?;
    count_line(alloc, b"instead: ", b"plies ", stays, rest.as_slice())
}

/// The line about a board that shows the end of the old line.
fn old_line(alloc: Global, stays: usize, come: usize) -> Result<Vec<u8>, AllocError>
    ensures { IfOk result (λ line. line.items ≡ codes "instead: old " ++ (decimal stays ++ (codes " " ++ (decimal come ++ codes "\n")))) }
{
    let rest = count_line(alloc, b" ", b"", come, b"\n")?;
    count_line(alloc, b"instead: ", b"old ", stays, rest.as_slice())
}

/// The line about the ply with this number, which is 1 for the first.
fn nearest_line(
    alloc: Global,
    front: &[u8],
    start: &Position,
    plies: &[Ply],
    number: usize,
) -> Result<Vec<u8>, AllocError>
    requires line { Line start.now (moves_of plies.now) }
    requires first { 0 < number }
    requires within { number ≤ length plies.now }
    ensures { IfOk result (λ line. IsNearLine front.now start.now plies.now (Some number) line.items) }
{
    let position = position_behind(start, &plies[..number - 1]);
    let mut name = Lines::new();
    write_name(&mut name, &position, ply_at(plies, number - 1).mv);
    let rest = joined(alloc, b"nearest ", name.as_slice(), b"\n")?;
    joined(alloc, front, rest.as_slice(), b"")
}

/// The line about a move that the board still shows behind the plies that stay.
fn moved_line(
    alloc: Global,
    front: &[u8],
    start: &Position,
    plies: &[Ply],
    stays: usize,
    mv: Move,
) -> Result<Vec<u8>, AllocError>
    requires line { Line start.now (moves_of plies.now) }
    requires within { stays ≤ length plies.now }
    requires legal { Legal (position_after start.now (moves_of (take stays plies.now))) mv }
    ensures { IfOk result (λ line. IsReason front.now start.now plies.now stays (BackError.Moved mv) line.items) }
{
    let position = position_behind(start, &plies[..stays]);
    let mut name = Lines::new();
    write_name(&mut name, &position, mv);
    let rest = joined(alloc, b" ", name.as_slice(), b"\n")?;
    count_line(alloc, front, b"moved ", stays, rest.as_slice())
}

/// The line about a game that can't get these plies. Refused where memory ran out: that has no line of this kind.
fn refused_line(
    alloc: Global,
    front: &[u8],
    start: &Position,
    plies: &[Ply],
    stays: usize,
    error: BackError,
) -> Result<Vec<u8>, AllocError>
    requires line { Line start.now (moves_of plies.now) }
    requires within { stays ≤ length plies.now }
    requires legal { IsLegalBehind start.now plies.now stays error }
    ensures { IfOk result (λ line. IsReason front.now start.now plies.now stays error line.items) }
{
    match error {
        BackError::Unseen => count_line(alloc, front, b"unseen ", stays, b"\n"),
        BackError::Ended(outcome) => count_line(alloc, front, b"ended ", stays, ending(outcome)),
        BackError::Signed(outcome) => count_line(alloc, front, b"signed ", stays, ending(outcome)),
        BackError::Moved(mv) => moved_line(alloc, front, start, plies, stays, mv),
        BackError::Board => count_line(alloc, front, b"board ", stays, b"\n"),
        BackError::TooLong => count_line(alloc, front, b"long ", stays, b"\n"),
        BackError::Memory => Err(AllocError),
    }
}

/// The line that says what becomes of a game with these plies, with its end.
///
/// # Errors
///
/// Where memory ran out, now or before.
pub fn line_of(
    alloc: Global,
    start: &Position,
    plies: &[Ply],
    answer: &Answer,
) -> Result<Vec<u8>, AllocError>
    requires line { Line start.now (moves_of plies.now) }
    requires tellable { IsTellable start.now plies.now answer.now }
    ensures { IfOk result (λ line. IsLineOf start.now plies.now answer.now line.items) }
{
    match answer {
        Answer::Back {
            made: _,
            stays,
            gone,
            result,
        } => back_line(alloc, *stays, *gone, *result),
        Answer::Unnamed { nearest: None } => joined(alloc, b"back: ", b"none\n", b""),
        Answer::Unnamed {
            nearest: Some(number),
        } => nearest_line(alloc, b"back: ", start, plies, *number),
        Answer::Refused { stays, error } => {
            refused_line(alloc, b"back: ", start, plies, *stays, *error)
        }
    }
}

/// The line that says what becomes of a game with these plies that is to get other moves, with its end.
///
/// # Errors
///
/// Where memory ran out, now or before.
pub fn change_line(
    alloc: Global,
    start: &Position,
    plies: &[Ply],
    change: &Change,
) -> Result<Vec<u8>, AllocError>
    requires line { Line start.now (moves_of plies.now) }
    requires tellable { IsChangeTellable start.now plies.now change.now }
    ensures { IfOk result (λ line. IsChangeLine start.now plies.now change.now line.items) }
{
    match change {
        Change::Replaced {
            made: _,
            stays,
            gone,
            come,
            result,
        } => replaced_line(alloc, *stays, *gone, *come, *result),
        Change::Unplaced { nearest: None } => joined(alloc, b"instead: ", b"none\n", b""),
        Change::Unplaced {
            nearest: Some(number),
        } => nearest_line(alloc, b"instead: ", start, plies, *number),
        Change::Unsaid { told } => joined(alloc, b"instead: ", told.as_slice(), b""),
        Change::Old { stays, come } => old_line(alloc, *stays, *come),
        Change::Refused {
            plies: new,
            stays: _,
            error,
        } => refused_line(
            alloc,
            b"instead: ",
            start,
            new.as_slice(),
            new.len(),
            *error,
        ),
    }
}
