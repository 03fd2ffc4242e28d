//! The line that says which change of a game alone explains its board, as an arbiter types it.
ghost use Rattle.std.specs.Prelude.{◌≡◌, ◌-◌, ◌<◌, [], IfOk, codes, length, take};
ghost use Rattle.chess_rules.specs.Legal.{Legal};
ghost use Rattle.settle_core.specs.Folding.{moves_of};
ghost use Rattle.settle_core.specs.Settling.{Line, position_after};
ghost use Rattle.going_back.specs.Fitting.{moves_in};
ghost use Rattle.going_back.specs.Proposing.{AreWritten, IsLastWritten, IsReplyWritten, IsTyped, SaysFit, front as front_of, line_of as line_of_typed};
ghost use Rattle.going_back.specs.Telling.{IsWrittenSo};

use crate::fit::{Coming, Fit};
use crate::fitting::only_fit;
use crate::going::{ply_at, position_behind};
use crate::naming::write_name;
use chess_rules::{Move, Position, Side};
use chess_text::write_san;
use settle_core::Ply;
use std::alloc::{AllocError, Global};
use typed_lines::joined;
use unseen_pairs::TwoPlies;
use watched_streams::Lines;

/// A move with its number.
fn ply_text(alloc: Global, position: &Position, mv: Move) -> Result<Vec<u8>, AllocError>
    requires { Legal position.now mv }
    ensures { IfOk result (λ text. IsWrittenSo position.now mv text.items) }
{
    let mut name = Lines::new();
    write_name(&mut name, position, mv);
    Vec::from_slice(alloc, name.as_slice())
}

/// A move behind another one: White's with its number.
fn reply_text(alloc: Global, position: &Position, mv: Move) -> Result<Vec<u8>, AllocError>
    requires { Legal position.now mv }
    ensures { IfOk result (λ text. IsReplyWritten position.now.side position.now mv text.items) }
{
    match position.parts().side {
        Side::White => ply_text(alloc, position, mv),
        Side::Black => Vec::from_slice(alloc, write_san(position, mv).as_str().as_bytes()),
    }
}

/// Two moves one after the other.
fn two_text(alloc: Global, position: &Position, two: &TwoPlies) -> Result<Vec<u8>, AllocError>
    requires { Line position.now (moves_in (Coming.Two two.now)) }
    ensures { IfOk result (λ text. AreWritten position.now (Coming.Two two.now) text.items) }
{
    let first = ply_text(alloc, position, two.first)?;
    let second = reply_text(alloc, &position.play(two.first), two.second)?;
    joined(alloc, first.as_slice(), b" ", second.as_slice())
}

/// The moves that come.
fn coming_text(alloc: Global, position: &Position, coming: &Coming) -> Result<Vec<u8>, AllocError>
    requires { Line position.now (moves_in coming.now) }
    ensures { IfOk result (λ text. AreWritten position.now coming.now text.items) }
{
    match coming {
        Coming::Nothing => Ok(Vec::new(alloc)),
        Coming::One(mv) => ply_text(alloc, position, *mv),
        Coming::Two(two) => two_text(alloc, position, two),
    }
}

/// How far a game goes back to these plies.
fn last_text(alloc: Global, start: &Position, stay: &[Ply]) -> Result<Vec<u8>, AllocError>
    requires { Line start.now (moves_of stay.now) }
    ensures { IfOk result (λ text. IsLastWritten start.now stay.now text.items) }
{
    if stay.is_empty() {
        return Vec::from_slice(alloc, b"0");
    }
    let last = stay.len() - 1;
    let position = position_behind(start, &stay[..last]);
    ply_text(alloc, &position, ply_at(stay, last).mv)
}

/// What stands before the moves that come.
fn front(gone: u8) -> &'static [u8]
    ensures { result.now ≡ front_of gone }
{
    if gone == 0 { b"" } else { b"instead " }
}

/// What an arbiter types for a change with which these plies stay.
fn typed_text(
    alloc: Global,
    start: &Position,
    stay: &[Ply],
    gone: u8,
    coming: &Coming,
) -> Result<Vec<u8>, AllocError>
    requires line { Line start.now (moves_of stay.now) }
    requires comes { Line (position_after start.now (moves_of stay.now)) (moves_in coming.now) }
    ensures { IfOk result (λ typed. IsTyped start.now stay.now gone coming.now typed.items) }
{
    if let Coming::Nothing = coming {
        if gone == 0 {
            return Ok(Vec::new(alloc));
        }
        let last = last_text(alloc, start, stay)?;
        return joined(alloc, b"back ", last.as_slice(), b"");
    }
    let moves = coming_text(alloc, &position_behind(start, stay), coming)?;
    joined(alloc, front(gone), moves.as_slice(), b"")
}

/// The line of what is typed, if something is.
fn line_of(alloc: Global, typed: &[u8]) -> Result<Vec<u8>, AllocError>
    ensures { IfOk result (λ line. line.items ≡ line_of_typed typed.now) }
{
    if typed.is_empty() {
        return Ok(Vec::new(alloc));
    }
    joined(alloc, typed, b"\n", b"")
}

/// The line that an arbiter types for the change that alone explains the picture, where these plies were made from the start: moves
/// with their numbers, `instead` and moves, or `back` and the last ply that stays. Nothing where no change explains it, or more than
/// one, or where the picture is that of the game.
///
/// # Errors
///
/// Where there is no memory.
pub fn say_fit(
    alloc: Global,
    start: &Position,
    plies: &[Ply],
    seen: &[u8; 64],
) -> Result<Vec<u8>, AllocError>
    requires { Line start.now (moves_of plies.now) }
    ensures { IfOk result (λ line. SaysFit start.now plies.now seen.now line.items) }
{
    let Some(fit) = only_fit(alloc, start, plies, seen)? else {
        return Ok(Vec::new(alloc));
    };
    let stays = plies.len() - fit.gone as usize;
    let typed = typed_text(alloc, start, &plies[..stays], fit.gone, &fit.coming)?;
    line_of(alloc, typed.as_slice())
}
