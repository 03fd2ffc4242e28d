//! Moves that come in place of the last plies of a game.
ghost use Rattle.std.specs.Prelude.{◌≡◌, ◌≤◌, ◌↔◌, IfOk, IsTrue, MatchOption, drop, length, slice_get};
ghost use Rattle.going_back.specs.Coming.{Comes, IsInPlaceOf, IsNewLine, bare as bare_of};

use crate::going::{is_same_move, ply_at};
use chess_rules::Move;
use settle_core::Ply;
use std::alloc::{AllocError, Global};

/// A move without a clock.
fn bare(mv: Move) -> Ply
    ensures { result ≡ bare_of mv }
{
    Ply { mv, clock: None }
}

/// The ply with which a move comes in at this place of those that went, 0 for the first.
fn ply_for(went: &[Ply], place: usize, mv: Move) -> Ply
    ensures { MatchOption (slice_get went.now place) (result ≡ bare_of mv) (λ was. IsInPlaceOf was mv result) }
{
    if place >= went.len() {
        return bare(mv);
    }
    let was = *ply_at(went, place);
    if is_same_move(&was.mv, &mv) {
        was
    } else {
        bare(mv)
    }
}

/// The plies with which these moves come in place of those that went.
fn coming(alloc: Global, went: &[Ply], moves: &[Move]) -> Result<Vec<Ply>, AllocError>
    ensures { IfOk result (λ plies. Comes went.now moves.now plies.items) }
{
    let mut plies = Vec::new(alloc);
    let mut place = 0;
    for mv in moves {
        plies.push(ply_for(went, place, mv.copy()))?;
        place += 1;
    }
    Ok(plies)
}

/// The first plies of a game, so many, and behind them these moves.
pub fn new_line(
    alloc: Global,
    old: &[Ply],
    stays: usize,
    moves: &[Move],
) -> Result<Vec<Ply>, AllocError>
    requires { stays ≤ length old.now }
    ensures { IfOk result (λ plies. IsNewLine old.now stays moves.now plies.items) }
{
    let new = coming(alloc, &old[stays..], moves)?;
    let mut plies = Vec::new(alloc);
    plies.extend_from_slice(&old[..stays])?;
    plies.extend_from_slice(new.as_slice())?;
    Ok(plies)
}
