//! What becomes of a capture whose game is to get the moves of a typed line in place of its last ones.
ghost use Rattle.std.specs.Prelude.{◌≡◌, ◌≤◌, ◌↔◌, Err, IfOk, IsTrue, List, length, take};
ghost use Rattle.dgt_frame.specs.declared.events.Event.{Event as EventOf};
ghost use Rattle.board_events.specs.Settings.{Setting};
ghost use Rattle.board_captures.specs.Reading.{IsTooLong, StandsForCapture, setting_of};
ghost use Rattle.settle_core.specs.Folding.{moves_of};
ghost use Rattle.settle_core.specs.GameResult.{IsResult};
ghost use Rattle.settle_core.specs.Settler.{plies_of, position_of};
ghost use Rattle.settle_core.specs.Settling.{Line, position_after};
ghost use Rattle.going_back.specs.Inside.Changing.{IsChangeBy};
ghost use Rattle.going_back.specs.Replacing.{IsChange, IsChangeOf, ShowsOldEnd};

use crate::coming::new_line;
use crate::going::{BackError, is_picture, position_behind, replace_plies};
use crate::nearest::nearest_ply;
use crate::placing::place_of;
use board_captures::{CaptureError, Captured, Method, read_capture};
use chess_game::result_at;
use chess_rules::Move;
use settle_core::{Outcome, Ply, Settler};
use std::alloc::{AllocError, Global};
use typed_lines::{Typed, read_line, said_line};

/// What becomes of a capture.
#[derive(Drop)]
pub enum Change {
    /// The game gets the moves.
    Replaced {
        /// The new capture.
        made: Vec<u8>,
        /// How many plies stay.
        stays: usize,
        /// How many go.
        gone: usize,
        /// How many moves come.
        come: usize,
        /// The result that the game had.
        result: Option<Outcome>,
    },
    /// No ply of the game has the number with which the line begins. The one with this number, which is 1 for the first, is
    /// near; none where the game has no ply.
    Unplaced {
        nearest: Option<usize>,
    },
    /// The line says no moves at its place, but what this text says, as `said_line` has it.
    Unsaid {
        told: Vec<u8>,
    },
    /// Behind so many plies so many moves were to come, and the board shows the end of the old line.
    Old {
        stays: usize,
        come: usize,
    },
    /// The game can't get these plies, of which so many were to stay.
    Refused {
        plies: Vec<Ply>,
        stays: usize,
        error: BackError,
    },
}

fn are_same(one: &[u8; 64], other: &[u8; 64]) -> bool
    ensures { IsTrue result ↔ (one.now ≡ other.now) }
{
    *one == *other
}

/// Whether the board shows the position in which the old line ends, and the new line ends in another one.
fn shows_old_end(captured: &Captured, plies: &[Ply]) -> bool
    requires { Line captured.now.session.settler.start (moves_of plies.now) }
    ensures { (setting : Setting) (past : List EventOf) → StandsForCapture captured.now setting past
        → (IsTrue result ↔ ShowsOldEnd setting past (plies_of captured.now.session.settler) plies.now) }
{
    let settler = captured.session.settler();
    let old = position_behind(settler.start(), settler.moves()).picture();
    let new = position_behind(settler.start(), plies).picture();
    !are_same(&new, &old) && is_picture(captured.picture(), &old)
}

/// The result that a game has.
fn result_of(settler: &Settler) -> Option<Outcome>
    ensures { IsResult (position_of settler.now) settler.now.score.sign result }
{
    result_at(settler.position(), settler.sign())
}

/// What becomes of a capture whose game is to get these moves behind so many plies.
fn change_by(
    alloc: Global,
    method: &Method,
    captured: &Captured,
    stays: usize,
    moves: &[Move],
) -> Result<Change, AllocError>
    requires within { stays ≤ length (plies_of captured.now.session.settler) }
    requires line { Line (position_after captured.now.session.settler.start (moves_of (take stays (plies_of captured.now.session.settler)))) moves.now }
    ensures { (past : List EventOf) → StandsForCapture captured.now (setting_of method.now) past
        → IfOk result (IsChangeBy (setting_of method.now) method.now.recovers past captured.now.session.settler stays moves.now) }
{
    let settler = captured.session.settler();
    let old = settler.moves();
    let plies = new_line(alloc, old, stays, moves)?;
    let made = match replace_plies(alloc, method, captured, plies.as_slice()) {
        Ok(made) => made,
        Err(error) => return Ok(Change::Refused {
            plies,
            stays,
            error,
        }),
    };
    if !made.has_more && shows_old_end(captured, plies.as_slice()) {
        return Ok(Change::Old {
            stays,
            come: moves.len(),
        });
    }
    Ok(Change::Replaced {
        made: made.bytes,
        stays,
        gone: old.len() - stays,
        come: moves.len(),
        result: result_of(settler),
    })
}

/// What becomes of what was captured.
pub fn change_of(
    alloc: Global,
    method: &Method,
    captured: &Captured,
    text: &[u8],
) -> Result<Change, AllocError>
    ensures { (past : List EventOf) → StandsForCapture captured.now (setting_of method.now) past
        → IfOk result (IsChangeOf (setting_of method.now) method.now.recovers past captured.now.session.settler text.now) }
{
    let settler = captured.session.settler();
    let plies = settler.moves();
    let Some(stays) = place_of(alloc, settler.start(), plies, text)? else {
        return Ok(Change::Unplaced {
            nearest: nearest_ply(settler.start(), plies, text),
        });
    };
    let position = position_behind(settler.start(), &plies[..stays]);
    match read_line(alloc, &position, text)? {
        Typed::Moves(moves) => change_by(alloc, method, captured, stays, moves.as_slice()),
        said => Ok(Change::Unsaid {
            told: said_line(alloc, b"", &said)?,
        }),
    }
}

/// Reads a capture as `method` says, and puts the moves of a typed line in place of those behind its number: `14. O-O Qd7`
/// takes White's 14th move and all behind it off, and puts these in.
///
/// # Errors
///
/// - `TooLong`: the capture has more than 67,108,864 bytes, or it has with what is put in.
/// - `Memory`: memory ran out.
pub fn replace_by(
    alloc: Global,
    method: &Method,
    capture: &[u8],
    text: &[u8],
) -> Result<Change, CaptureError>
    ensures change { IfOk result (IsChange (setting_of method.now) method.now.recovers capture.now text.now) }
    ensures long { result ≡ Err CaptureError.TooLong → IsTooLong (setting_of method.now) method.now.recovers capture.now }
{
    let captured = match read_capture(alloc, method, capture) {
        Ok(captured) => captured,
        Err(error) => return Err(error),
    };
    match change_of(alloc, method, &captured, text) {
        Ok(change) => Ok(change),
        Err(_) => Err(CaptureError::Memory),
    }
}
