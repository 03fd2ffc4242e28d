//! What becomes of a capture, by a text that says how far its game goes back.
ghost use Rattle.std.specs.Prelude.{◌≡◌, List, Err, IfOk};
ghost use Rattle.dgt_frame.specs.declared.events.Event.{Event as EventOf};
ghost use Rattle.board_captures.specs.Reading.{IsTooLong, StandsForCapture, setting_of};
ghost use Rattle.going_back.specs.Answers.{IsAnswer, IsAnswerOf};

use crate::going::{BackError, go_back};
use crate::naming::plies_named;
use crate::nearest::nearest_ply;
use board_captures::{CaptureError, Captured, Method, read_capture};
use chess_game::result_at;
use settle_core::Outcome;
use std::alloc::Global;

/// What becomes of a capture.
#[derive(Drop)]
pub enum Answer {
    /// The game goes back.
    Back {
        /// The new capture.
        made: Vec<u8>,
        /// How many plies stay.
        stays: usize,
        /// How many go.
        gone: usize,
        /// The result that the game had.
        result: Option<Outcome>,
    },
    /// The text names no ply of the game. The one with this number, which is 1 for the first, is near; none where the
    /// game has no ply.
    Unnamed {
        nearest: Option<usize>,
    },
    /// So many plies were to stay, and the game can't go back to them.
    Refused {
        stays: usize,
        error: BackError,
    },
}

/// What becomes of what was captured.
pub fn answer_of(alloc: Global, method: &Method, captured: &Captured, to: &[u8]) -> Answer
    ensures { (past : List EventOf) → StandsForCapture captured.now (setting_of method.now) past
        → IsAnswerOf (setting_of method.now) method.now.recovers past captured.now.session.settler to.now result }
{
    let settler = captured.session.settler();
    let plies = settler.moves();
    let Some(stays) = plies_named(settler.start(), plies, to) else {
        return Answer::Unnamed {
            nearest: nearest_ply(settler.start(), plies, to),
        };
    };
    match go_back(alloc, method, captured, stays) {
        Ok(made) => Answer::Back {
            made,
            stays,
            gone: plies.len() - stays,
            result: result_at(settler.position(), settler.sign()),
        },
        Err(error) => Answer::Refused { stays, error },
    }
}

/// Reads a capture as `method` says, and goes back in its game as far as the text says: with an empty one all plies but
/// the last stay, with `*` all, with a number so many, with a ply's name those up to it.
///
/// # Errors
///
/// - `TooLong`: the capture has more than 67,108,864 bytes, or it has with what is put in.
/// - `Memory`: memory ran out while it was read.
pub fn back_to(
    alloc: Global,
    method: &Method,
    capture: &[u8],
    to: &[u8],
) -> Result<Answer, CaptureError>
    ensures answer { IfOk result (IsAnswer (setting_of method.now) method.now.recovers capture.now to.now) }
    ensures long { result ≡ Err CaptureError.TooLong → IsTooLong (setting_of method.now) method.now.recovers capture.now }
{
    match read_capture(alloc, method, capture) {
        Ok(captured) => Ok(answer_of(alloc, method, &captured, to)),
        Err(error) => Err(error),
    }
}
