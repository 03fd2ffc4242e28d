//! What becomes of a capture, and the line that says it.
ghost use Rattle.std.specs.Prelude.{◌≡◌, Err, IfOk, option_map};
ghost use Rattle.settle_core.specs.Folding.{moves_of};
ghost use Rattle.settle_core.specs.Settling.{Line};
ghost use Rattle.board_captures.specs.Reading.{IsTooLong, setting_of};
ghost use Rattle.going_back.specs.Inside.Tellable.{IsTellable};
ghost use Rattle.going_back.specs.Telling.{IsChangeTold, IsLineOf, IsTold, changed_by, made_by};

use crate::answering::{Answer, answer_of};
use crate::lines::{change_line, line_of};
use crate::replacing::{Change, change_of};
use board_captures::{CaptureError, Method, read_capture};
use chess_rules::Position;
use settle_core::Ply;
use std::alloc::{AllocError, Global};

/// What is answered, in bytes.
#[derive(Drop)]
pub struct Told {
    /// The new capture; none where the game doesn't go back.
    pub made: Option<Vec<u8>>,
    /// The line that says what becomes of it, with its end.
    pub line: Vec<u8>,
}

/// The answer about a game with these plies, in bytes.
fn told_of(
    alloc: Global,
    start: &Position,
    plies: &[Ply],
    answer: Answer,
) -> Result<Told, AllocError>
    requires line { Line start.now (moves_of plies.now) }
    requires tellable { IsTellable start.now plies.now answer }
    ensures line { IfOk result (λ told. IsLineOf start.now plies.now answer told.line.items) }
    ensures made { IfOk result (λ told. option_map (λ made. made.items) told.made ≡ made_by answer) }
{
    let line = line_of(alloc, start, plies, &answer)?;
    Ok(match answer {
        Answer::Back { made, .. } => Told {
            made: Some(made),
            line,
        },
        Answer::Unnamed { .. } | Answer::Refused { .. } => Told { made: None, line },
    })
}

/// Reads a capture as `method` says, and goes back in its game as far as the text says, as `back_to` does; with the line
/// that says what becomes of it.
///
/// # Errors
///
/// - `TooLong`: the capture has more than 67,108,864 bytes, or it has with what is put in.
/// - `Memory`: memory ran out.
pub fn tell_back(
    alloc: Global,
    method: &Method,
    capture: &[u8],
    to: &[u8],
) -> Result<Told, CaptureError>
    ensures told { IfOk result (λ told. IsTold (setting_of method.now) method.now.recovers capture.now to.now (option_map (λ made. made.items) told.made) told.line.items) }
    ensures long { result ≡ Err CaptureError.TooLong → IsTooLong (setting_of method.now) method.now.recovers capture.now }
{
    let captured = match read_capture(alloc, method, capture) {
        Ok(captured) => captured,
        Err(error) => return Err(error),
    };
    let answer = answer_of(alloc, method, &captured, to);
    let settler = captured.session.settler();
    match told_of(alloc, settler.start(), settler.moves(), answer) {
        Ok(told) => Ok(told),
        Err(_) => Err(CaptureError::Memory),
    }
}

/// The new capture, if there is one.
fn made_of(change: Change) -> Option<Vec<u8>>
    ensures { option_map (λ made. made.items) result ≡ changed_by change }
{
    match change {
        Change::Replaced { made: bytes, .. } => Some(bytes),
        _ => None,
    }
}

/// Reads a capture as `method` says, and puts the moves of a typed line in place of those behind its number, as
/// `replace_by` does; with the line that says what becomes of it.
///
/// # Errors
///
/// - `TooLong`: the capture has more than 67,108,864 bytes, or it has with what is put in.
/// - `Memory`: memory ran out.
pub fn tell_instead(
    alloc: Global,
    method: &Method,
    capture: &[u8],
    text: &[u8],
) -> Result<Told, CaptureError>
    ensures told { IfOk result (λ told. IsChangeTold (setting_of method.now) method.now.recovers capture.now text.now (option_map (λ made. made.items) told.made) told.line.items) }
    ensures long { result ≡ Err CaptureError.TooLong → IsTooLong (setting_of method.now) method.now.recovers capture.now }
{
    let captured = match read_capture(alloc, method, capture) {
        Ok(captured) => captured,
        Err(error) => return Err(error),
    };
    let Ok(change) = change_of(alloc, method, &captured, text) else {
        return Err(CaptureError::Memory);
    };
    let settler = captured.session.settler();
    match change_line(alloc, settler.start(), settler.moves(), &change) {
        Ok(line) => Ok(Told {
            made: made_of(change),
            line,
        }),
        Err(_) => Err(CaptureError::Memory),
    }
}
