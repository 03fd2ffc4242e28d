//! What a typed line adds to a capture.
ghost use Rattle.std.specs.Prelude.{◌≡◌, ◌++◌, ◌↔◌, Err, IfOk, IsTrue, List, MatchOption, ℕ};
ghost use Rattle.dgt_frame.specs.declared.events.Event.{Event as EventOf};
ghost use Rattle.settle_core.specs.Settler.{plies_of};
ghost use Rattle.settle_core.specs.Settling.{Line};
ghost use Rattle.board_captures.specs.Reading.{IsTooLong, StandsForCapture, setting_of};
ghost use Rattle.typed_lines.specs.Lines.{ReadsLine};
ghost use Rattle.adding.specs.Answers.{AddsNothing, HasEnded, IsAnswerTo, IsAnswered};
ghost use Rattle.adding.specs.Inside.Trials.{IsTrial, TriesMoves, TriesResult};

use crate::making::{bytes_of_moves, bytes_of_result, shown_again, unclocked};
use crate::trying::{Verdict, judged};
use board_captures::{CaptureError, Captured, Method, read_capture};
use chess_rules::{Move, Position, Status};
use settle_core::{Outcome, Ply};
use std::alloc::{AllocError, Global};
use typed_lines::{Typed, read_line};

/// Why nothing is added.
#[derive(Clone, Copy)]
pub enum Reason {
    /// The line says neither moves nor a result.
    Line,
    /// A result is typed, and the game has ended by mate or stalemate.
    Ended,
    /// What the board shows would change the game.
    Board,
    /// There is no room: the capture would have more than 67,108,864 bytes.
    Long,
}

/// What becomes of a typed line.
#[derive(Drop)]
pub enum Answer<'a> {
    /// What it says, and the bytes that add it.
    Added(Typed<'a>, Vec<u8>),
    /// What it says, and why that isn't added.
    Refused(Typed<'a>, Reason),
}

/// What is to be tried: the bytes, and the game that they are to give.
#[derive(Drop)]
pub struct Trial {
    pub bytes: Vec<u8>,
    pub plies: Vec<Ply>,
    pub sign: Option<Outcome>,
}

fn is_ended(p: &Position, said: &Typed<'_>) -> bool
    ensures ended { IsTrue result ↔ HasEnded p.now said.now }
{
    match said {
        Typed::Result(_) => !matches!(p.status(), Status::Running),
        _ => false,
    }
}

/// The plies of a capture's game, and these.
fn plies_behind(alloc: Global, captured: &Captured, plies: &[Ply]) -> Result<Vec<Ply>, AllocError>
    ensures { IfOk result (λ all. all.items ≡ plies_of captured.now.session.settler ++ plies.now) }
{
    let mut all = Vec::new(alloc);
    all.extend_from_slice(captured.session.settler().moves())?;
    all.extend_from_slice(plies)?;
    Ok(all)
}

fn trial_of_moves(
    alloc: Global,
    method: &Method,
    captured: &Captured,
    p: &Position,
    moves: &[Move],
) -> Result<Trial, AllocError>
    requires { Line p.now moves.now }
    ensures { (past : List EventOf) → StandsForCapture captured.now (setting_of method.now) past
        → IfOk result (TriesMoves (setting_of method.now) past p.now (plies_of captured.now.session.settler) moves.now) }
{
    let plies = unclocked(alloc, moves)?;
    let bytes = bytes_of_moves(alloc, method, captured, p, plies.as_slice())?;
    let all = plies_behind(alloc, captured, plies.as_slice())?;
    Ok(Trial {
        bytes,
        plies: all,
        sign: None,
    })
}

fn trial_of_result(
    alloc: Global,
    method: &Method,
    captured: &Captured,
    p: &Position,
    outcome: Outcome,
) -> Result<Trial, AllocError>
    ensures { (past : List EventOf) → StandsForCapture captured.now (setting_of method.now) past
        → IfOk result (TriesResult (setting_of method.now) past p.now (plies_of captured.now.session.settler) outcome) }
{
    let bytes = bytes_of_result(alloc, method, captured, p, outcome)?;
    let all = plies_behind(alloc, captured, &[])?;
    Ok(Trial {
        bytes,
        plies: all,
        sign: Some(outcome),
    })
}

/// What is to be tried of a line; nothing, where it says neither moves nor a result.
fn trial_of(
    alloc: Global,
    method: &Method,
    captured: &Captured,
    p: &Position,
    said: &Typed<'_>,
) -> Result<Option<Trial>, AllocError>
    requires { (text : List ℕ) × ReadsLine p.now text said.now }
    ensures { (past : List EventOf) → StandsForCapture captured.now (setting_of method.now) past
        → IfOk result (λ found. MatchOption found (AddsNothing said.now)
        (λ trial. IsTrial (setting_of method.now) past p.now (plies_of captured.now.session.settler) said.now trial)) }
{
    match said {
        Typed::Moves(moves) => Ok(Some(trial_of_moves(
            alloc,
            method,
            captured,
            p,
            moves.as_slice(),
        )?)),
        Typed::Result(outcome) => Ok(Some(trial_of_result(alloc, method, captured, p, *outcome)?)),
        _ => Ok(None),
    }
}

/// Tries the bytes behind the capture.
fn tried<'a>(
    alloc: Global,
    method: &Method,
    capture: &[u8],
    captured: &Captured,
    p: &Position,
    said: Typed<'a>,
    trial: Trial,
) -> Result<Answer<'a>, AllocError>
    ensures { (past : List EventOf) → StandsForCapture captured.now (setting_of method.now) past
        → IsTrial (setting_of method.now) past p.now (plies_of captured.now.session.settler) said.entry trial → (HasEnded p.now said.entry → ⊥)
        → IfOk result (IsAnswerTo (setting_of method.now) method.now.recovers capture.now past p.now (plies_of captured.now.session.settler) said.entry) }
{
    let again = shown_again(alloc, method, captured, p)?;
    let verdict = judged(
        alloc,
        method,
        capture,
        trial.bytes.as_slice(),
        again.as_slice(),
        trial.plies.as_slice(),
        trial.sign,
    )?;
    Ok(match verdict {
        Verdict::Kept => Answer::Added(said, trial.bytes),
        Verdict::Changed => Answer::Refused(said, Reason::Board),
        Verdict::NoRoom => Answer::Refused(said, Reason::Long),
    })
}

/// Answers what was read.
fn answered<'a>(
    alloc: Global,
    method: &Method,
    capture: &[u8],
    captured: &Captured,
    p: &Position,
    said: Typed<'a>,
) -> Result<Answer<'a>, AllocError>
    requires { (text : List ℕ) × ReadsLine p.now text said }
    ensures { (past : List EventOf) → StandsForCapture captured.now (setting_of method.now) past
        → IfOk result (IsAnswerTo (setting_of method.now) method.now.recovers capture.now past p.now (plies_of captured.now.session.settler) said.entry) }
{
    if is_ended(p, &said) {
        return Ok(Answer::Refused(said, Reason::Ended));
    }
    match trial_of(alloc, method, captured, p, &said)? {
        Some(trial) => tried(alloc, method, capture, captured, p, said, trial),
        None => Ok(Answer::Refused(said, Reason::Line)),
    }
}

/// Reads a capture and a typed line, and answers with the bytes that add to the capture what the line says, or why
/// nothing is added.
///
/// # Errors
///
/// - `TooLong`: the capture has more than 67,108,864 bytes, or `recovers` is set and it has more with what is put in.
/// - `Memory`: memory ran out.
pub fn add_line<'a>(
    alloc: Global,
    method: &Method,
    capture: &[u8],
    text: &'a [u8],
) -> Result<Answer<'a>, CaptureError>
    ensures answers { IfOk result (IsAnswered (setting_of method.now) method.now.recovers capture.now text.now) }
    ensures long { result ≡ Err CaptureError.TooLong → IsTooLong (setting_of method.now) method.now.recovers capture.now }
{
    let captured = match read_capture(alloc, method, capture) {
        Ok(captured) => captured,
        Err(error) => return Err(error),
    };
    let p = captured.session.settler().position();
    let Ok(said) = read_line(alloc, p, text) else {
        return Err(CaptureError::Memory);
    };
    match answered(alloc, method, capture, &captured, p, said) {
        Ok(answer) => Ok(answer),
        Err(_) => Err(CaptureError::Memory),
    }
}
