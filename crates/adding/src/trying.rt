//! A capture, read with more bytes.
ghost use Rattle.std.specs.Prelude.{◌≡◌, ◌++◌, ◌↔◌, Err, IfOk, IsTrue, List, Ok, Option, false, true};
ghost use Rattle.dgt_frame.specs.declared.events.Event.{Event as EventOf};
ghost use Rattle.settle_core.specs.declared.plies.Outcome.{Outcome as OutcomeOf};
ghost use Rattle.settle_core.specs.declared.plies.Ply.{Ply as PlyOf};
ghost use Rattle.board_events.specs.Settings.{Setting};
ghost use Rattle.board_captures.specs.Reading.{IsTooLong, StandsForCapture, setting_of};
ghost use Rattle.adding.specs.Stays.{HasGame, HasOther, HasScore};
ghost use Rattle.adding.specs.Verdicts.{Judges};

use board_captures::{CaptureError, Captured, Method, read_capture};
use settle_core::{Outcome, Ply};
use std::alloc::{AllocError, Global};

fn is_same_ply(a: &Ply, b: &Ply) -> bool
    ensures { IsTrue result ↔ (a.now ≡ b.now) }
{
    *a == *b
}

/// Whether both are the same plies.
fn are_same(a: &[Ply], b: &[Ply]) -> bool
    ensures { IsTrue result ↔ (a.now ≡ b.now) }
{
    if a.len() != b.len() {
        return false;
    }
    for i in 0..a.len() {
        let same = is_same_ply(&a[i], &b[i]);
        if !same {
            return false;
        }
    }
    true
}

fn is_same_sign(a: Option<Outcome>, b: Option<Outcome>) -> bool
    ensures { IsTrue result ↔ (a ≡ b) }
{
    a == b
}

/// The bytes one after the other.
fn joined(alloc: Global, a: &[u8], b: &[u8], c: &[u8]) -> Result<Vec<u8>, AllocError>
    ensures { IfOk result (λ all. all.items ≡ a.now ++ (b.now ++ c.now)) }
{
    let mut all = Vec::new(alloc);
    all.extend_from_slice(a)?;
    all.extend_from_slice(b)?;
    all.extend_from_slice(c)?;
    Ok(all)
}

/// Whether a capture that was read has this game.
fn is_game(captured: &Captured, plies: &[Ply], sign: Option<Outcome>) -> bool
    ensures game { (setting : Setting) (past : List EventOf) → StandsForCapture captured.now setting past → IsTrue result → HasScore setting past plies.now sign }
    ensures other { (setting : Setting) (past : List EventOf) → StandsForCapture captured.now setting past → result ≡ false
        → (others : List PlyOf) × (other : Option OutcomeOf) × HasScore setting past others other × ((others ≡ plies.now) → (other ≡ sign) → ⊥) }
{
    let settler = captured.session.settler();
    let same_plies = are_same(settler.moves(), plies);
    let same_sign = is_same_sign(settler.sign(), sign);
    same_plies && same_sign
}

/// Whether the capture has this game with the bytes behind it.
fn gives(
    alloc: Global,
    method: &Method,
    capture: &[u8],
    added: &[u8],
    again: &[u8],
    plies: &[Ply],
    sign: Option<Outcome>,
) -> Result<bool, CaptureError>
    ensures game { result ≡ Ok true → HasGame (setting_of method.now) method.now.recovers (capture.now ++ (added.now ++ again.now)) plies.now sign }
    ensures other { result ≡ Ok false → HasOther (setting_of method.now) method.now.recovers (capture.now ++ (added.now ++ again.now)) plies.now sign }
    ensures long { result ≡ Err CaptureError.TooLong → IsTooLong (setting_of method.now) method.now.recovers (capture.now ++ (added.now ++ again.now)) }
{
    let Ok(all) = joined(alloc, capture, added, again) else {
        return Err(CaptureError::Memory);
    };
    match read_capture(alloc, method, all.as_slice()) {
        Ok(captured) => Ok(is_game(&captured, plies, sign)),
        Err(error) => Err(error),
    }
}

/// What a trial comes to.
pub enum Verdict {
    /// The game is the one that is wanted, and stays so.
    Kept,
    /// It is another one.
    Changed,
    /// There is no room.
    NoRoom,
}

/// Tries bytes behind a capture, alone and with the picture that the board has shown last.
pub fn judged(
    alloc: Global,
    method: &Method,
    capture: &[u8],
    added: &[u8],
    again: &[u8],
    plies: &[Ply],
    sign: Option<Outcome>,
) -> Result<Verdict, AllocError>
    ensures { IfOk result (Judges (setting_of method.now) method.now.recovers capture.now added.now again.now plies.now sign) }
{
    match gives(alloc, method, capture, added, &[], plies, sign) {
        Ok(true) => {}
        Ok(false) => return Ok(Verdict::Changed),
        Err(CaptureError::TooLong) => return Ok(Verdict::NoRoom),
        Err(CaptureError::Memory) => return Err(AllocError),
    }
    match gives(alloc, method, capture, added, again, plies, sign) {
        Ok(true) => Ok(Verdict::Kept),
        Ok(false) => Ok(Verdict::Changed),
        Err(CaptureError::TooLong) => Ok(Verdict::NoRoom),
        Err(CaptureError::Memory) => Err(AllocError),
    }
}
