//! The bytes that show what was typed.
ghost use Rattle.std.specs.Prelude.{◌≡◌, ◌<◌, ◌++◌, ◌∷◌, [], All, IfOk, List, None, OnOk, map};
ghost use Rattle.chess_rules.specs.Picture.{picture as picture_of};
ghost use Rattle.dgt_frame.specs.declared.events.Event.{Event as EventOf};
ghost use Rattle.settle_core.specs.Folding.{moves_of};
ghost use Rattle.settle_core.specs.Settling.{Line};
ghost use Rattle.pair_frames.specs.PutIn.{ShowsWhole, dump_of};
ghost use Rattle.board_events.specs.Settings.{Setting};
ghost use Rattle.board_captures.specs.Reading.{StandsForCapture, setting_of};
ghost use Rattle.board_captures.specs.Shown.{plies_shown};
ghost use Rattle.adding.specs.Making.{board_again, shown_at, unclocked as unclocked_of};
ghost use Rattle.adding.specs.Signs.{sign_picture as sign_picture_of};

use crate::signs::sign_picture;
use board_captures::{Captured, Method, add_board, add_dump, add_plies};
use chess_rules::{Move, Position};
use settle_core::{Outcome, Ply};
use std::alloc::{AllocError, Global};

/// The moves as plies without clocks.
pub fn unclocked(alloc: Global, moves: &[Move]) -> Result<Vec<Ply>, AllocError>
    ensures { IfOk result (λ plies. plies.items ≡ map unclocked_of moves.now) }
{
    let mut plies = Vec::new(alloc);
    for m in moves {
        plies.push(Ply {
            mv: m.copy(),
            clock: None,
        })?;
    }
    Ok(plies)
}

/// What the board has shown last, or, where it has shown nothing, the position.
fn shown_last(captured: &Captured, p: &Position) -> [u8; 64]
    ensures low { All (λ code. code < 16) result }
    ensures shown { (setting : Setting) (past : List EventOf) → StandsForCapture captured.now setting past → result ≡ shown_at setting past p.now }
{
    match captured.picture() {
        Some(picture) => *picture,
        None => p.picture(),
    }
}

/// The frame of what the board has shown last.
pub fn shown_again(
    alloc: Global,
    method: &Method,
    captured: &Captured,
    p: &Position,
) -> Result<Vec<u8>, AllocError>
    ensures { (past : List EventOf) → StandsForCapture captured.now (setting_of method.now) past
        → IfOk result (λ again. ShowsWhole again.items (dump_of method.now.rotated (shown_at (setting_of method.now) past p.now) ∷ [])) }
{
    let mut again = Vec::new(alloc);
    add_dump(method.rotated, &shown_last(captured, p), &mut again)?;
    Ok(again)
}

/// Adds the clocks and the board as they stand, and a byte in no frame.
fn add_again(
    method: &Method,
    captured: &Captured,
    p: &Position,
    bytes: &mut Vec<u8>,
) -> Result<(), AllocError>
    ensures { (past : List EventOf) (events : List EventOf) → StandsForCapture captured.now (setting_of method.now) past → ShowsWhole bytes.old.items events
        → OnOk result (ShowsWhole bytes.new.items (events ++ board_again (setting_of method.now) past p.now)) }
{
    let reading = captured.session.reading();
    add_board(
        method.first,
        method.rotated,
        &reading,
        &shown_last(captured, p),
        false,
        bytes,
    )
}

/// The bytes that show the moves of a legal line from the position on.
pub fn bytes_of_moves(
    alloc: Global,
    method: &Method,
    captured: &Captured,
    p: &Position,
    plies: &[Ply],
) -> Result<Vec<u8>, AllocError>
    requires { Line p.now (moves_of plies.now) }
    ensures { (past : List EventOf) → StandsForCapture captured.now (setting_of method.now) past
        → IfOk result (λ bytes. ShowsWhole bytes.items (plies_shown method.now.first method.now.rotated p.now None plies.now ++ board_again (setting_of method.now) past p.now)) }
{
    let mut bytes = Vec::new(alloc);
    add_plies(method.first, method.rotated, p, plies, &mut bytes)?;
    add_again(method, captured, p, &mut bytes)?;
    Ok(bytes)
}

/// The bytes that show the kings' sign of a result over the position.
pub fn bytes_of_result(
    alloc: Global,
    method: &Method,
    captured: &Captured,
    p: &Position,
    outcome: Outcome,
) -> Result<Vec<u8>, AllocError>
    ensures { (past : List EventOf) → StandsForCapture captured.now (setting_of method.now) past
        → IfOk result (λ bytes. ShowsWhole bytes.items (dump_of method.now.rotated (sign_picture_of outcome (picture_of p.now)) ∷ board_again (setting_of method.now) past p.now)) }
{
    let mut bytes = Vec::new(alloc);
    let sign = sign_picture(outcome, &p.picture());
    add_dump(method.rotated, &sign, &mut bytes)?;
    add_again(method, captured, p, &mut bytes)?;
    Ok(bytes)
}
