//! The bytes that a board sends: dumps, time messages, the plies of a game, and the board as it stands.
ghost use Rattle.std.specs.Prelude.{◌≡◌, ◌<◌, ◌+◌, ◌*◌, ◌++◌, [], ◌∷◌, ℕ, List, None, All, IfOk, OnOk, length};
ghost use Rattle.dgt_frame.specs.declared.events.Event.{Event as EventOf};
ghost use Rattle.dgt_frame.specs.declared.events.Event.TheVariants.{Message as MessageEvent};
ghost use Rattle.dgt_frame.specs.Encoding.{IsEncodable};
ghost use Rattle.dgt_frame.specs.Frames.{Frame};
ghost use Rattle.chess_rules.specs.After.{after};
ghost use Rattle.chess_rules.specs.Legal.{Legal};
ghost use Rattle.settle_core.specs.Folding.{moves_of};
ghost use Rattle.settle_core.specs.Settling.{Line};
ghost use Rattle.pair_frames.specs.PutIn.{ShowsWhole, dump_of};
ghost use Rattle.board_captures.specs.Shown.{board_shown, game_shown, plies_shown, ply_shown, reading_with, size_of_board, size_of_game, time_shown};

use arrayvec::ArrayVec;
use chess_clock::{Hms, Reading};
use chess_rules::{Position, Side};
use dgt_frame::laws::restarts_are_shown;
use dgt_frame::{First, Message, encode};
use pair_frames::laws::frames_are_put_in;
use pair_frames::{fields_of, times_of};
use settle_core::Ply;
use std::alloc::{AllocError, Global};

/// A byte that stands in no frame: a fault.
const STRAY: u8 = 0;

fn append(bytes: &[u8], out: &mut Vec<u8>) -> Result<(), AllocError>
    ensures { OnOk result (out.new.items ≡ out.old.items ++ bytes.now) }
{
    out.extend_from_slice(bytes)
}

/// Adds the frame of a message.
fn add(message: &Message, out: &mut Vec<u8>) -> Result<(), AllocError>
    requires { IsEncodable message.now }
    ensures shows { (events : List EventOf) → ShowsWhole out.old.items events
        → OnOk result (ShowsWhole out.new.items (events ++ MessageEvent message.now ∷ [])) }
    ensures size { (n : ℕ) → ((frame : List ℕ) → Frame message.now frame → length frame ≡ n)
        → OnOk result (length out.new.items ≡ length out.old.items + n) }
{
    let mut frame = ArrayVec::new();
    // For its clause: a frame is shown behind others.
    restarts_are_shown();
    encode(message, &mut frame);
    append(&frame, out)
}

/// Adds a dump of a picture, 64 codes of at most 15 by square number. With `rotated`, field n is square 63 - n.
///
/// # Errors
///
/// Where there is no memory for it.
pub fn add_dump(rotated: bool, picture: &[u8; 64], out: &mut Vec<u8>) -> Result<(), AllocError>
    requires { All (λ code. code < 16) picture.now }
    ensures shows { (events : List EventOf) → ShowsWhole out.old.items events
        → OnOk result (ShowsWhole out.new.items (events ++ dump_of rotated picture.now ∷ [])) }
    ensures size { OnOk result (length out.new.items ≡ length out.old.items + 67) }
{
    add(&Message::Dump(fields_of(rotated, picture)), out)
}

/// Adds a time message that says what the clocks show, or that no clock is connected. Its first group is that of the
/// side `first`.
///
/// # Errors
///
/// Where there is no memory for it.
pub fn add_time(
    first: First,
    reading: &Option<Reading>,
    out: &mut Vec<u8>,
) -> Result<(), AllocError>
    ensures shows { (events : List EventOf) → ShowsWhole out.old.items events
        → OnOk result (ShowsWhole out.new.items (events ++ time_shown first reading.now ∷ [])) }
    ensures size { OnOk result (length out.new.items ≡ length out.old.items + 10) }
{
    add(&Message::Time(times_of(first, reading)), out)
}

/// Adds what the clocks show, what the board shows, codes of at most 15 by square number, and a byte in no frame where
/// updates are not to count until the next dump.
///
/// # Errors
///
/// Where there is no memory for it.
pub fn add_board(
    first: First,
    rotated: bool,
    reading: &Option<Reading>,
    picture: &[u8; 64],
    trusted: bool,
    out: &mut Vec<u8>,
) -> Result<(), AllocError>
    requires { All (λ code. code < 16) picture.now }
    ensures shows { (events : List EventOf) → ShowsWhole out.old.items events
        → OnOk result (ShowsWhole out.new.items (events ++ board_shown first rotated reading.now picture.now trusted)) }
    ensures size { OnOk result (length out.new.items ≡ length out.old.items + size_of_board trusted) }
{
    // For its clause: a byte in no frame is shown behind a dump.
    frames_are_put_in();
    add_time(first, reading, out)?;
    add_dump(rotated, picture, out)?;
    if trusted {
        return Ok(());
    }
    append(&[STRAY], out)
}

/// The reading in which the mover has the clock of its ply. The other side has that of the ply before, or the same.
fn reading_with(side: Side, before: Option<Hms>, own: Option<Hms>) -> Option<Reading>
    ensures { result ≡ reading_with side before own }
{
    let Some(time) = own else {
        return None;
    };
    let other = before.unwrap_or(time);
    Some(match side {
        Side::White => Reading {
            white: time,
            black: other,
        },
        Side::Black => Reading {
            white: other,
            black: time,
        },
    })
}

/// Adds a ply: its clock, and then the board after it. Returns the position after it.
fn add_ply(
    first: First,
    rotated: bool,
    position: &Position,
    before: Option<Hms>,
    ply: &Ply,
    out: &mut Vec<u8>,
) -> Result<Position, AllocError>
    requires { Legal position.now ply.now.mv }
    ensures after { IfOk result (λ next. next ≡ after position.now ply.now.mv) }
    ensures shows { (events : List EventOf) → ShowsWhole out.old.items events
        → OnOk result (ShowsWhole out.new.items (events ++ ply_shown first rotated position.now before ply.now)) }
    ensures size { OnOk result (length out.new.items ≡ length out.old.items + 77) }
{
    let next = position.play(ply.mv);
    let side = position.parts().side;
    add_time(first, &reading_with(side, before, ply.clock), out)?;
    add_dump(rotated, &next.picture(), out)?;
    Ok(next)
}

/// Adds each ply of a legal line from a start, with its clock, if it has one, and the board after it.
///
/// # Errors
///
/// Where there is no memory for them.
pub fn add_plies(
    first: First,
    rotated: bool,
    start: &Position,
    plies: &[Ply],
    out: &mut Vec<u8>,
) -> Result<(), AllocError>
    requires { Line start.now (moves_of plies.now) }
    ensures shows { (events : List EventOf) → ShowsWhole out.old.items events
        → OnOk result (ShowsWhole out.new.items (events ++ plies_shown first rotated start.now None plies.now)) }
    ensures size { OnOk result (length out.new.items ≡ length out.old.items + 77 * length plies.now) }
{
    let mut position = *start;
    let mut before = None;
    for ply in plies {
        position = add_ply(first, rotated, &position, before, ply, out)?;
        before = ply.clock;
    }
    Ok(())
}

/// The bytes of a board that shows each ply of a legal line from a start, with its clock, and then stands as `add_board`
/// says. Before the first ply the start is shown; where there is none, it isn't.
///
/// # Errors
///
/// Where there is no memory for them.
pub fn show_game(
    alloc: Global,
    first: First,
    rotated: bool,
    start: &Position,
    plies: &[Ply],
    reading: &Option<Reading>,
    picture: &[u8; 64],
    trusted: bool,
) -> Result<Vec<u8>, AllocError>
    requires line { Line start.now (moves_of plies.now) }
    requires codes { All (λ code. code < 16) picture.now }
    ensures shows { IfOk result (λ bytes. ShowsWhole bytes.items
        (game_shown first rotated start.now plies.now ++ board_shown first rotated reading.now picture.now trusted)) }
    ensures size { IfOk result (λ bytes. length bytes.items ≡ size_of_game (length plies.now) + size_of_board trusted) }
{
    let mut bytes = Vec::new(alloc);
    if !plies.is_empty() {
        add_dump(rotated, &start.picture(), &mut bytes)?;
        add_plies(first, rotated, start, plies, &mut bytes)?;
    }
    add_board(first, rotated, reading, picture, trusted, &mut bytes)?;
    Ok(bytes)
}
