//! Work for settlers, in numbers of pictures.
ghost use Rattle.std.specs.Prelude.{All, ◌<◌};

use chess_rules::{Move, Position, Square};
use settle_core::{Seen, Settler};
use std::alloc::{AllocError, Global};
use std::io;

/// The position after the move, or the position itself if it is not legal.
fn after(position: &Position, from: u8, to: u8) -> Position {
    let (Some(from), Some(to)) = (Square::new(from), Square::new(to)) else {
        return *position;
    };
    let m = Move {
        from,
        to,
        promotion: None,
    };
    play(position, &m)
}

fn play(position: &Position, m: &Move) -> Position {
    let (legal, played) = (*m, *m);
    if position.is_legal(legal) {
        position.play(played)
    } else {
        *position
    }
}

fn is_waiting(seen: &Seen) -> bool {
    matches!(seen, Seen::Waits)
}

/// Shows these pictures by turns; how many waited.
fn show_by_turns(
    settler: &mut Settler,
    one: &[u8; 64],
    other: &[u8; 64],
    count: u32,
) -> Result<u32, AllocError>
    requires one { All (λ code. code < 16) one.now }
    requires other { All (λ code. code < 16) other.now }
{
    let mut waiting = 0u32;
    for turn in 0..count {
        let seen = if turn % 2 == 0 {
            settler.see(one, None)?
        } else {
            settler.see(other, None)?
        };
        if is_waiting(&seen) {
            waiting = waiting.saturating_add(1);
        }
    }
    Ok(waiting)
}

/// Shows by turns the pictures after two moves and after two other moves; how many waited.
fn waiting_pictures(alloc: Global, count: u32) -> Result<u32, AllocError> {
    let start = Position::initial();
    let one = after(&after(&start, 52, 36), 12, 28).picture();
    let other = after(&after(&start, 51, 35), 11, 27).picture();
    let mut settler = Settler::new(alloc, start);
    show_by_turns(&mut settler, &one, &other, count)
}

/// Lifts a pawn and puts it back, by turns; how many updates waited.
fn waiting_updates(alloc: Global, count: u32) -> Result<u32, AllocError> {
    let start = Position::initial();
    let mut settler = Settler::new(alloc, start);
    let _first = settler.see(&start.picture(), None)?;
    let mut waiting = 0u32;
    for turn in 0..count {
        let Some(e2) = Square::new(52) else {
            return Ok(waiting);
        };
        let code = if turn % 2 == 0 { 0 } else { 1 };
        let seen = settler.see_field(e2, code, None)?;
        if is_waiting(&seen) {
            waiting = waiting.saturating_add(1);
        }
    }
    Ok(waiting)
}

/// Both sides move a knight out and back; how many plies were settled.
fn plies(alloc: Global, count: u32) -> Result<u32, AllocError> {
    let start = Position::initial();
    let white_out = after(&start, 62, 45);
    let both_out = after(&white_out, 6, 21);
    let white_back = after(&both_out, 45, 62);
    let mut settler = Settler::new(alloc, start);
    let mut settled = 0u32;
    for turn in 0..count {
        let seen = match turn % 4 {
            0 => settler.see(&white_out.picture(), None)?,
            1 => settler.see(&both_out.picture(), None)?,
            2 => settler.see(&white_back.picture(), None)?,
            _ => settler.see(&start.picture(), None)?,
        };
        if matches!(seen, Seen::Moved(_)) {
            settled = settled.saturating_add(1);
        }
    }
    Ok(settled)
}

/// Copies as many bytes as so many pictures have; how many pictures that were.
fn copied(alloc: Global, count: u32) -> Result<u32, AllocError> {
    let bytes = count as usize * 64;
    let source = vec![in alloc; 7u8; bytes]?;
    let mut target = vec![in alloc; 0u8; bytes]?;
    target.copy_from_slice(&source);
    match target.last() {
        Some(7) => Ok(count),
        _ => Ok(0),
    }
}

/// How many were done of so many, where there is such a task.
fn done(alloc: Global, task: &str, count: u32) -> Result<Option<u32>, AllocError> {
    match task {
        "pictures" => Ok(Some(waiting_pictures(alloc, count)?)),
        "updates" => Ok(Some(waiting_updates(alloc, count)?)),
        "plies" => Ok(Some(plies(alloc, count)?)),
        "copy" => Ok(Some(copied(alloc, count)?)),
        _ => Ok(None),
    }
}

/// Prints how many were done of so many. False where there is no such task.
pub fn run(rt: &HostRuntime, task: &str, count: u32) -> io::Result<bool> {
    let Some(done) = done(rt.alloc(), task, count)? else {
        return Ok(false);
    };
    println!(rt; "{task} {done}")?;
    Ok(true)
}
