//! The SAN of a game's moves, written or read so many rounds. The game stands on standard input, its moves in SAN,
//! divided by spaces.

use arrayvec::ArrayString;
use chess_rules::{Move, Position};
use chess_text::{read_san, write_san};
use std::alloc::{AllocError, Global};
use std::io;

/// A move, the position before it and its text.
#[derive(Drop)]
struct Ply {
    before: Position,
    mv: Move,
    text: ArrayString<8>,
}

/// The ply, where its text has at most 8 bytes.
fn ply_of(before: &Position, mv: &Move, text: &str) -> Option<Ply> {
    let mut kept = ArrayString::new();
    kept.try_push_str(text).ok()?;
    Some(Ply {
        before: *before,
        mv: *mv,
        text: kept,
    })
}

/// The bytes of the move's text as it is written, or nothing where the move is not legal.
fn written(ply: &Ply) -> usize {
    if ply.before.is_legal(ply.mv) {
        write_san(&ply.before, ply.mv).len()
    } else {
        0
    }
}

/// 1 where the text is read, else 0.
fn read(ply: &Ply) -> usize {
    match read_san(&ply.before, ply.text.as_str().as_bytes()) {
        Ok(_) => 1,
        Err(_) => 0,
    }
}

/// How many bytes are written, or texts read, in so many rounds.
fn counted(plies: &[Ply], what: &str, rounds: u32) -> usize {
    let mut count = 0usize;
    for _ in 0..rounds {
        for ply in plies {
            let more = if what == "write" {
                written(ply)
            } else {
                read(ply)
            };
            count = count.saturating_add(more);
        }
    }
    count
}

/// Adds the plies of a game. False where a text is no legal move.
fn add_plies(game: &str, plies: &mut Vec<Ply>) -> Result<bool, AllocError> {
    let mut position = Position::initial();
    for text in game.split_whitespace() {
        let Ok(mv) = read_san(&position, text.as_bytes()) else {
            return Ok(false);
        };
        if let Some(ply) = ply_of(&position, &mv, text) {
            plies.push(ply)?;
        }
        position = position.play(mv);
    }
    Ok(true)
}

/// How many plies a game has, and how many bytes were written, or texts read, in so many rounds. None where a text is no legal
/// move, or where there is no memory.
fn done(alloc: Global, game: &str, what: &str, rounds: u32) -> Option<(usize, usize)> {
    let mut plies = Vec::new(alloc);
    if add_plies(game, &mut plies) != Ok(true) {
        return None;
    }
    Some((plies.len(), counted(&plies, what, rounds)))
}

/// Prints how many bytes were written, or texts read. False where a text is no legal move.
pub fn run(rt: &HostRuntime, what: &str, rounds: u32) -> io::Result<bool> {
    let game = io::read_to_string(rt.alloc(), rt.stdin())?;
    let Some((plies, count)) = done(rt.alloc(), &game, what, rounds) else {
        return Ok(false);
    };
    println!(rt; "{plies} plies, {rounds} rounds, {what} {count}")?;
    Ok(true)
}
