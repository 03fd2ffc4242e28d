//! Lines of legal moves of two known positions, counted depth by depth.

use chess_rules::Position;
use chess_text::read_fen;
use std::alloc::{AllocError, Global};
use std::io;

/// A middle game with every kind of move, known for its counts.
const MIDDLE_GAME: &str = "r3k2r/p1ppqpb1/bn2pnp1/3PN3/1p2P3/2N2Q1p/PPPBBPPP/R3K2R w KQkq - 0 1";

/// How many lines of `depth` legal moves there are, at least one move long. The last moves are counted and not played.
fn lines(alloc: Global, position: &Position, depth: u8) -> Result<u64, AllocError> {
    let moves = position.legal_moves(alloc)?;
    if depth <= 1 {
        return Ok(moves.len() as u64);
    }
    let mut sum = 0u64;
    for m in &moves {
        let below = lines(alloc, &position.play(*m), depth - 1)?;
        sum = sum.saturating_add(below);
    }
    Ok(sum)
}

/// Prints how many lines there are of each depth.
pub fn run(rt: &HostRuntime) -> io::Result<bool> {
    let initial = Position::initial();
    for depth in 1..5u8 {
        let lines = lines(rt.alloc(), &initial, depth)?;
        println!(rt; "initial {depth} {lines}")?;
    }
    if let Ok(middle) = read_fen(MIDDLE_GAME.as_bytes()) {
        for depth in 1..4u8 {
            let lines = lines(rt.alloc(), &middle, depth)?;
            println!(rt; "middle {depth} {lines}")?;
        }
    }
    Ok(true)
}
