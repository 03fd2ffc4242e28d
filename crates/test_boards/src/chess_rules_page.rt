//! The example on the page of `chess_rules`.

use chess_rules::{Move, Position, Square};

/// The position after e2-e4, where that is legal.
fn after_e4(p: &Position) -> Option<Position> {
    let m = Move {
        from: Square::new(52)?,
        to: Square::new(36)?,
        promotion: None,
    };
    if p.is_legal(m) { Some(p.play(m)) } else { None }
}
