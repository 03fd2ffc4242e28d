//! The example on the page of `typed_lines`.

use chess_rules::Position;
use std::alloc::{AllocError, Global};
use typed_lines::{Typed, read_line};

/// How many moves a line says in a position, if it says moves.
fn moves_typed(alloc: Global, p: &Position, line: &str) -> Result<Option<usize>, AllocError> {
    match read_line(alloc, p, line.as_bytes())? {
        Typed::Moves(moves) => Ok(Some(moves.len())),
        _ => Ok(None),
    }
}

#[test]
fn moves_are_counted(rt: HostRuntime) {
    let read = moves_typed(rt.alloc(), &Position::initial(), "1. e4 e5 2.Nf3! nc6");
    assert!(rt; matches!(read, Ok(None)));
    let read = moves_typed(rt.alloc(), &Position::initial(), "1. e4 e5 2.Nf3! Nc6+");
    assert!(rt; matches!(read, Ok(Some(4))));
}

#[test]
fn moves_are_recognised(rt: HostRuntime) {
    assert!(rt; says_to_type(rt.alloc(), "Ng1f3", "Nf3"));
    assert!(rt; says_to_type(rt.alloc(), "Sf3", "Nf3"));
}

/// Whether one move may be meant, and this is the SAN that is to be typed instead.
fn says_to_type(alloc: Global, line: &str, san: &str) -> bool {
    match read_line(alloc, &Position::initial(), line.as_bytes()) {
        Ok(typed) => is_meant(&typed, san),
        Err(_) => false,
    }
}

fn is_meant(typed: &Typed<'_>, san: &str) -> bool {
    match typed {
        Typed::Meant(_, _, text) => text.as_str() == san,
        _ => false,
    }
}
