//! The ply that is nearest to a text that names none, by its number.

use crate::coded_frames::expect_none;
use chess_rules::Position;
use chess_text::read_san;
use going_back::nearest_ply;
use settle_core::Settler;
use std::alloc::Global;

/// The number of the ply of 1. e4 e5 2. Nf3 that is nearest; none where memory ran out.
fn nearest_of(alloc: Global, text: &str) -> Option<usize> {
    let mut settler = Settler::new(alloc, Position::initial());
    for san in ["e4", "e5", "Nf3"] {
        let Ok(m) = read_san(settler.position(), san.as_bytes()) else {
            return None;
        };
        let picture = settler.position().play(m).picture();
        if settler.see(&picture, None).is_err() {
            return None;
        }
    }
    nearest_ply(settler.start(), settler.moves(), text.as_bytes())
}

/// A text, and the number of the ply that is near.
static NEAR: [(&str, usize); 8] = [
    ("1. d4", 1),
    ("1... d5", 2),
    ("2. Nc3", 3),
    ("2... Nc6", 3),
    ("14. Bxf6", 3),
    ("99999. a3", 3),
    ("0. e4", 1),
    ("e4", 1),
];

/// The number of the first text to which another ply is near.
fn first_unlike(alloc: Global) -> Option<usize> {
    for (i, (text, number)) in NEAR.iter().enumerate() {
        if nearest_of(alloc, text) != Some(*number) {
            return Some(i);
        }
    }
    None
}

#[test]
fn the_number_tells_which_is_near(rt: HostRuntime) {
    expect_none(&rt, first_unlike(rt.alloc()));
}
