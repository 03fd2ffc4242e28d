//! The last ply of a settler, and the squares on which its last picture differs from the position.

use crate::games::with_pawn_on;
use crate::told::{Way, way_of};
use crate::ways::{E2_E3, E2_E4};
use chess_rules::{Position, Square};
use settle_core::Settler;
use std::alloc::{AllocError, Global};

/// Whether the last ply is this one, made in the initial position.
fn is_last(settler: &Settler, way: Option<Way>) -> bool {
    match (settler.last_ply(), way) {
        (Some((before, ply)), Some(way)) => before.picture() == Position::initial().picture()
            && way_of(&ply.mv) == way,
        (None, None) => true,
        _ => false,
    }
}

/// Where the pawn of e2 is shown, in hand where there is no number, and then the last ply and the squares that differ.
static CORRECTED: [(Option<u8>, Option<Way>, u64); 4] = [
    (None, None, 1 << 52),
    (Some(36), Some(E2_E4), 0),
    (Some(44), Some(E2_E3), 0),
    (None, Some(E2_E3), 1 << 44),
];

/// Shows the pictures in turn: the number of the first after which the settler tells something else.
fn first_told_otherwise(alloc: Global) -> Result<Option<usize>, AllocError> {
    let mut settler = Settler::new(alloc, Position::initial());
    for (i, (number, way, differs)) in CORRECTED.iter().enumerate() {
        let square = number.and_then(Square::new);
        settler.see(&with_pawn_on(square), None)?;
        if !is_last(&settler, *way) || settler.differs() != *differs {
            return Ok(Some(i));
        }
    }
    Ok(None)
}

#[test]
fn the_last_ply_and_the_differing_squares_are_told(rt: HostRuntime) {
    assert_eq!(rt; first_told_otherwise(rt.alloc()), Ok(None));
}
