//! Where two pictures differ, and the move that it shows.

use crate::starts::{KING_FIRST, before_castling};
use crate::told::{Way, way_of};
use crate::ways::{E1_G1, H1_F1};
use chess_rules::Square;
use settle_core::laws::candidate;
use settle_core::masks::diff_mask;

/// Whether the change from one picture to the other shows this move.
fn is_candidate(before: &[u8; 64], after: &[u8; 64], way: Option<Way>) -> bool {
    match (candidate(before, after, diff_mask(before, after)), way) {
        (Some(m), Some(way)) => way_of(&m) == way,
        (None, None) => true,
        _ => false,
    }
}

/// The picture after these updates, where each names a square.
fn after_updates(picture: &[u8; 64], updates: &[(u8, u8)]) -> Option<[u8; 64]> {
    let mut picture = *picture;
    for (number, code) in updates {
        let square = Square::new(*number)?;
        picture[square.number() as usize] = *code;
    }
    Some(picture)
}

/// The number of the first row whose updates show another move.
fn first_other_candidate(rows: &[(&[(u8, u8)], Option<Way>)]) -> Option<usize> {
    let Some(start) = before_castling() else {
        return Some(0);
    };
    let before = start.picture();
    for (i, (updates, way)) in rows.iter().enumerate() {
        let Some(after) = after_updates(&before, updates) else {
            return Some(i);
        };
        if !is_candidate(&before, &after, *way) {
            return Some(i);
        }
    }
    None
}

/// Updates in the order of rook and king, and the moves that they show.
static CANDIDATES: [(&[(u8, u8)], Option<Way>); 3] = [
    (&[(63, 0)], None),
    (&[(63, 0), (61, 2)], Some(H1_F1)),
    (&[(63, 0), (61, 2), (60, 0), (62, 5)], Some(E1_G1)),
];

/// The squares on which the pictures before and after castling differ.
fn castled_mask() -> Option<u64> {
    let before = before_castling()?.picture();
    let castled = after_updates(&before, &KING_FIRST)?;
    Some(diff_mask(&before, &castled))
}

#[test]
fn two_squares_show_a_step_and_four_castling(rt: HostRuntime) {
    assert_eq!(rt; first_other_candidate(&CANDIDATES), None);
    assert_eq!(rt; castled_mask(), Some(0xF000_0000_0000_0000));
}
