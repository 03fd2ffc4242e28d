//! Placements of pictures, and how they follow a picture that changes.
ghost use Rattle.std.specs.Prelude.{All, ◌≤◌};

use crate::known_positions::expect_none;
use arrayvec::ArrayVec;
use chess_rules::Position;
use chess_text::{PlacementText, write_placement};

/// Whether the picture's placement is this.
fn is_placement(picture: &[u8; 64], placement: &str) -> bool
    requires { All (λ c. c ≤ 15) picture.now }
{
    write_placement(picture).as_str() == placement
}

/// The picture with this code on one square.
fn changed(picture: &[u8; 64], at: u8, code: u8) -> [u8; 64]
    requires codes { All (λ c. c ≤ 15) picture.now }
    requires at { at ≤ 63 }
    requires code { code ≤ 15 }
    ensures { All (λ c. c ≤ 15) result }
{
    let mut picture = *picture;
    picture[at as usize] = code;
    picture
}

#[test]
fn placement_shows_unknown_codes(rt: HostRuntime) {
    let picture = changed(&Position::initial().picture(), 52, 13);
    assert!(rt; is_placement(&picture, "rnbqkbnr/pppppppp/8/8/8/8/PPPP*PPP/RNBQKBNR"));
}

/// Whether the placement that is kept has this text.
fn has_text(placement: &PlacementText, text: &str) -> bool {
    let mut out: ArrayVec<u8, 71> = ArrayVec::new();
    placement.add_to(&mut out);
    out.as_slice() == text.as_bytes()
}

/// The number of the first change, a square's number and its code, after which the placement has another text.
fn first_unlike_change(placement: &mut PlacementText, rows: &[(u8, u8, &str)]) -> Option<usize> {
    for (i, (square, code, text)) in rows.iter().enumerate() {
        if *square > 63 {
            return Some(i);
        }
        placement.change(*square, *code);
        if !has_text(placement, text) {
            return Some(i);
        }
    }
    None
}

static RANK_FILLS_AND_EMPTIES: [(u8, u8, &str); 8] = [
    (36, 1, "8/8/8/8/4P3/8/8/8"),
    (32, 7, "8/8/8/8/p3P3/8/8/8"),
    (39, 12, "8/8/8/8/p3P2q/8/8/8"),
    (36, 0, "8/8/8/8/p6q/8/8/8"),
    (32, 0, "8/8/8/8/7q/8/8/8"),
    (39, 0, "8/8/8/8/8/8/8/8"),
    (0, 13, "*7/8/8/8/8/8/8/8"),
    (63, 5, "*7/8/8/8/8/8/8/7K"),
];

static FULL_RANKS_CHANGE: [(u8, u8, &str); 5] = [
    (52, 0, "rnbqkbnr/pppppppp/8/8/8/8/PPPP1PPP/RNBQKBNR"),
    (12, 0, "rnbqkbnr/pppp1ppp/8/8/8/8/PPPP1PPP/RNBQKBNR"),
    (52, 1, "rnbqkbnr/pppp1ppp/8/8/8/8/PPPPPPPP/RNBQKBNR"),
    (55, 0, "rnbqkbnr/pppp1ppp/8/8/8/8/PPPPPPP1/RNBQKBNR"),
    (12, 7, "rnbqkbnr/pppppppp/8/8/8/8/PPPPPPP1/RNBQKBNR"),
];

#[test]
fn placement_follows_its_squares(rt: HostRuntime) {
    let mut placement = PlacementText::new();
    assert!(rt; has_text(&placement, "8/8/8/8/8/8/8/8"));
    expect_none(
        &rt,
        first_unlike_change(&mut placement, &RANK_FILLS_AND_EMPTIES),
    );
    placement.show(&Position::initial().picture());
    expect_none(&rt, first_unlike_change(&mut placement, &FULL_RANKS_CHANGE));
}
