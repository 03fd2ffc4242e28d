//! What speaks for a pair on the board, and what against it.
ghost use Rattle.std.specs.Prelude.{◌≡◌, ◌≢◌, ◌<◌, ◌==◌, ◌↔◌, IsTrue, count_by, slice_index};
ghost use Rattle.chess_rules.specs.Picture.{picture};
ghost use Rattle.unseen_pairs.specs.Inside.Waiting.{IsBackOn};
ghost use Rattle.unseen_pairs.specs.Pairs.{IsMissedIn, ShowsNew, times_shown};

use chess_rules::Position;
use settle_core::masks::{diff_mask, first_square, meets, shown_in, without};

/// How many squares show this code.
fn count(picture: &[u8; 64], code: u8) -> usize
    ensures { result ≡ times_shown code picture.now }
{
    picture.iter().filter(|shown| **shown == code).count()
}

/// Whether the second picture has fewer pieces of this code than either other: apart, since few pictures come so far.
#[inline(never)]
fn shows_taken(before: &[u8; 64], left: &[u8; 64], seen: &[u8; 64], code: u8) -> bool
    ensures { IsTrue result ↔ (times_shown code left.now < times_shown code before.now)
        × (times_shown code left.now < times_shown code seen.now) }
{
    let remain = count(left, code);
    remain < count(before, code) && remain < count(seen, code)
}

/// Whether the second picture has a piece on the square where the first has none, or another.
fn is_put_on(before: &[u8; 64], shown: &[u8; 64], square: usize) -> bool
    requires { square < 64 }
    ensures { IsTrue result ↔ (slice_index shown.now square ≢ 0) × (slice_index shown.now square ≢ slice_index before.now square) }
{
    shown[square] != 0 && shown[square] != before[square]
}

/// Whether the last picture shows a piece on the square that the second lacks there, and this has fewer such pieces
/// than the first.
fn is_back_on(before: &[u8; 64], left: &[u8; 64], seen: &[u8; 64], square: usize) -> bool
    requires { square < 64 }
    ensures { IsTrue result ↔ IsBackOn before.now left.now seen.now square }
{
    is_put_on(left, seen, square) && shows_taken(before, left, seen, seen[square])
}

/// Whether the last picture shows a piece again that was taken between the first two.
pub fn is_back(before: &[u8; 64], left: &[u8; 64], seen: &[u8; 64]) -> bool
    ensures { IsTrue result ↔ IsMissedIn before.now left.now seen.now }
{
    let mut rest = diff_mask(left, seen);
    'squares: while rest > 0 {
        let square = first_square(rest);
        if is_back_on(before, left, seen, square as usize) {
            return true;
        }
        rest = without(rest, square);
    }
    false
}

/// Whether the picture shows a piece on a square where the position has none, or another.
pub fn shows_new(now: &Position, seen: &[u8; 64]) -> bool
    ensures { IsTrue result ↔ ShowsNew now.now seen.now }
{
    meets(diff_mask(&now.picture(), seen), shown_in(seen))
}
