//! What a picture shows apart from the game's position. Pictures and positions are the codes of the 64 squares, as
//! `Position::picture` of `chess_rules` has them.
ghost use Rattle.std.specs.Prelude.{◌≡◌, ◌<◌, ◌==◌, ◌&&◌, ◌||◌, ◌↔◌, not, ℕ, IsTrue, slice_index};
ghost use Rattle.square_runs.specs.Squares.{Marks, some_square};
ghost use Rattle.board_doubts.specs.Elsewhere.{Sees, comes as comes_of, differs as differs_of, elsewhere, is_astray as is_astray_of, is_gone as is_gone_of, is_lifted as is_lifted_of, is_of as is_of_side, may_have_gone as may_have_gone_of};
ghost use Rattle.board_doubts.specs.Ways.{can_go as can_go_of};

use crate::heard::Seen;
use crate::logic::{both, either};
use crate::squares::differing;
use crate::ways::can_go;
use square_runs::{first_square, with_if, without};

/// What a picture is compared with. Before the first moves these positions are the same.
#[derive(Clone, Copy)]
pub struct Played<'a> {
    /// Black is to move.
    pub black: bool,
    /// The game's position.
    pub position: &'a [u8; 64],
    /// That before the last move.
    pub before: &'a [u8; 64],
    /// That before the move before.
    pub earlier: &'a [u8; 64],
}

/// Whether this is the code of a piece of Black's, or of White's.
fn is_of(black: bool, code: u8) -> bool
    ensures { result ≡ is_of_side black code }
{
    if black {
        7 <= code
    } else {
        1 <= code && code < 7
    }
}

fn differ(one: u8, other: u8) -> bool
    ensures { result ≡ not (other == one) }
{
    other != one
}

/// Whether a piece of this side is shown that the position doesn't have there.
fn is_elsewhere(black: bool, position: u8, shown: u8) -> bool
    ensures { result ≡ (is_of_side black shown && not (shown == position)) }
{
    both(is_of(black, shown), differ(position, shown))
}

/// Whether this piece is missing on a square, from which it could have gone to another one.
fn is_missing(code: u8, position: u8, shown: u8, from: u8, to: u8) -> bool
    ensures { result ≡ (((position == code) && not (shown == position)) && can_go_of code from to) }
{
    let is_away = both(position == code, differ(position, shown));
    if is_away {
        can_go(code, from, to)
    } else {
        false
    }
}

/// Whether a piece of this side that moved here isn't shown where it is in the position.
fn is_off(black: bool, from: u8, to: u8, position: u8, shown: u8) -> bool
    ensures { result ≡ (is_of_side black to && not (to == from) && not (shown == position)) }
{
    both(is_elsewhere(black, from, to), differ(position, shown))
}

/// Whether a piece of this side isn't shown here, and nothing else is.
fn is_in_hand(black: bool, position: u8, shown: u8) -> bool
    ensures { result ≡ (is_of_side black position && (shown == 0)) }
{
    both(is_of(black, position), shown == 0)
}

// The masks of the functions below have the squares on which the picture differs from the position.

/// Whether the piece that the picture has on this square could have gone there.
fn comes(position: &[u8; 64], picture: &[u8; 64], mask: u64, square: u8) -> bool
    requires inside { square < 64 }
    requires marks { Marks mask (differs_of position.now picture.now) }
    ensures { result ≡ comes_of position.now picture.now square }
{
    let code = picture[square as usize];
    let mut left = mask;
    'left: while 0 < left {
        let from = first_square(left);
        let i = from as usize;
        if is_missing(code, position[i], picture[i], from, square) {
            return true;
        }
        left = without(left, from);
    }
    false
}

/// Whether a piece of this side may have gone to this square.
fn may_have_gone(
    black: bool,
    position: &[u8; 64],
    picture: &[u8; 64],
    mask: u64,
    square: u8,
) -> bool
    requires inside { square < 64 }
    requires marks { Marks mask (differs_of position.now picture.now) }
    ensures { result ≡ may_have_gone_of black position.now picture.now square }
{
    let i = square as usize;
    if is_elsewhere(black, position[i], picture[i]) {
        comes(position, picture, mask, square)
    } else {
        false
    }
}

/// Whether one may have gone there, and another position doesn't have it there.
fn is_new_there(
    black: bool,
    position: &[u8; 64],
    other: &[u8; 64],
    picture: &[u8; 64],
    mask: u64,
    square: u8,
) -> bool
    requires inside { square < 64 }
    requires marks { Marks mask (differs_of position.now picture.now) }
    ensures { result ≡ (may_have_gone_of black position.now picture.now square && differs_of other.now picture.now square) }
{
    let i = square as usize;
    let may = may_have_gone(black, position, picture, mask, square);
    both(may, differ(other[i], picture[i]))
}

/// The squares to which pieces of this side may have gone, and on which another position doesn't have them.
fn gone_to(black: bool, position: &[u8; 64], other: &[u8; 64], picture: &[u8; 64], mask: u64) -> u64
    requires { Marks mask (differs_of position.now picture.now) }
    ensures { Marks result (λ s. may_have_gone_of black position.now picture.now s && differs_of other.now picture.now s) }
{
    let mut left = mask;
    let mut squares = 0u64;
    'left: while 0 < left {
        let square = first_square(left);
        let is_here = is_new_there(black, position, other, picture, mask, square);
        squares = with_if(squares, square, is_here);
        left = without(left, square);
    }
    squares
}

/// Whether a piece is shown that the position doesn't have there, of the side to move or of the other one.
fn is_out(black: bool, before: u8, position: u8, shown: u8) -> bool
    ensures { result ≡ (((is_of_side black shown && not (shown == position)) && not (shown == before)) || (is_of_side (not black) shown && not (shown == position))) }
{
    let own = both(is_elsewhere(black, position, shown), differ(before, shown));
    either(own, is_elsewhere(!black, position, shown))
}

/// Whether one is that can't have gone to this square.
fn is_astray(
    black: bool,
    before: &[u8; 64],
    position: &[u8; 64],
    picture: &[u8; 64],
    mask: u64,
    square: u8,
) -> bool
    requires inside { square < 64 }
    requires marks { Marks mask (differs_of position.now picture.now) }
    ensures { result ≡ is_astray_of black before.now position.now picture.now square }
{
    let i = square as usize;
    if is_out(black, before[i], position[i], picture[i]) {
        !comes(position, picture, mask, square)
    } else {
        false
    }
}

/// The squares of such pieces.
fn astray(black: bool, before: &[u8; 64], position: &[u8; 64], picture: &[u8; 64], mask: u64) -> u64
    requires { Marks mask (differs_of position.now picture.now) }
    ensures { Marks result (is_astray_of black before.now position.now picture.now) }
{
    let mut left = mask;
    let mut squares = 0u64;
    'left: while 0 < left {
        let square = first_square(left);
        let is_here = is_astray(black, before, position, picture, mask, square);
        squares = with_if(squares, square, is_here);
        left = without(left, square);
    }
    squares
}

/// Whether a piece of this side that moved from one position to the next isn't where it belongs then.
fn is_gone(
    black: bool,
    from: &[u8; 64],
    to: &[u8; 64],
    position: &[u8; 64],
    picture: &[u8; 64],
    mask: u64,
) -> bool
    requires { Marks mask (differs_of position.now picture.now) }
    ensures { result ≡ is_gone_of black from.now to.now position.now picture.now }
{
    let mut left = mask;
    'left: while 0 < left {
        let square = first_square(left);
        let i = square as usize;
        if is_off(black, from[i], to[i], position[i], picture[i]) {
            return true;
        }
        left = without(left, square);
    }
    false
}

/// Whether a piece of this side isn't there, and nothing stands on its square.
fn is_lifted(black: bool, position: &[u8; 64], picture: &[u8; 64], mask: u64) -> bool
    requires { Marks mask (differs_of position.now picture.now) }
    ensures { result ≡ is_lifted_of black position.now picture.now }
{
    let mut left = mask;
    'left: while 0 < left {
        let square = first_square(left);
        let i = square as usize;
        if is_in_hand(black, position[i], picture[i]) {
            return true;
        }
        left = without(left, square);
    }
    false
}

/// Whether another piece stands here than the position has here.
fn is_other(position: u8, shown: u8) -> bool
    ensures { result ≡ (not (shown == 0) && not (shown == position)) }
{
    both(shown != 0, differ(position, shown))
}

/// Whether one does on some square: else pieces were lifted at most.
fn lands(position: &[u8; 64], picture: &[u8; 64], mask: u64) -> bool
    requires { Marks mask (differs_of position.now picture.now) }
    ensures { result ≡ some_square (λ s. not (slice_index picture.now s == 0) && differs_of position.now picture.now s) }
{
    let mut left = mask;
    'left: while 0 < left {
        let square = first_square(left);
        let i = square as usize;
        if is_other(position[i], picture[i]) {
            return true;
        }
        left = without(left, square);
    }
    false
}

fn is_picture(one: &[u8; 64], other: &[u8; 64]) -> bool
    ensures { IsTrue result ↔ (one.now ≡ other.now) }
{
    *one == *other
}

/// What a picture shows.
pub fn seen(played: &Played, picture: &[u8; 64]) -> Seen
    ensures { Sees result played.now.black played.now.earlier.now played.now.before.now played.now.position.now picture.now }
{
    let black = played.black;
    let position = played.position;
    let mask = differing(position, picture);
    let is_back = is_picture(picture, played.before);
    if mask == 0 {
        return Seen {
            own: 0,
            others: 0,
            astray: 0,
            is_off: false,
            is_back,
            was_drawn: false,
            in_hand: false,
        };
    }
    let is_off = is_gone(!black, played.before, position, position, picture, mask);
    let was_drawn = is_gone(
        black,
        played.earlier,
        played.before,
        position,
        picture,
        mask,
    );
    let in_hand = is_lifted(!black, position, picture, mask);
    if !lands(position, picture, mask) {
        return Seen {
            own: 0,
            others: 0,
            astray: 0,
            is_off,
            is_back,
            was_drawn,
            in_hand,
        };
    }
    Seen {
        own: gone_to(black, position, played.before, picture, mask),
        others: gone_to(!black, position, position, picture, mask),
        astray: astray(black, played.before, position, picture, mask),
        is_off,
        is_back,
        was_drawn,
        in_hand,
    }
}
