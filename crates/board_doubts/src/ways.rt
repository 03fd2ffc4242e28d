//! How pieces go on an empty board.
ghost use Rattle.std.specs.Prelude.{◌≡◌, ◌==◌, ◌&&◌, ◌||◌};
ghost use Rattle.board_doubts.specs.Ways.{can_go as can_go_of, files as files_of, goes as goes_of, goes_aslant as goes_aslant_of, goes_straight as goes_straight_of, is_jump as is_jump_of, is_line as is_line_of, is_step as is_step_of, kind_of, ranks as ranks_of};

use crate::logic::{both, either};

const ROOK: u8 = 2;

const KNIGHT: u8 = 3;

const BISHOP: u8 = 4;

const KING: u8 = 5;

const QUEEN: u8 = 6;

fn ranks(from: u8, to: u8) -> u8
    ensures { result ≡ ranks_of from to }
{
    (from / 8).abs_diff(to / 8)
}

fn files(from: u8, to: u8) -> u8
    ensures { result ≡ files_of from to }
{
    (from % 8).abs_diff(to % 8)
}

/// The code of White's piece of the same kind.
fn kind(code: u8) -> u8
    ensures { result ≡ kind_of code }
{
    if 7 <= code { code - 6 } else { code }
}

fn goes_straight(kind: u8) -> bool
    ensures { result ≡ goes_straight_of kind }
{
    either(kind == ROOK, kind == QUEEN)
}

fn goes_aslant(kind: u8) -> bool
    ensures { result ≡ goes_aslant_of kind }
{
    either(kind == BISHOP, kind == QUEEN)
}

/// Whether a line of ranks and files leads so far, or an oblique one.
fn is_line(ranks: u8, files: u8) -> bool
    ensures { result ≡ is_line_of ranks files }
{
    let straight = either(ranks == 0, files == 0);
    either(straight, ranks == files)
}

/// Whether a line leads from one square to the other.
pub fn are_on_line(from: u8, to: u8) -> bool
    ensures { result ≡ is_line_of (ranks_of from to) (files_of from to) }
{
    is_line(ranks(from, to), files(from, to))
}

fn is_jump(ranks: u8, files: u8) -> bool
    ensures { result ≡ is_jump_of ranks files }
{
    either(both(ranks == 1, files == 2), both(ranks == 2, files == 1))
}

fn is_step(ranks: u8, files: u8) -> bool
    ensures { result ≡ is_step_of ranks files }
{
    both(ranks <= 1, files <= 1)
}

/// Whether a piece of this kind goes along a line so far.
fn goes_along(kind: u8, ranks: u8, files: u8) -> bool
    ensures { result ≡ ((goes_straight_of kind && ((ranks == 0) || (files == 0))) || (goes_aslant_of kind && (ranks == files))) }
{
    let straight = either(ranks == 0, files == 0);
    either(
        both(goes_straight(kind), straight),
        both(goes_aslant(kind), ranks == files),
    )
}

/// Whether a piece of this kind jumps or steps so far.
fn goes_once(kind: u8, ranks: u8, files: u8) -> bool
    ensures { result ≡ (((kind == 3) && is_jump_of ranks files) || ((kind == 5) && is_step_of ranks files)) }
{
    let jumps = both(kind == KNIGHT, is_jump(ranks, files));
    either(jumps, both(kind == KING, is_step(ranks, files)))
}

/// Whether a piece of this kind goes so far.
fn goes(kind: u8, ranks: u8, files: u8) -> bool
    ensures { result ≡ goes_of kind ranks files }
{
    either(
        goes_along(kind, ranks, files),
        goes_once(kind, ranks, files),
    )
}

/// Whether a piece with this code can go from one square to another. A pawn isn't counted.
pub fn can_go(code: u8, from: u8, to: u8) -> bool
    ensures { result ≡ can_go_of code from to }
{
    goes(kind(code), ranks(from, to), files(from, to))
}
