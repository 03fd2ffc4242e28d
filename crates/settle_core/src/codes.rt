//! Piece codes of the DGT Electronic Board Protocol: 1 to 6 are White's pawn, rook, knight, bishop, king and queen, 7
//! to 12 Black's in this order; and whose pieces they are.
ghost use Rattle.std.specs.Prelude.{◌≡◌};
ghost use Rattle.settle_core.specs.Candidate.{is_owned_code, side_number};

use chess_rules::Side;

/// The code of a square without a piece.
pub const EMPTY: u8 = 0;

/// White's pawn.
pub const WHITE_PAWN: u8 = 1;

/// White's king.
pub const WHITE_KING: u8 = 5;

/// Black's pawn, the first of Black's codes.
pub const BLACK_PAWN: u8 = 7;

/// Black's king.
pub const BLACK_KING: u8 = 11;

/// The side whose piece has this code: 1 for White, 2 for Black, and 0 where it is that of no piece.
pub fn side_of(code: u8) -> u8
    ensures { result ≡ side_number code }
{
    if code == EMPTY {
        0
    } else if code < BLACK_PAWN {
        1
    } else {
        2
    }
}

/// Whether the code is that of a piece of this side.
pub fn is_owned(side: Side, code: u8) -> bool
    ensures { result ≡ is_owned_code side code }
{
    match side {
        Side::White => side_of(code) == 1,
        Side::Black => side_of(code) == 2,
    }
}
