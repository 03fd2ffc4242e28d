//! Positions to start from.

use crate::starts::{NO_RIGHTS, WHITE_KING_SIDE, position};
use chess_rules::{Kind, Position, Side};

/// White can castle on the king's side.
pub fn before_castling() -> Option<Position> {
    let pieces = [
        (4, Side::Black, Kind::King),
        (8, Side::Black, Kind::Pawn),
        (60, Side::White, Kind::King),
        (63, Side::White, Kind::Rook),
    ];
    position(&pieces, Side::White, WHITE_KING_SIDE, None)
}

/// A black knight on f6 attacks white pawns on e4 and d5, of which the one on e4 guards the other.
pub fn before_capture() -> Option<Position> {
    let pieces = [
        (4, Side::Black, Kind::King),
        (21, Side::Black, Kind::Knight),
        (27, Side::White, Kind::Pawn),
        (36, Side::White, Kind::Pawn),
        (60, Side::White, Kind::King),
    ];
    position(&pieces, Side::Black, NO_RIGHTS, None)
}

/// A white pawn stands before e8, which a black rook guards.
pub fn before_promotion() -> Option<Position> {
    let pieces = [
        (0, Side::Black, Kind::Rook),
        (12, Side::White, Kind::Pawn),
        (15, Side::Black, Kind::King),
        (62, Side::White, Kind::King),
    ];
    position(&pieces, Side::White, NO_RIGHTS, None)
}
