//! Positions to start from.

use chess_rules::{Kind, Parts, Piece, Position, Rights, Side, Square};

pub const NO_RIGHTS: Rights = Rights {
    white_king: false,
    white_queen: false,
    black_king: false,
    black_queen: false,
};

pub const WHITE_KING_SIDE: Rights = Rights {
    white_king: true,
    white_queen: false,
    black_king: false,
    black_queen: false,
};

/// With these pieces and this side to move, where that is a valid position.
pub fn position(
    pieces: &[(u8, Side, Kind)],
    side: Side,
    rights: Rights,
    target: Option<Square>,
) -> Option<Position> {
    let mut board = [None; 64];
    for (number, side, kind) in pieces {
        let square = Square::new(*number)?;
        board[square.number() as usize] = Some(Piece {
            side: *side,
            kind: *kind,
        });
    }
    Position::new(Parts {
        board,
        side,
        rights,
        target,
        halfmove: 0,
        fullmove: 1,
    })
    .ok()
}

/// White can castle on the king's side.
pub fn before_castling() -> Option<Position> {
    let pieces = [
        (4, Side::Black, Kind::King),
        (60, Side::White, Kind::King),
        (63, Side::White, Kind::Rook),
    ];
    position(&pieces, Side::White, WHITE_KING_SIDE, None)
}

/// A black pawn went to d5 beside a white one.
pub fn before_en_passant() -> Option<Position> {
    let pieces = [
        (4, Side::Black, Kind::King),
        (27, Side::Black, Kind::Pawn),
        (28, Side::White, Kind::Pawn),
        (60, Side::White, Kind::King),
    ];
    position(&pieces, Side::White, NO_RIGHTS, Square::new(19))
}

/// A white pawn stands before its last square.
pub fn before_promotion() -> Option<Position> {
    let pieces = [
        (12, Side::White, Kind::Pawn),
        (15, Side::Black, Kind::King),
        (60, Side::White, Kind::King),
    ];
    position(&pieces, Side::White, NO_RIGHTS, None)
}

/// A white pawn can capture a black one.
pub fn before_capture() -> Option<Position> {
    let pieces = [
        (4, Side::Black, Kind::King),
        (27, Side::Black, Kind::Pawn),
        (36, Side::White, Kind::Pawn),
        (60, Side::White, Kind::King),
    ];
    position(&pieces, Side::White, NO_RIGHTS, None)
}

/// A white rook and a black one stand on one file.
pub fn with_rooks() -> Option<Position> {
    let pieces = [
        (0, Side::Black, Kind::Rook),
        (4, Side::Black, Kind::King),
        (56, Side::White, Kind::Rook),
        (60, Side::White, Kind::King),
    ];
    position(&pieces, Side::White, NO_RIGHTS, None)
}

pub const KING_FIRST: [(u8, u8); 4] = [(60, 0), (62, 5), (63, 0), (61, 2)];
