//! What a picture settles, slowly: every origin, target and promotion is tried.

use chess_rules::{Kind, Move, Piece, Position, Square};
use settle_core::Outcome;

const CENTRE: [u8; 4] = [27, 28, 35, 36];

/// The one legal move that gives the picture.
pub fn only_move(position: &Position, picture: &[u8; 64]) -> Option<Move> {
    let mut found = None;
    for from in 0..64u8 {
        for to in 0..64u8 {
            for promotion in [
                None,
                Some(Kind::Queen),
                Some(Kind::Rook),
                Some(Kind::Bishop),
                Some(Kind::Knight),
            ] {
                let m = Move {
                    from: Square::new(from)?,
                    to: Square::new(to)?,
                    promotion,
                };
                if gives(position, &m, picture) {
                    if found.is_some() {
                        return None;
                    }
                    found = Some(m);
                }
            }
        }
    }
    found
}

fn gives(position: &Position, m: &Move, picture: &[u8; 64]) -> bool {
    let (legal, played) = (*m, *m);
    position.is_legal(legal) && position.play(played).picture() == *picture
}

/// The one square of the centre that shows this code.
fn only_in_centre(picture: &[u8; 64], code: u8) -> Option<u8> {
    let mut found = None;
    for square in CENTRE {
        if square < 64 && picture[square as usize] == code {
            if found.is_some() {
                return None;
            }
            found = Some(square);
        }
    }
    found
}

fn is_king(piece: Option<Piece>) -> bool {
    match piece {
        Some(piece) => piece.kind == Kind::King,
        None => false,
    }
}

/// The result that the kings in the centre show, all other squares being as in the position without its kings.
pub fn sign(position: &Position, picture: &[u8; 64]) -> Option<Outcome> {
    let white = only_in_centre(picture, 5)?;
    let black = only_in_centre(picture, 11)?;
    let codes = position.picture();
    let parts = position.parts();
    for square in 0..64usize {
        let wanted = if is_king(parts.board[square]) {
            0
        } else {
            codes[square]
        };
        if square != 27
            && square != 28
            && square != 35
            && square != 36
            && picture[square] != wanted
        {
            return None;
        }
    }
    match (white == 27 || white == 36, black == 27 || black == 36) {
        (true, true) => Some(Outcome::WhiteWins),
        (false, false) => Some(Outcome::BlackWins),
        _ => Some(Outcome::Drawn),
    }
}

/// The position after the move, if it is legal.
pub fn after(position: &Position, m: &Move) -> Position {
    let (legal, played) = (*m, *m);
    if position.is_legal(legal) {
        position.play(played)
    } else {
        *position
    }
}
