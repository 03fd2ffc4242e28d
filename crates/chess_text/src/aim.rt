//! What a text says of the move that it may name, before any move is tried.
ghost use Rattle.std.specs.Prelude.{◌≡◌, ◌<◌, ◌≤◌, IfSome, slice_index, nat_lt, length, ℕ, Some, None, ◌==◌};
ghost use Rattle.chess_rules.specs.After.{castling_target};
ghost use Rattle.chess_text.specs.Inside.Aim.{last_in as last_lem, kind_at as kind_lem, target_by, promotion_by, text_aim as text_aim_lem, aim_at, wing_by, castling_aim as castling_aim_lem};

use crate::squares::square_at;
use chess_rules::{Kind, Side, Square, Wing};

/// The kind of piece, the target and the promotion.
#[derive(Clone, Copy)]
pub struct Aim {
    pub kind: Kind,
    pub to: Square,
    pub promotion: Option<Kind>,
}

/// The last byte from `low` to `high`.
fn last_in(text: &[u8], low: u8, high: u8) -> Option<u8>
    ensures last { result ≡ last_lem low high text.now }
    ensures low { IfSome result (λ b. low ≤ b) }
    ensures high { IfSome result (λ b. b ≤ high) }
{
    let mut found = None;
    for byte in text {
        if low <= *byte && *byte <= high {
            found = Some(*byte);
        }
    }
    found
}

fn kind_at(letter: u8) -> Kind
    ensures { result ≡ kind_lem letter }
{
    match letter {
        b'K' => Kind::King,
        b'Q' => Kind::Queen,
        b'R' => Kind::Rook,
        b'B' => Kind::Bishop,
        b'N' => Kind::Knight,
        _ => Kind::Pawn,
    }
}

fn target_in(text: &[u8]) -> Option<Square>
    ensures { result ≡ target_by (last_lem 97 104 text.now) (last_lem 49 56 text.now) }
{
    let file = last_in(text, b'a', b'h')?;
    let rank = last_in(text, b'1', b'8')?;
    Square::new(8 * (b'8' - rank) + (file - b'a'))
}

fn promotion_in(text: &[u8]) -> Option<Kind>
    ensures { result ≡ promotion_by (last_lem 61 61 text.now) (last_lem 66 82 text.now) }
{
    let _equals = last_in(text, b'=', b'=')?;
    let letter = last_in(text, b'B', b'R')?;
    Some(kind_at(letter))
}

fn first_of(text: &[u8]) -> u8
    ensures { result ≡ slice_index text.now 0 }
{
    if text.is_empty() { 0 } else { text[0] }
}

fn castling_target_of(side: Side, wing: Wing) -> Square
    ensures { result ≡ castling_target side wing }
{
    let number = match (side, wing) {
        (Side::White, Wing::KingSide) => 62,
        (Side::White, Wing::QueenSide) => 58,
        (Side::Black, Wing::KingSide) => 6,
        (Side::Black, Wing::QueenSide) => 2,
    };
    square_at(number)
}

fn wing_in(text: &[u8]) -> Wing
    ensures { result ≡ wing_by (nat_lt (length text.now) 5) }
{
    if text.len() < 5 {
        Wing::KingSide
    } else {
        Wing::QueenSide
    }
}

fn castling_aim(side: Side, wing: Wing) -> Aim
    ensures { result ≡ castling_aim_lem side wing }
{
    Aim {
        kind: Kind::King,
        to: castling_target_of(side, wing),
        promotion: None,
    }
}

fn text_aim(text: &[u8]) -> Option<Aim>
    ensures { result ≡ text_aim_lem text.now }
{
    let to = target_in(text)?;
    Some(Aim {
        kind: kind_at(first_of(text)),
        to,
        promotion: promotion_in(text),
    })
}

/// What the text aims at.
pub fn aim_of(side: Side, text: &[u8]) -> Option<Aim>
    ensures { result ≡ aim_at side text.now }
{
    if first_of(text) == b'O' {
        Some(castling_aim(side, wing_in(text)))
    } else {
        text_aim(text)
    }
}
