//! Reading SAN.
ghost use Rattle.std.specs.Prelude.{◌≡◌, ◌<◌, ◌↔◌, Ok, IfOk, IfSome, IfNone, IsTrue};
ghost use Rattle.chess_rules.specs.Board.{on, piece_of};
ghost use Rattle.chess_rules.specs.Legal.{Legal};
ghost use Rattle.chess_rules.specs.declared.chess_move.Move.{Move};
ghost use Rattle.chess_text.specs.San.{San};
ghost use Rattle.chess_text.specs.Inside.Aim.{aimed_from, IsAimedAt, AimsAt};

use crate::aim::{Aim, aim_of};
use crate::bytes::same_bytes;
use crate::san::write_san;
use chess_rules::{Move, Position, Square, kind_on};
use thiserror::Error;

/// Why a text is refused.
#[derive(Clone, Copy, PartialEq, Eq, Debug, Error)]
pub enum SanError {
    /// The text is that of no legal move.
    #[error("no such move")]
    NoSuchMove,
}

/// The most bytes that the text of a move has, as in `Qa1xb2+`.
const MOST_BYTES: usize = 7;

/// Whether the text is the SAN of this legal move.
fn is_text_of(p: &Position, m: Move, text: &[u8]) -> bool
    requires { Legal p.now m }
    ensures { IsTrue result ↔ San p.now m text.now }
{
    let written = write_san(p, m);
    same_bytes(written.as_str().as_bytes(), text)
}

/// The aim's move from this square, if it is legal and has this text.
fn named_from(p: &Position, aim: &Aim, square: u8, text: &[u8]) -> Option<Move>
    requires { square < 64 }
    ensures legal { IfSome result (Legal p.now) }
    ensures named { IfSome result (λ m. San p.now m text.now) }
    ensures none { IfNone result (on p.now.board square ≡ piece_of p.now.side aim.now.kind → Legal p.now (aimed_from aim.now square)
        → ¬ San p.now (aimed_from aim.now square) text.now) }
{
    let parts = p.parts();
    let kind = kind_on(&parts.board, parts.side, square)?;
    if !kind.is(aim.kind) {
        return None;
    }
    let m = Move {
        from: Square::new(square)?,
        to: aim.to,
        promotion: aim.promotion,
    };
    if p.is_legal(m) && is_text_of(p, m, text) {
        Some(m)
    } else {
        None
    }
}

/// The legal move whose SAN the text is, to the byte: `0-0`, a missing `+` and a needless file are refused.
pub fn read_san(p: &Position, text: &[u8]) -> Result<Move, SanError>
    ensures named { (m : Move) → result ≡ Ok m ↔ (Legal p.now m × San p.now m text.now) }
    ensures legal { IfOk result (Legal p.now) }
{
    let side = p.parts().side;
    if text.len() > MOST_BYTES {
        return Err(SanError::NoSuchMove);
    }
    let Some(aim) = aim_of(side, text) else {
        return Err(SanError::NoSuchMove);
    };
    for square in 0..64u8 {
        if let Some(m) = named_from(p, &aim, square, text) {
            return Ok(m);
        }
    }
    Err(SanError::NoSuchMove)
}
