//! The text of the fields between the placement and the counters.
ghost use Rattle.std.specs.Prelude.{◌≡◌};
ghost use Rattle.chess_text.specs.Fen.{rights_text, target_text, side_text};

use crate::squares::{file_byte, rank_byte};
use arrayvec::ArrayString;
use chess_rules::{Rights, Side, Square};

/// `KQkq` or a part of it, or `-`.
pub fn castling_str(rights: Rights) -> ArrayString<4>
    ensures { result.bytes ≡ rights_text rights }
{
    let mut out = ArrayString::new();
    if rights.white_king {
        out.push('K');
    }
    if rights.white_queen {
        out.push('Q');
    }
    if rights.black_king {
        out.push('k');
    }
    if rights.black_queen {
        out.push('q');
    }
    if out.is_empty() {
        out.push('-');
    }
    out
}

/// The square, or `-`.
pub fn target_str(target: Option<Square>) -> ArrayString<2>
    ensures { result.bytes ≡ target_text target }
{
    let mut out = ArrayString::new();
    match target {
        None => out.push('-'),
        Some(square) => {
            out.push(file_byte(square) as char);
            out.push(rank_byte(square) as char);
        }
    }
    out
}

/// `w` or `b`.
pub fn side_str(side: Side) -> ArrayString<1>
    ensures { result.bytes ≡ side_text side }
{
    let mut out = ArrayString::new();
    out.push(match side {
        Side::White => 'w',
        Side::Black => 'b',
    });
    out
}
