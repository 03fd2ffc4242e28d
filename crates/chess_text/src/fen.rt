//! FEN: the text of a position.
ghost use Rattle.std.specs.Prelude.{◌≡◌, ◌++◌, ◌+◌, ◌≤◌, ◌<◌, ◌↔◌, length, decimal, Ok, Err, IfOk, IfErr};
ghost use Rattle.arrayvec.specs.ArrayString.{array_string_len};
ghost use Rattle.chess_rules.specs.declared.parts.Parts.{Parts as PartsOf};
ghost use Rattle.chess_rules.specs.Valid.{Valid};
ghost use Rattle.chess_text.specs.Fen.{fen, TellsPosition, RefusedFirst, ReadsAs};
ghost use Rattle.chess_text.specs.Inside.FieldReading.{refusal_of as refusal_of_lem};

use crate::field_text::{castling_str, side_str, target_str};
use crate::fields::{counter_of, fields_of};
use crate::placement::{read_placement, write_placement};
use arrayvec::ArrayString;
use chess_rules::{Invalid, Parts, Position};
use itoa::Buffer;
use thiserror::Error;

/// Why a text is refused, in the order of the tests: the first that fails is returned.
#[derive(Clone, Copy, PartialEq, Eq, Debug, Error)]
pub enum FenError {
    /// Neither six non-empty fields divided by single spaces nor four; a side other than `w` and `b`; rights other than
    /// `-` and letters of `KQkq` in this order; a target other than `-` and a square of rank 3 or 6; a counter with a
    /// byte that is no digit.
    #[error("form")]
    Form,
    /// A counter with a leading zero, a halfmove clock past 9999, or a fullmove number that is 0 or past 9999.
    #[error("counters")]
    Counters,
    /// The first field is not the placement of a board.
    #[error("placement")]
    Placement,
    /// A side has no king, or more than one.
    #[error("kings")]
    Kings,
    /// A pawn stands on rank 1 or 8.
    #[error("pawns")]
    Pawns,
    /// A castling right whose king or rook is not at home.
    #[error("rights")]
    Rights,
    /// A target that no double step has just passed over.
    #[error("en passant")]
    EnPassant,
    /// The side that is not to move is in check.
    #[error("check")]
    Check,
}

fn push_number(out: &mut ArrayString<128>, n: u16)
    requires fits { n < 10000 }
    requires room { array_string_len out.old + 4 ≤ 128 }
    ensures text { out.new.bytes ≡ out.old.bytes ++ decimal n }
    ensures short { array_string_len out.new ≤ array_string_len out.old + 4 }
{
    let mut buffer = Buffer::new();
    out.push_str(buffer.format(n));
}

/// The FEN of a position: placement, side to move, castling rights, en passant target, halfmove clock and fullmove
/// number, with one space between (PGN standard, section 16.1). The target is written after every double step, whether
/// or not a capture is possible. At most 91 bytes.
pub fn write_fen(p: &Position) -> ArrayString<128>
    ensures { result.bytes ≡ fen p.now }
{
    let parts = p.parts();
    let mut out = write_placement(&p.picture());
    out.push_str(" ");
    out.push_str(side_str(parts.side).as_str());
    out.push_str(" ");
    out.push_str(castling_str(parts.rights).as_str());
    out.push_str(" ");
    out.push_str(target_str(parts.target).as_str());
    out.push_str(" ");
    push_number(&mut out, parts.halfmove);
    out.push_str(" ");
    push_number(&mut out, parts.fullmove);
    out
}

/// The parts that a text reads as, or its first refusal among form, counters and placement.
fn read_parts(text: &[u8]) -> Result<Parts, FenError>
    ensures parts { IfOk result (ReadsAs text.now) }
    ensures refusal { IfErr result (RefusedFirst text.now) }
{
    let Some(fields) = fields_of(text) else {
        return Err(FenError::Form);
    };
    let Some(halfmove) = counter_of(fields.halfmove) else {
        return Err(FenError::Counters);
    };
    let Some(fullmove) = counter_of(fields.fullmove) else {
        return Err(FenError::Counters);
    };
    if fullmove == 0 {
        return Err(FenError::Counters);
    }
    let Some(board) = read_placement(fields.placement) else {
        return Err(FenError::Placement);
    };
    Ok(Parts {
        board,
        side: fields.side,
        rights: fields.rights,
        target: fields.target,
        halfmove,
        fullmove,
    })
}

/// The refusal of a text whose parts fail this condition first.
fn refusal_of(invalid: Invalid) -> FenError
    ensures { result ≡ refusal_of_lem invalid }
{
    match invalid {
        Invalid::Counters => FenError::Counters,
        Invalid::Kings => FenError::Kings,
        Invalid::Pawns => FenError::Pawns,
        Invalid::Rights => FenError::Rights,
        Invalid::EnPassant => FenError::EnPassant,
        Invalid::Check => FenError::Check,
    }
}

/// The position whose FEN the text is, or the first four fields of whose FEN the text is, where its counters are 0 and
/// 1. Any other text is refused for the first of `FenError` that applies.
pub fn read_fen(text: &[u8]) -> Result<Position, FenError>
    ensures position { (p : PartsOf) → result ≡ Ok p ↔ (Valid p × TellsPosition text.now p) }
    ensures refusal { IfErr result (RefusedFirst text.now) }
{
    let parts = match read_parts(text) {
        Ok(parts) => parts,
        Err(error) => return Err(error),
    };
    match Position::new(parts) {
        Ok(position) => Ok(position),
        Err(invalid) => Err(refusal_of(invalid)),
    }
}
