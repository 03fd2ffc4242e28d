//! The position that a game starts from.
ghost use Rattle.std.specs.Prelude.{◌≡◌, ◌↔◌, IfErr, IfSome, Ok};
ghost use Rattle.chess_rules.specs.declared.parts.Parts.{Parts as PartsOf};
ghost use Rattle.chess_text.specs.Fen.{RefusedFirst};
ghost use Rattle.chess_text.specs.Start.{StartsAt, given};

use crate::fen::{FenError, read_fen};
use chess_rules::Position;

/// The position of a FEN, or the initial position where none is given. A FEN is refused as by `read_fen`.
pub fn start_of(fen: Option<&str>) -> Result<Position, FenError>
    ensures start { (start : PartsOf) → result ≡ Ok start ↔ StartsAt (given fen.entry) start }
    ensures refusal { IfErr result (λ error. IfSome (given fen.entry) (λ text. RefusedFirst text error)) }
{
    match fen {
        Some(text) => read_fen(text.as_bytes()),
        None => Ok(Position::initial()),
    }
}
