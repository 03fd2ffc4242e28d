//! The sign of a result.
ghost use Rattle.std.specs.Prelude.{◌≡◌, ◌<◌, ◌↔◌, ℕ, IsTrue, IfSome, IfNone, Some, None};
ghost use Rattle.chess_rules.specs.declared.pieces.Kind.TheVariants.{King};
ghost use Rattle.chess_rules.specs.Board.{on};
ghost use Rattle.chess_rules.specs.Picture.{code, code_of_piece};
ghost use Rattle.settle_core.specs.declared.plies.Outcome.{Outcome as OutcomeOf};
ghost use Rattle.settle_core.specs.Inside.Kept.{IsCompared};
ghost use Rattle.settle_core.specs.Sign.{IsSign, InCentre, IsLight, HasKingOn, IsElseAs, Means};
ghost use Rattle.settle_core.specs.Inside.Signs.{IsAs};

use crate::codes::{BLACK_KING, EMPTY, WHITE_KING};
use crate::compared::Compared;
use crate::plies::Outcome;
use chess_rules::Side;

fn king_code(side: Side) -> u8
    ensures { result ≡ code_of_piece side King }
{
    match side {
        Side::White => WHITE_KING,
        Side::Black => BLACK_KING,
    }
}

fn in_centre(square: u8) -> bool
    ensures { IsTrue result ↔ InCentre square }
{
    square == 27 || square == 28 || square == 35 || square == 36
}

fn is_light(square: u8) -> bool
    ensures { IsTrue result ↔ IsLight square }
{
    square == 27 || square == 36
}

/// The square of the centre on which alone this side's king is shown.
fn king_on(picture: &[u8; 64], side: Side) -> Option<u8>
    ensures some { IfSome result (HasKingOn picture.now side) }
    ensures none { IfNone result ((s : ℕ) → ¬ HasKingOn picture.now side s) }
{
    let code = king_code(side);
    let d5 = picture[27] == code;
    let e5 = picture[28] == code;
    let d4 = picture[35] == code;
    let e4 = picture[36] == code;
    match (d5, e5, d4, e4) {
        (true, false, false, false) => Some(27),
        (false, true, false, false) => Some(28),
        (false, false, true, false) => Some(35),
        (false, false, false, true) => Some(36),
        _ => None,
    }
}

/// Whether a square outside the centre shows what it should over the position, whose code there is `stands`.
fn is_as(stands: u8, shown: u8) -> bool
    ensures { IsTrue result ↔ IsAs stands shown }
{
    if stands == WHITE_KING || stands == BLACK_KING {
        shown == EMPTY
    } else {
        shown == stands
    }
}

/// Whether the picture is outside the centre as a sign over the position is.
fn is_else_as(compared: &Compared, picture: &[u8; 64]) -> bool
    requires { IsCompared compared.now picture.now }
    ensures { IsTrue result ↔ IsElseAs compared.now.position picture.now }
{
    // For its clause: the position is valid.
    compared.position.parts();
    for square in 0..64u8 {
        if !in_centre(square)
            && !is_as(compared.picture[square as usize], picture[square as usize])
        {
            return false;
        }
    }
    true
}

fn outcome_of(white: u8, black: u8) -> Outcome
    requires white { InCentre white }
    requires black { InCentre black }
    ensures means { Means white black result }
    ensures only { (outcome : OutcomeOf) → Means white black outcome → outcome ≡ result }
{
    match (is_light(white), is_light(black)) {
        (true, true) => Outcome::WhiteWins,
        (false, false) => Outcome::BlackWins,
        _ => Outcome::Drawn,
    }
}

/// The result whose sign the picture is over the position, if any.
pub fn sign_of(compared: &Compared, picture: &[u8; 64]) -> Option<Outcome>
    requires { IsCompared compared.now picture.now }
    ensures some { IfSome result (IsSign compared.now.position picture.now) }
    ensures none { IfNone result ((outcome : OutcomeOf) → ¬ IsSign compared.now.position picture.now outcome) }
{
    let white = king_on(picture, Side::White)?;
    let black = king_on(picture, Side::Black)?;
    if is_else_as(compared, picture) {
        Some(outcome_of(white, black))
    } else {
        None
    }
}
