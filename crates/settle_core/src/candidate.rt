//! How a move is read off two pictures.
ghost use Rattle.std.specs.Prelude.{◌≡◌, ◌≢◌, ◌<◌, ◌≤◌, ℕ, List, IfSome, IfNone, Some, None, true, false, slice_index};
ghost use Rattle.std.specs.Int.RustNames.{count_ones};
ghost use Rattle.chess_rules.specs.declared.chess_move.Move.{Move as MoveOf};
ghost use Rattle.chess_rules.specs.declared.parts.Parts.{Parts as PartsOf};
ghost use Rattle.chess_rules.specs.Valid.{Valid};
ghost use Rattle.chess_rules.specs.Picture.{picture};
ghost use Rattle.settle_core.specs.Settling.{Settles};
ghost use Rattle.settle_core.specs.Masks.{IsDiff, IsNoMove, IsOwned, IsShown};
ghost use Rattle.settle_core.specs.Candidate.{is_king_code, lands as lands_test};
ghost use Rattle.settle_core.specs.Inside.Reading.{leaves as leaves_test, officer_of, promotion_between};

use crate::codes::{BLACK_KING, BLACK_PAWN, EMPTY, WHITE_KING, WHITE_PAWN, is_owned, side_of};
use crate::masks::{first_square, landed, shown_in, with, without};
use chess_rules::{Kind, Move, Side, Square};

/// The one move that the squares on which two pictures differ can show: where a position has the first picture and a
/// move of it settles the second, it is that move. None where they differ on fewer squares than two, or on more than
/// four.
pub fn candidate(before: &[u8; 64], after: &[u8; 64], mask: u64) -> Option<Move>
    requires { IsDiff mask before.now after.now }
    ensures finds { (p : PartsOf) (m : MoveOf) → Valid p → before.now ≡ picture p → Settles p after.now m → result ≡ Some m }
    ensures none { IsNoMove mask → result ≡ None }
{
    candidate_among(before, after, mask, shown_in(after))
}

/// The same, where it is known which squares show pieces.
pub fn candidate_among(before: &[u8; 64], after: &[u8; 64], mask: u64, shown: u64) -> Option<Move>
    requires differ { IsDiff mask before.now after.now }
    requires shown { IsShown shown after.now }
    ensures finds { (p : PartsOf) (m : MoveOf) → Valid p → before.now ≡ picture p → Settles p after.now m → result ≡ Some m }
    ensures none { IsNoMove mask → result ≡ None }
{
    let bits = mask.count_ones();
    if bits < 2 || bits > 4 {
        return None;
    }
    let to = match king_landing(before, after, mask, shown) {
        Some(to) => to,
        None => landing_without_castling(before, after, mask, shown)?,
    };
    let from = leaving(after[to as usize], before, after, mask)?;
    Some(Move {
        from: Square::new(from)?,
        to: Square::new(to)?,
        promotion: promotion(before[from as usize], after[to as usize]),
    })
}

/// A square on which a piece landed.
pub fn landing(before: &[u8; 64], after: &[u8; 64], mask: u64, shown: u64) -> Option<u8>
    requires differ { IsDiff mask before.now after.now }
    requires shown { IsShown shown after.now }
    ensures range { IfSome result (λ s. s < 64) }
    ensures some { IfSome result (λ s. lands_test false (slice_index before.now s) (slice_index after.now s) ≡ true) }
    ensures none { IfNone result ((s : ℕ) → s < 64 → lands_test false (slice_index before.now s) (slice_index after.now s) ≡ false) }
{
    let squares = landed(mask, shown);
    if squares > 0 {
        Some(first_square(squares))
    } else {
        None
    }
}

/// A square on which a king landed.
pub fn king_landing(before: &[u8; 64], after: &[u8; 64], mask: u64, shown: u64) -> Option<u8>
    requires differ { IsDiff mask before.now after.now }
    requires shown { IsShown shown after.now }
    ensures range { IfSome result (λ s. s < 64) }
    ensures some { IfSome result (λ s. lands_test true (slice_index before.now s) (slice_index after.now s) ≡ true) }
    ensures none { IfNone result ((s : ℕ) → s < 64 → lands_test true (slice_index before.now s) (slice_index after.now s) ≡ false) }
{
    let mut rest = landed(mask, shown);
    while rest > 0 {
        let square = first_square(rest);
        if lands(true, before[square as usize], after[square as usize]) {
            return Some(square);
        }
        rest = without(rest, square);
    }
    None
}

/// A square on which a piece landed, where no more than three squares differ: only castling changes four.
fn landing_without_castling(
    before: &[u8; 64],
    after: &[u8; 64],
    mask: u64,
    shown: u64,
) -> Option<u8>
    requires differ { IsDiff mask before.now after.now }
    requires shown { IsShown shown after.now }
    ensures range { IfSome result (λ s. s < 64) }
    ensures some { IfSome result (λ s. lands_test false (slice_index before.now s) (slice_index after.now s) ≡ true) }
    ensures none { IfNone result (count_ones mask ≤ 3 → (s : ℕ) → s < 64
        → lands_test false (slice_index before.now s) (slice_index after.now s) ≡ false) }
{
    let bits = mask.count_ones();
    if bits > 3 {
        return None;
    }
    landing(before, after, mask, shown)
}

/// A square that the piece of this code left, among those that differ.
fn leaving(code: u8, before: &[u8; 64], after: &[u8; 64], mask: u64) -> Option<u8>
    requires some_piece { code ≢ 0 }
    requires differ { IsDiff mask before.now after.now }
    ensures range { IfSome result (λ s. s < 64) }
    ensures some { IfSome result (λ s. leaves_test code (slice_index before.now s) (slice_index after.now s) ≡ true) }
    ensures none { IfNone result ((s : ℕ) → s < 64 → leaves_test code (slice_index before.now s) (slice_index after.now s) ≡ false) }
{
    let mut rest = mask;
    while rest > 0 {
        let square = first_square(rest);
        if leaves(code, before[square as usize], after[square as usize]) {
            return Some(square);
        }
        rest = without(rest, square);
    }
    None
}

/// The squares on which the picture shows pieces of this side.
pub fn owned_in(side: Side, picture: &[u8; 64]) -> u64
    ensures { IsOwned result side picture.now }
{
    let mut owned = 0;
    for square in 0..64u8 {
        if is_owned(side, picture[square as usize]) {
            owned = with(owned, square);
        }
    }
    owned
}

fn lands(kings: bool, before: u8, after: u8) -> bool
    ensures { result ≡ lands_test kings before after }
{
    before != after && after != EMPTY && (!kings || is_king(after))
}

fn leaves(code: u8, before: u8, after: u8) -> bool
    ensures { result ≡ leaves_test code before after }
{
    after == EMPTY
        && if is_king(code) {
            before == code
        } else {
            side_of(before) == side_of(code)
        }
}

fn is_king(code: u8) -> bool
    ensures { result ≡ is_king_code code }
{
    code == WHITE_KING || code == BLACK_KING
}

fn promotion(before: u8, after: u8) -> Option<Kind>
    ensures { result ≡ promotion_between before after }
{
    if before == WHITE_PAWN || before == BLACK_PAWN {
        officer(after)
    } else {
        None
    }
}

fn officer(code: u8) -> Option<Kind>
    ensures { result ≡ officer_of code }
{
    match code {
        2 | 8 => Some(Kind::Rook),
        3 | 9 => Some(Kind::Knight),
        4 | 10 => Some(Kind::Bishop),
        6 | 12 => Some(Kind::Queen),
        _ => None,
    }
}
