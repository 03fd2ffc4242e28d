//! The ply of a game that is nearest to a text that names none.
ghost use Rattle.std.specs.Prelude.{◌≡◌, ◌⊎◌, ◌≤◌, ◌+◌, ◌-◌, ◌*◌, min, ℕ, List, [], IfNone, IfSome, true, if◌then◌else◌, length};
ghost use Rattle.settle_core.specs.Folding.{moves_of};
ghost use Rattle.settle_core.specs.Settling.{Line};
ghost use Rattle.going_back.specs.Nearest.{IsNearest, far_from, half_asked, half_of, is_digit, is_dotted};

use chess_rules::{Position, Side};
use settle_core::Ply;

fn is_digit(byte: u8) -> bool
    ensures { result ≡ is_digit byte }
{
    byte >= b'0' && byte <= b'9'
}

/// The half-moves up to White's or Black's ply with this number.
fn half_of(side: Side, number: u32) -> u32
    requires { number ≤ 100000 }
    ensures { result ≡ half_of side number }
{
    match side {
        Side::White => 2 * number,
        Side::Black => 2 * number + 1,
    }
}

/// Whether two full stops begin the text.
fn is_dotted(text: &[u8]) -> bool
    ensures { result ≡ is_dotted text.now }
{
    let two = &text[..text.len().min(2)];
    two == b"..".as_slice()
}

/// The half-moves up to White's ply with this number, or Black's where two full stops follow.
fn half_before(number: u32, rest: &[u8]) -> u32
    requires { number ≤ 10000 }
    ensures { result ≡ (if is_dotted rest.now then 2 * number + 1 else 2 * number) }
{
    if is_dotted(rest) {
        2 * number + 1
    } else {
        2 * number
    }
}

/// The number with one more digit; above 10,000 it stays at that.
fn with_digit(number: u32, digit: u8) -> u32
    requires number { number ≤ 10000 }
    requires digit { is_digit digit ≡ true }
    ensures value { result ≡ min (10 * number + (digit - 48)) 10000 }
    ensures within { result ≤ 10000 }
{
    (10 * number + u32::from(digit - b'0')).min(10_000)
}

/// The half-moves up to the ply that a text asks for.
fn asked_half(text: &[u8]) -> u32
    ensures { result ≡ half_asked 0 text.now }
{
    let mut number: u32 = 0;
    let mut at = 0;
    for byte in text {
        if !is_digit(*byte) {
            return half_before(number, &text[at..]);
        }
        number = with_digit(number, *byte);
        at += 1;
    }
    2 * number
}

/// How many plies are between the one in this position and the one that is asked for.
fn far_from(asked: u32, position: &Position) -> u32
    ensures { (text : List ℕ) → asked ≡ half_asked 0 text → result ≡ far_from text position.now }
{
    let parts = position.parts();
    let half = half_of(parts.side, u32::from(parts.fullmove));
    if asked < half {
        half - asked
    } else {
        asked - half
    }
}

/// A ply of a game by its number, which is 1 for the first, and how far it is from the one that is asked for.
#[derive(Clone, Copy)]
struct Candidate {
    number: usize,
    far: u32,
}

/// The nearer of two candidates: the first, where both are as near.
fn nearer(one: Candidate, other: Candidate) -> Candidate
    ensures { ((result ≡ one) × (one.far ≤ other.far)) ⊎ ((result ≡ other) × (other.far ≤ one.far)) }
{
    if other.far < one.far { other } else { one }
}

/// The number of the ply that is nearest to the one that a text asks for; none where there is no ply.
pub fn nearest_ply(start: &Position, plies: &[Ply], text: &[u8]) -> Option<usize>
    requires { Line start.now (moves_of plies.now) }
    ensures some { IfSome result (λ k. (k ≤ length plies.now) × IsNearest text.now start.now plies.now k) }
    ensures none { IfNone result (plies.now ≡ []) }
{
    if plies.is_empty() {
        return None;
    }
    let asked = asked_half(text);
    let mut nearest = Candidate {
        number: 1,
        far: far_from(asked, start),
    };
    let mut position = *start;
    let mut number = 0;
    for ply in plies {
        number += 1;
        let here = Candidate {
            number,
            far: far_from(asked, &position),
        };
        nearest = nearer(nearest, here);
        position = position.play(ply.mv);
    }
    Some(nearest.number)
}
