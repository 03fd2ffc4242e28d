//! How many plies of a game stay, by a text.
ghost use Rattle.std.specs.Prelude.{◌≡◌, ◌≤◌, ◌↔◌, ◌++◌, ℕ, [], codes, decimal, IfNone, IfSome, IsTrue, length};
ghost use Rattle.arrayvec.specs.ArrayVec.{array_vec_len};
ghost use Rattle.chess_rules.specs.Legal.{Legal};
ghost use Rattle.pgn_book.specs.Movetext.{number_token};
ghost use Rattle.settle_core.specs.Folding.{moves_of};
ghost use Rattle.settle_core.specs.Settling.{Line};
ghost use Rattle.going_back.specs.Naming.{IsNameOf, NamesPly, Names, is_marked, unmarked};
ghost use Rattle.going_back.specs.Telling.{IsWrittenSo};

use chess_rules::{Move, Position, Side};
use chess_text::write_san;
use itoa::Buffer;
use settle_core::Ply;
use watched_streams::{Lines, add, add_number};

/// Whether the mark of a check ends the text.
fn is_marked(text: &[u8]) -> bool
    ensures { result ≡ is_marked text.now }
{
    if text.is_empty() {
        return false;
    }
    let last = text[text.len() - 1];
    last == b'+' || last == b'#'
}

/// The text without the mark of a check at its end.
fn unmarked(text: &[u8]) -> &[u8]
    ensures { result.now ≡ unmarked text.now }
{
    if is_marked(text) {
        &text[..text.len() - 1]
    } else {
        text
    }
}

fn are_same(text: &[u8], other: &[u8]) -> bool
    ensures { IsTrue result ↔ (text.now ≡ other.now) }
{
    *text == *other
}

/// Replaces what `name` holds by the number of a ply.
fn write_number(name: &mut Lines, position: &Position)
    ensures text { name.new.items ≡ number_token position.now.side position.now.fullmove }
    ensures len { array_vec_len name.new ≤ 16 }
{
    let parts = position.parts();
    name.clear();
    add_number(name, u32::from(parts.fullmove));
    match parts.side {
        Side::White => add(name, b"."),
        Side::Black => add(name, b"..."),
    }
}

/// Replaces what `name` holds by the number and the SAN of a move in this position.
pub fn write_name(name: &mut Lines, position: &Position, mv: Move)
    requires { Legal position.now mv }
    ensures { IsWrittenSo position.now mv name.new.items }
{
    write_number(name, position);
    add(name, b" ");
    add(name, write_san(position, mv).as_str().as_bytes());
}

/// Whether the text names the ply that is made in this position: its number; or its number, a blank and its SAN, of
/// which the mark of a check may be left out, or be wrong.
fn is_name_of(name: &mut Lines, position: &Position, mv: Move, text: &[u8]) -> bool
    requires { Legal position.now mv }
    ensures { IsTrue result ↔ IsNameOf position.now mv text.now }
{
    write_number(name, position);
    if are_same(text, name.as_slice()) {
        return true;
    }
    add(name, b" ");
    add(name, write_san(position, mv).as_str().as_bytes());
    are_same(unmarked(text), unmarked(name.as_slice()))
}

/// The number of the first ply that the text names, which is 1 for the first.
fn ply_named(start: &Position, plies: &[Ply], text: &[u8]) -> Option<usize>
    requires { Line start.now (moves_of plies.now) }
    ensures some { IfSome result (λ k. (k ≤ length plies.now) × NamesPly start.now plies.now text.now k) }
    ensures none { IfNone result ((k : ℕ) → NamesPly start.now plies.now text.now k → ⊥) }
{
    let mut position = *start;
    let mut name = Lines::new();
    let mut number = 0;
    for ply in plies {
        number += 1;
        if is_name_of(&mut name, &position, ply.mv, text) {
            return Some(number);
        }
        position = position.play(ply.mv);
    }
    None
}

/// The number that the text says, at most this.
fn count_named(most: usize, text: &[u8]) -> Option<usize>
    ensures some { IfSome result (λ k. (k ≤ most) × (text.now ≡ decimal k)) }
    ensures none { IfNone result ((k : ℕ) → k ≤ most → text.now ≡ decimal k → ⊥) }
{
    let mut buffer = Buffer::new();
    let mut count = 0;
    'counts: loop {
        if are_same(text, buffer.format(count).as_bytes()) {
            return Some(count);
        }
        if count == most {
            return None;
        }
        count += 1;
    }
}

/// How many plies stay, by a text: all but the last with an empty one, all with `*`; as many as it says; or those up to a
/// ply that it names. None where there is no such ply.
pub fn plies_named(start: &Position, plies: &[Ply], text: &[u8]) -> Option<usize>
    requires { Line start.now (moves_of plies.now) }
    ensures some { IfSome result (λ k. (k ≤ length plies.now) × Names start.now plies.now text.now k) }
    ensures none { IfNone result ((k : ℕ) → Names start.now plies.now text.now k → ⊥) }
{
    if text.is_empty() && !plies.is_empty() {
        return Some(plies.len() - 1);
    }
    if are_same(text, b"*") {
        return Some(plies.len());
    }
    let counted = count_named(plies.len(), text);
    if counted.is_some() {
        return counted;
    }
    ply_named(start, plies, text)
}
