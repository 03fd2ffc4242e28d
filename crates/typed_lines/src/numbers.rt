//! The move numbers in a typed line.
ghost use Rattle.std.specs.Prelude.{◌≡◌, ◌≤◌, ◌+◌, ◌/◌, None, Some, IfOk, MatchOption, decimal, length, map, not, ◌&&◌, ◌==◌};
ghost use Rattle.std.specs.Str.{bytes_eq};
ghost use Rattle.typed_lines.specs.Numbers.{are_dots_of as are_dots_test, begins_at, digits_of as digits_in, dots_of as dots_in, half_of, has_its_number as its_number_test, line_words as words_of, misnumbered as misnumbered_in};

use crate::results::is_text;
use crate::words::{after_digits, after_dots, is_blank, is_move_word};
use chess_rules::{Position, Side};
use itoa::Buffer;
use std::alloc::{AllocError, Global};

/// What stands between blanks.
pub fn line_words(alloc: Global, text: &[u8]) -> Result<Vec<&[u8]>, AllocError>
    ensures { IfOk result (λ found. map (λ word. word.now) found.items ≡ words_of text.now) }
{
    text.split(|b| is_blank(*b))
        .filter(|word| !word.is_empty())
        .collect(alloc)
}

fn digits_of(word: &[u8]) -> &[u8]
    ensures { result.now ≡ digits_in word.now }
{
    &word[..word.len().saturating_sub(after_digits(word).len())]
}

fn dots_of(word: &[u8]) -> usize
    ensures { result ≡ dots_in word.now }
{
    let rest = after_digits(word);
    rest.len().saturating_sub(after_dots(rest).len())
}

/// The half-moves up to the one to be made.
fn half_of(p: &Position) -> usize
    ensures half { result ≡ half_of p.now.side p.now.fullmove }
    ensures low { result ≤ 200000 }
{
    let parts = p.parts();
    match parts.side {
        Side::White => 2 * parts.fullmove as usize,
        Side::Black => 2 * parts.fullmove as usize + 1,
    }
}

fn are_dots_of(half: usize, dots: usize) -> bool
    ensures { result ≡ are_dots_test half dots }
{
    if half % 2 == 0 { dots == 1 } else { dots > 1 }
}

fn is_number(digits: &[u8], number: usize) -> bool
    ensures { result ≡ bytes_eq digits.now (decimal number) }
{
    let mut buffer = Buffer::new();
    is_text(digits, buffer.format(number).as_bytes())
}

/// Whether the word begins with no move number, or with that of this half-move.
fn has_its_number(half: usize, word: &[u8]) -> bool
    ensures { result ≡ its_number_test half word.now }
{
    let digits = digits_of(word);
    let dots = dots_of(word);
    digits.is_empty() || dots == 0 || (is_number(digits, half / 2) && are_dots_of(half, dots))
}

/// The first word whose number isn't that of the half-move to be made there, and how many moves stand before it.
pub fn misnumbered<'a>(p: &Position, words: &[&'a [u8]]) -> Option<(&'a [u8], usize)>
    ensures { MatchOption result (misnumbered_in p.now 0 (map (λ word. word.now) words.now) ≡ None)
        (λ found. misnumbered_in p.now 0 (map (λ word. word.now) words.now) ≡ Some (found.0.now, found.1)) }
{
    let first = half_of(p);
    let mut made: usize = 0;
    for word in words {
        if !has_its_number(first + made, word) {
            return Some((word, made));
        }
        if is_move_word(word) {
            made += 1;
        }
    }
    None
}

/// Whether the word begins with the number of this half-move, and its dots.
fn is_numbered(half: usize, word: &[u8]) -> bool
    ensures { result ≡ (not (length (digits_in word.now) == 0) && not (dots_in word.now == 0) && its_number_test half word.now) }
{
    !digits_of(word).is_empty() && !(dots_of(word) == 0) && has_its_number(half, word)
}

/// Whether a line begins with the number of the move to be made in this position, and its dots.
///
/// # Errors
///
/// Where there is no memory.
pub fn begins_at(alloc: Global, p: &Position, text: &[u8]) -> Result<bool, AllocError>
    ensures { IfOk result (λ begins. begins ≡ begins_at p.now text.now) }
{
    let words = line_words(alloc, text)?;
    if words.is_empty() {
        return Ok(false);
    }
    Ok(is_numbered(half_of(p), words[0]))
}
