//! The words of a typed line.
ghost use Rattle.std.specs.Prelude.{◌≡◌, IfOk, map};
ghost use Rattle.typed_lines.specs.Words.{after_digits as after_digits_of, after_dots as after_dots_of, begins_with_dot as begins_with_dot_of, is_blank as blank_test, is_filled as is_filled_test, typed_words as move_words_of, without_number as without_number_of};

use std::alloc::{AllocError, Global};

pub fn is_blank(b: u8) -> bool
    ensures { result ≡ blank_test b }
{
    b == b' ' || b == b'\t' || b == b'\r' || b == b'\n'
}

pub fn after_digits(text: &[u8]) -> &[u8]
    ensures { result.now ≡ after_digits_of text.now }
{
    match text {
        [first, rest @ ..] if first.is_ascii_digit() => after_digits(rest),
        _ => text,
    }
}

pub fn after_dots(text: &[u8]) -> &[u8]
    ensures { result.now ≡ after_dots_of text.now }
{
    match text {
        [b'.', rest @ ..] => after_dots(rest),
        _ => text,
    }
}

fn begins_with_dot(text: &[u8]) -> bool
    ensures { result ≡ begins_with_dot_of text.now }
{
    match text {
        [first, ..] => *first == b'.',
        _ => false,
    }
}

/// A word without the move number before it.
pub fn without_number(word: &[u8]) -> &[u8]
    ensures { result.now ≡ without_number_of word.now }
{
    let rest = after_digits(word);
    if begins_with_dot(rest) {
        after_dots(rest)
    } else {
        word
    }
}

/// Whether the word is more than a move number.
pub fn is_move_word(word: &[u8]) -> bool
    ensures { result ≡ is_filled_test (without_number_of word.now) }
{
    !without_number(word).is_empty()
}

/// What stands between blanks, and is more than a move number.
pub fn move_words(alloc: Global, text: &[u8]) -> Result<Vec<&[u8]>, AllocError>
    ensures { IfOk result (λ found. map (λ word. word.now) found.items ≡ move_words_of text.now) }
{
    text.split(|b| is_blank(*b))
        .filter(|word| is_move_word(word))
        .collect(alloc)
}
