//! The bytes by which what is typed is compared with what PGN has.
ghost use Rattle.std.specs.Prelude.{◌≡◌, ◌↔◌, IsTrue, IfOk};
ghost use Rattle.typed_lines.specs.Letters.{bare as bare_of, capital as capital_of, castling_letter as castling_letter_of, english_letter as english_letter_of, in_english as in_english_of, is_letter as letter_test, is_mark as mark_test, letters as letters_of};

use std::alloc::{AllocError, Global};

fn is_mark(b: u8) -> bool
    ensures { result ≡ mark_test b }
{
    b == b'+' || b == b'#' || b == b'=' || b == b'!' || b == b'?'
}

fn castling_letter(b: u8) -> u8
    ensures { result ≡ castling_letter_of b }
{
    if b == b'0' { b'O' } else { b }
}

fn is_letter(b: u8) -> bool
    ensures { result ≡ letter_test b }
{
    (b.is_ascii_digit() || b.is_ascii_uppercase() || b.is_ascii_lowercase())
        && !(b == b'X')
        && !(b == b'x')
}

fn capital(b: u8) -> u8
    ensures { result ≡ capital_of b }
{
    if b'a' <= b && b <= b'z' {
        b - 32
    } else {
        castling_letter(b)
    }
}

fn english_letter(b: u8) -> u8
    ensures { result ≡ english_letter_of b }
{
    match b {
        b'S' | b'C' => b'N',
        b'L' | b'F' | b'A' => b'B',
        b'T' => b'R',
        b'D' => b'Q',
        _ => b,
    }
}

/// A move's text without its marks, castling with the letter O.
pub fn bare(alloc: Global, text: &[u8]) -> Result<Vec<u8>, AllocError>
    ensures { IfOk result (λ found. found.items ≡ bare_of text.now) }
{
    text.iter()
        .copied()
        .filter(|b| !is_mark(*b))
        .map(|b| castling_letter(b))
        .collect(alloc)
}

/// A text's letters and digits alone, in capitals.
pub fn letters(alloc: Global, text: &[u8]) -> Result<Vec<u8>, AllocError>
    ensures { IfOk result (λ found. found.items ≡ letters_of text.now) }
{
    text.iter()
        .copied()
        .filter(|b| is_letter(*b))
        .map(|b| capital(b))
        .collect(alloc)
}

/// A text with the letters of PGN.
pub fn in_english(alloc: Global, text: &[u8]) -> Result<Vec<u8>, AllocError>
    ensures { IfOk result (λ found. found.items ≡ in_english_of text.now) }
{
    text.iter()
        .copied()
        .map(|b| english_letter(b))
        .collect(alloc)
}

/// Whether both are the same bytes.
pub fn is_same(a: &[u8], b: &[u8]) -> bool
    ensures { IsTrue result ↔ (a.now ≡ b.now) }
{
    a == b
}
