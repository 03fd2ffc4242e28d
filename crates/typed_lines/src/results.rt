//! How a result is typed.
ghost use Rattle.std.specs.Prelude.{◌≡◌, IfOk};
ghost use Rattle.std.specs.Str.{bytes_eq};
ghost use Rattle.typed_lines.specs.Results.{hyphen as hyphen_of, is_kept as kept_test, outcome_spelt as outcome_spelt_of, result_of as result_in, spells_draw as draw_test, spells_half as half_test, spelt as spelt_of};

use crate::words::is_blank;
use settle_core::Outcome;
use std::alloc::{AllocError, Global};

fn hyphen(b: u8) -> u8
    ensures { result ≡ hyphen_of b }
{
    if b == b':' || b == 0x93 || b == 0x94 {
        b'-'
    } else {
        b
    }
}

fn is_kept(b: u8) -> bool
    ensures { result ≡ kept_test b }
{
    !(is_blank(b) || b == 0xE2 || b == 0x80 || b == 0xC2)
}

/// A text without blanks, with hyphens.
fn spelt(alloc: Global, text: &[u8]) -> Result<Vec<u8>, AllocError>
    ensures { IfOk result (λ found. found.items ≡ spelt_of text.now) }
{
    text.iter()
        .copied()
        .filter(|b| is_kept(*b))
        .map(|b| hyphen(b))
        .collect(alloc)
}

/// Whether both are the same bytes.
pub fn is_text(text: &[u8], other: &[u8]) -> bool
    ensures { result ≡ bytes_eq text.now other.now }
{
    text == other
}

fn spells_half(text: &[u8]) -> bool
    ensures { result ≡ half_test text.now }
{
    is_text(text, &[0xBD])
        || is_text(text, &[0xBD, b'-', 0xBD])
        || is_text(text, &[b'1', b'/', b'2', b'-', 0xBD])
        || is_text(text, &[0xBD, b'-', b'1', b'/', b'2'])
}

fn spells_draw(text: &[u8]) -> bool
    ensures { result ≡ draw_test text.now }
{
    is_text(text, b"1/2-1/2") || is_text(text, b"1/2") || is_text(text, b"=") || spells_half(text)
}

fn outcome_spelt(text: &[u8]) -> Option<Outcome>
    ensures { result ≡ outcome_spelt_of text.now }
{
    if is_text(text, b"1-0") {
        Some(Outcome::WhiteWins)
    } else if is_text(text, b"0-1") {
        Some(Outcome::BlackWins)
    } else if spells_draw(text) {
        Some(Outcome::Drawn)
    } else {
        None
    }
}

/// The result that a text is, if it is one.
pub fn result_of(alloc: Global, text: &[u8]) -> Result<Option<Outcome>, AllocError>
    ensures { IfOk result (λ found. found ≡ result_in text.now) }
{
    let spelt = spelt(alloc, text)?;
    Ok(outcome_spelt(spelt.as_slice()))
}
