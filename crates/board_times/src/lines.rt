//! One line: a number, a word, and with some words another number.
ghost use Rattle.std.specs.Prelude.{◌≡◌, ◌<◌, ◌^◌, ◌==◌, ◌∷◌, ◌++◌, [], ℕ, not, decimal, length, take, slice_index, IfNone, IfOk, IfSome, true};
ghost use Rattle.board_times.specs.Lines.{BeginsNoLine, Fits, NumberFits, line_text, number_text, tail_text};
ghost use Rattle.board_times.specs.declared.lines.Tail.{Tail as TailOf};
ghost use Rattle.board_times.specs.declared.lines.Line.{Line as LineOf};
ghost use Rattle.board_times.specs.Inside.Reading.{lacks};

use crate::words::{Word, are_same, word_of};
use itoa::Buffer;
use std::alloc::{AllocError, Global};

/// The word of a line and its number, if it has one.
#[derive(Clone, Copy)]
pub struct Tail {
    pub word: Word,
    pub number: Option<u64>,
}

/// A line.
#[derive(Clone, Copy)]
pub struct Line {
    pub first: u64,
    pub tail: Tail,
}

fn is_other(byte: u8, separator: u8) -> bool
    ensures { result ≡ not (byte == separator) }
{
    byte != separator
}

/// How many bytes stand before the first one like this.
fn place_of(text: &[u8], separator: u8) -> Option<usize>
    ensures some { IfSome result (λ n. (n < length text.now) × (slice_index text.now n ≡ separator) × (lacks separator (take n text.now) ≡ true)) }
    ensures none { IfNone result (lacks separator text.now ≡ true) }
{
    let mut place = 0;
    for byte in text {
        if !is_other(*byte, separator) {
            return Some(place);
        }
        place += 1;
    }
    None
}

/// What stands before the first byte like this, and behind it.
pub fn split(text: &[u8], separator: u8) -> Option<(&[u8], &[u8])>
    ensures some { IfSome result (λ parts. (text.now ≡ parts.0.now ++ separator ∷ parts.1.now) × (lacks separator parts.0.now ≡ true)) }
    ensures none { IfNone result (lacks separator text.now ≡ true) }
{
    match place_of(text, separator) {
        None => None,
        Some(place) => Some((&text[..place], &text[place + 1..])),
    }
}

/// The number whose decimal a text is.
fn number_of(text: &[u8]) -> Option<u64>
    ensures some { IfSome result (λ n. (n < 2 ^ 64) × (text.now ≡ decimal n)) }
    ensures none { IfNone result ((n : ℕ) → n < 2 ^ 64 → text.now ≡ decimal n → ⊥) }
{
    let Ok(digits) = str::from_utf8(text) else {
        return None;
    };
    let Ok(n) = digits.parse::<u64>() else {
        return None;
    };
    let mut buffer = Buffer::new();
    if are_same(buffer.format(n).as_bytes(), text) {
        Some(n)
    } else {
        None
    }
}

/// The word and the number that a text says.
fn read_tail(text: &[u8]) -> Option<Tail>
    ensures some { IfSome result (λ tail. NumberFits tail.number × (text.now ≡ tail_text tail)) }
    ensures none { IfNone result ((tail : TailOf) → NumberFits tail.number → text.now ≡ tail_text tail → ⊥) }
{
    let Some((word, number)) = split(text, b' ') else {
        return match word_of(text) {
            None => None,
            Some(word) => Some(Tail { word, number: None }),
        };
    };
    let Some(word) = word_of(word) else {
        return None;
    };
    match number_of(number) {
        None => None,
        Some(number) => Some(Tail {
            word,
            number: Some(number),
        }),
    }
}

/// The line that a text is without its line feed.
pub fn read_line(text: &[u8]) -> Option<Line>
    ensures some { IfSome result (λ line. Fits line × (text.now ++ 10 ∷ [] ≡ line_text line)) }
    ensures none { IfNone result ((line : LineOf) → Fits line → text.now ++ 10 ∷ [] ≡ line_text line → ⊥) }
{
    let Some((first, tail)) = split(text, b' ') else {
        return None;
    };
    let Some(first) = number_of(first) else {
        return None;
    };
    match read_tail(tail) {
        None => None,
        Some(tail) => Some(Line { first, tail }),
    }
}

/// The line that begins a text, and what follows it.
pub(crate) fn next_line(text: &[u8]) -> Option<(Line, &[u8])>
    ensures some { IfSome result (λ next. Fits next.0 × (text.now ≡ line_text next.0 ++ next.1.now)) }
    ensures none { IfNone result (BeginsNoLine text.now) }
{
    let Some((line, rest)) = split(text, b'\n') else {
        return None;
    };
    match read_line(line) {
        None => None,
        Some(line) => Some((line, rest)),
    }
}

/// Adds a number, and a blank before it.
fn add_number(number: Option<u64>, out: &mut Vec<u8>) -> Result<(), AllocError>
    ensures { IfOk result (λ _. out.new.items ≡ out.old.items ++ number_text number) }
{
    match number {
        None => Ok(()),
        Some(n) => {
            let mut buffer = Buffer::new();
            out.extend_from_slice(b" ")?;
            out.extend_from_slice(buffer.format(n).as_bytes())
        }
    }
}

/// Adds the text of a line.
pub fn add_line(line: Line, out: &mut Vec<u8>) -> Result<(), AllocError>
    ensures { IfOk result (λ _. out.new.items ≡ out.old.items ++ line_text line) }
{
    let mut buffer = Buffer::new();
    out.extend_from_slice(buffer.format(line.first).as_bytes())?;
    out.extend_from_slice(b" ")?;
    out.extend_from_slice(line.tail.word.text())?;
    add_number(line.tail.number, out)?;
    out.extend_from_slice(b"\n")
}
