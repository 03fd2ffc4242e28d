//! The parts of a text that hold its tags' values, and the values.
ghost use Rattle.std.specs.Prelude.{◌≡◌, ◌<◌, ◌≤◌, ◌++◌, ◌∷◌, [], true, false, length, drop, slice_index, IfSome, IfNone};
ghost use Rattle.std.specs.Bool.{OnTrue, OnFalse};
ghost use Rattle.chess_game.specs.TagNames.{all_tags};
ghost use Rattle.chess_game.specs.Values.{IsText, IsShort};
ghost use Rattle.pgn_book.specs.Inside.Parse.{is_plain as is_plain_lem, value_at, after_value, result_at, value_part, next_part, next_line, behind_lines, has_fen as has_fen_lem, fen_part, moves_part};

use arrayvec::ArrayString;
use chess_game::Tag;
use settle_core::Outcome;

/// Whether a byte stands for itself, and is neither a quotation mark nor a backslash before another byte.
fn is_plain(quoted: bool, byte: u8) -> bool
    ensures { result ≡ is_plain_lem quoted byte }
{
    quoted || !(byte == b'"' || byte == b'\\')
}

fn keep(value: &mut ArrayString<100>, byte: u8) -> bool
    ensures kept { OnTrue result ((value.new.bytes ≡ value.old.bytes ++ byte ∷ []) × (31 < byte) × (byte < 127)
        × (length value.old.bytes < 100)) }
    ensures refused { OnFalse result ((31 < byte) × (byte < 127) × (length value.old.bytes < 100) → ⊥) }
{
    if byte < b' ' || byte > b'~' || value.is_full() {
        return false;
    }
    value.push(byte as char);
    true
}

/// A tag's value up to its quotation mark. `None` where it is none.
pub fn read_value(bytes: &[u8]) -> Option<ArrayString<100>>
    ensures some { IfSome result (λ value. value.bytes ≡ value_at false bytes.now) }
    ensures none { IfNone result (IsText (value_at false bytes.now) × IsShort (value_at false bytes.now) → ⊥) }
{
    let mut value = ArrayString::new();
    let mut quoted = false;
    for (i, b) in bytes.iter().enumerate() {
        let byte = *b;
        if is_plain(quoted, byte) {
            if !keep(&mut value, byte) {
                return None;
            }
            quoted = false;
        } else if byte == b'"' {
            return Some(value);
        } else {
            quoted = true;
        }
    }
    Some(value)
}

/// What stands behind a value's quotation mark.
fn behind_value(bytes: &[u8]) -> &[u8]
    ensures { result.now ≡ after_value false bytes.now }
{
    let mut quoted = false;
    for (i, b) in bytes.iter().enumerate() {
        let byte = *b;
        if is_plain(quoted, byte) {
            quoted = false;
        } else if byte == b'"' {
            return &bytes[i + 1..];
        } else {
            quoted = true;
        }
    }
    &[]
}

fn behind(bytes: &[u8], n: usize) -> &[u8]
    ensures { result.now ≡ drop n bytes.now }
{
    if n <= bytes.len() { &bytes[n..] } else { &[] }
}

#[tactic(auto, unfolding(crate::specs::Inside::Parse::next_part))]
fn next(bytes: &[u8], n: usize) -> &[u8]
    ensures { result.now ≡ next_part n bytes.now }
{
    behind(behind_value(bytes), n)
}

/// Where the value begins of a line that begins here with the tag's name.
#[tactic(auto, unfolding(crate::specs::Inside::Parse::value_part))]
pub fn value_of<'a>(name: &str, line: &'a [u8]) -> &'a [u8]
    requires { length name.now ≤ 6 }
    ensures { result.now ≡ value_part name.now line.now }
{
    behind(line, name.len() + 3)
}

/// What stands behind the line of a value that begins here.
pub fn next_line(value: &[u8]) -> &[u8]
    ensures { result.now ≡ next_line value.now }
{
    next(value, 2)
}

/// What stands behind the lines of the tags that a user sets.
pub fn behind_tags(text: &[u8]) -> &[u8]
    ensures { result.now ≡ behind_lines all_tags text.now }
{
    let mut rest = text;
    for tag in Tag::ALL {
        rest = next_line(value_of(tag.name(), rest));
    }
    rest
}

fn byte_at(bytes: &[u8], i: usize) -> u8
    ensures { result ≡ slice_index bytes.now i }
{
    if i < bytes.len() { bytes[i] } else { 0 }
}

/// The result whose marker stands at the front.
pub fn read_result(bytes: &[u8]) -> Option<Outcome>
    ensures { result ≡ result_at bytes.now }
{
    if byte_at(bytes, 0) == b'0' {
        Some(Outcome::BlackWins)
    } else if byte_at(bytes, 0) == b'*' {
        None
    } else if byte_at(bytes, 1) == b'-' {
        Some(Outcome::WhiteWins)
    } else {
        Some(Outcome::Drawn)
    }
}

/// Whether a set-up part stands at the front.
#[tactic(auto, unfolding(crate::specs::Inside::Parse::has_fen))]
pub fn has_fen(bytes: &[u8]) -> bool
    ensures { result ≡ has_fen_lem bytes.now }
{
    byte_at(bytes, 0) == b'['
}

/// Where the start's FEN begins.
#[tactic(auto, unfolding(crate::specs::Inside::Parse::fen_part))]
pub fn fen_of(bytes: &[u8]) -> &[u8]
    ensures { result.now ≡ fen_part bytes.now }
{
    behind(bytes, 6)
}

/// Where the movetext begins.
pub fn moves_of(bytes: &[u8]) -> &[u8]
    ensures { result.now ≡ moves_part bytes.now }
{
    if has_fen(bytes) {
        next(fen_of(bytes), 15)
    } else {
        behind(bytes, 1)
    }
}
