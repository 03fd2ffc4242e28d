//! The fields of a FEN.
ghost use Rattle.std.specs.Prelude.{◌≡◌, ◌∷◌, ◌++◌, ◌+◌, ◌*◌, ◌-◌, ◌<◌, ◌≤◌, ◌↔◌, [], ℕ, List, length, IfSome, IfNone, IsTrue, decimal, All, Option, false};
ghost use Rattle.std.specs.List.{slice_split};
ghost use Rattle.chess_rules.specs.declared.pieces.Side.{Side};
ghost use Rattle.chess_rules.specs.declared.parts.Rights.{Rights};
ghost use Rattle.chess_text.specs.Fen.{side_text, rights_text, target_text, IsTargetField, IsDigits, HasForm, Fields as FenFields};
ghost use Rattle.chess_text.specs.Inside.FieldReading.{is_space as is_space_lem, split, split_behind, AreRaw, fields_in, has as has_lem, rights_at as rights_at_lem};

use crate::bytes::same_bytes;
use crate::field_text::castling_str;
use crate::squares::square_at;
use chess_rules::{Rights, Side, Square};
use itoa::Buffer;

/// The fields of a text as they stand there; where the text has four, the counters are `0` and `1`.
#[derive(Clone, Copy)]
pub struct RawFields<'a> {
    pub placement: &'a [u8],
    pub side: &'a [u8],
    pub castling: &'a [u8],
    pub target: &'a [u8],
    pub halfmove: &'a [u8],
    pub fullmove: &'a [u8],
}

/// The fields of a text of the form: the placement is any field, the counters are digits.
#[derive(Clone, Copy)]
pub struct Fields<'a> {
    pub placement: &'a [u8],
    pub side: Side,
    pub rights: Rights,
    pub target: Option<Square>,
    pub halfmove: &'a [u8],
    pub fullmove: &'a [u8],
}

/// The field at the front, and what stands behind the space after it.
fn first_field(bytes: &[u8]) -> (&[u8], Option<&[u8]>)
    ensures split { slice_split is_space_lem bytes.now ≡ result.0.now ∷ split_behind result.1 }
    ensures plain { All (λ b. is_space_lem b ≡ false) result.0.now }
{
    for (i, b) in bytes.iter().enumerate() {
        if *b == b' ' {
            return (&bytes[..i], Some(&bytes[i + 1..]));
        }
    }
    (bytes, None)
}

/// The fields of a text that has six or four.
fn raw_fields(text: &[u8]) -> Option<RawFields<'_>>
    ensures some { IfSome result (AreRaw text.now) }
    ensures plain { IfSome result (λ f. All (λ b. is_space_lem b ≡ false) f.placement.now) }
    ensures not_four { IfNone result (length (split text.now) ≡ 4 → ⊥) }
    ensures not_six { IfNone result (length (split text.now) ≡ 6 → ⊥) }
{
    let (placement, behind_placement) = first_field(text);
    let Some(rest) = behind_placement else {
        return None;
    };
    let (side, behind_side) = first_field(rest);
    let Some(rest) = behind_side else {
        return None;
    };
    let (castling, behind_castling) = first_field(rest);
    let Some(rest) = behind_castling else {
        return None;
    };
    let (target, behind_target) = first_field(rest);
    let Some(rest) = behind_target else {
        return Some(RawFields {
            placement,
            side,
            castling,
            target,
            halfmove: b"0",
            fullmove: b"1",
        });
    };
    let (halfmove, behind_halfmove) = first_field(rest);
    let Some(rest) = behind_halfmove else {
        return None;
    };
    let (fullmove, end) = first_field(rest);
    match end {
        Some(_more) => None,
        None => Some(RawFields {
            placement,
            side,
            castling,
            target,
            halfmove,
            fullmove,
        }),
    }
}

fn side_of(field: &[u8]) -> Option<Side>
    ensures some { IfSome result (λ s. field.now ≡ side_text s) }
    ensures none { IfNone result ((s : Side) → field.now ≡ side_text s → ⊥) }
{
    match field {
        b"w" => Some(Side::White),
        b"b" => Some(Side::Black),
        _ => None,
    }
}

fn has(bytes: &[u8], byte: u8) -> bool
    ensures { result ≡ has_lem byte bytes.now }
{
    let mut found = false;
    for b in bytes {
        found = found || *b == byte;
    }
    found
}

/// The rights whose letters stand in the field.
fn rights_at(field: &[u8]) -> Rights
    ensures { result ≡ rights_at_lem field.now }
{
    Rights {
        white_king: has(field, b'K'),
        white_queen: has(field, b'Q'),
        black_king: has(field, b'k'),
        black_queen: has(field, b'q'),
    }
}

fn is_castling_text(rights: Rights, field: &[u8]) -> bool
    ensures { IsTrue result ↔ (field.now ≡ rights_text rights) }
{
    same_bytes(field, castling_str(rights).as_str().as_bytes())
}

fn castling_of(field: &[u8]) -> Option<Rights>
    ensures some { IfSome result (λ r. field.now ≡ rights_text r) }
    ensures none { IfNone result ((r : Rights) → field.now ≡ rights_text r → ⊥) }
{
    if field.len() > 4 {
        return None;
    }
    let rights = rights_at(field);
    if is_castling_text(rights, field) {
        Some(rights)
    } else {
        None
    }
}

fn is_file(letter: u8) -> bool
    ensures { IsTrue result ↔ ((97 ≤ letter) × (letter < 105)) }
{
    b'a' <= letter && letter <= b'h'
}

/// The square by the letter of its file and its row from the top.
fn square_on(file: u8, row: u8) -> Square
    requires low { 97 ≤ file }
    requires high { file < 105 }
    requires row { row < 8 }
    ensures { result ≡ 8 * row + (file - 97) }
{
    square_at(8 * row + (file - b'a'))
}

fn target_of(field: &[u8]) -> Option<Option<Square>>
    ensures some { IfSome result (λ t. IsTargetField t × (field.now ≡ target_text t)) }
    ensures none { IfNone result ((t : Option ℕ) → IsTargetField t → field.now ≡ target_text t → ⊥) }
{
    match field {
        b"-" => Some(None),
        [file, b'6'] if is_file(*file) => Some(Some(square_on(*file, 2))),
        [file, b'3'] if is_file(*file) => Some(Some(square_on(*file, 5))),
        _ => None,
    }
}

fn are_digits(field: &[u8]) -> bool
    ensures { IsTrue result ↔ IsDigits field.now }
{
    !field.is_empty() && field.iter().all(|b| b'0' <= *b && *b <= b'9')
}

/// The fields of a text, where it is of the form.
pub fn fields_of(text: &[u8]) -> Option<Fields<'_>>
    ensures some { IfSome result (λ f. HasForm text.now (fields_in f)) }
    ensures none { IfNone result ((f : FenFields) → HasForm text.now f → ⊥) }
{
    let Some(raw) = raw_fields(text) else {
        return None;
    };
    let Some(side) = side_of(raw.side) else {
        return None;
    };
    let Some(rights) = castling_of(raw.castling) else {
        return None;
    };
    let Some(target) = target_of(raw.target) else {
        return None;
    };
    if raw.placement.is_empty() || !are_digits(raw.halfmove) || !are_digits(raw.fullmove) {
        return None;
    }
    Some(Fields {
        placement: raw.placement,
        side,
        rights,
        target,
        halfmove: raw.halfmove,
        fullmove: raw.fullmove,
    })
}

/// The number below 10000 whose decimal the digits are.
pub fn counter_of(digits: &[u8]) -> Option<u16>
    requires { IsDigits digits.now }
    ensures some { IfSome result (λ n. (n < 10000) × (digits.now ≡ decimal n)) }
    ensures none { IfNone result ((n : ℕ) → n < 10000 → digits.now ≡ decimal n → ⊥) }
{
    if digits.len() > 4 {
        return None;
    }
    let mut n: u16 = 0;
    for digit in digits {
        n = n * 10 + u16::from(*digit - b'0');
    }
    let mut buffer = Buffer::new();
    if same_bytes(buffer.format(n).as_bytes(), digits) {
        Some(n)
    } else {
        None
    }
}
