//! The tags that a user sets, and which values they may have.
ghost use Rattle.std.specs.Prelude.{◌≡◌, ◌≢◌, ◌<◌, ◌↔◌, ℕ, ◌≤◌, IsTrue, IfErr, OnOk, Err, length, slice_index};
ghost use Rattle.chess_game.specs.TagNames.{all_tags, tag_index, tag_name};
ghost use Rattle.chess_game.specs.Values.{IsText, IsDate, IsDateDigit, IsValue, RefusesText};

use thiserror::Error;

/// The most characters of a tag's value.
const MOST_CHARACTERS: usize = 100;

/// The six tags that a user sets, in the order of the text (PGN standard, seven tag roster).
#[derive(Clone, Copy, Debug, PartialEq, Eq)]
pub enum Tag {
    Event,
    Site,
    Date,
    Round,
    White,
    Black,
}

/// Why a value was refused: the first reason that holds, in this order.
#[derive(Clone, Copy, Debug, PartialEq, Eq, Error)]
pub enum TagError {
    /// A character is outside printable ASCII, 32 to 126.
    #[error("a character outside printable ASCII")]
    Text,
    /// It has more than 100 characters.
    #[error("more than 100 characters")]
    Long,
    /// The value of Date is not ten characters, `.` in places 5 and 8 and a digit or `?` in each other.
    #[error("no date")]
    Date,
    /// There was no memory for it.
    #[error("out of memory")]
    Memory,
}

impl Tag {
    /// The six tags, in the order of the text.
    pub const ALL: [Tag; 6] = [
        Tag::Event,
        Tag::Site,
        Tag::Date,
        Tag::Round,
        Tag::White,
        Tag::Black,
    ];

    /// The name of the tag, as the text has it.
    pub fn name(self) -> &'static str
        ensures name { result.now ≡ tag_name self }
        ensures short { length result.now ≤ 5 }
    {
        match self {
            Tag::Event => "Event",
            Tag::Site => "Site",
            Tag::Date => "Date",
            Tag::Round => "Round",
            Tag::White => "White",
            Tag::Black => "Black",
        }
    }

    /// Its place in `ALL`, from 0.
    pub fn index(self) -> usize
        ensures listed { Tag.ALL ≡ all_tags }
        ensures place { result ≡ tag_index self }
        ensures within { result < 6 }
    {
        self as usize
    }

    /// Whether both are one tag.
    fn is(self, other: Tag) -> bool
        ensures { IsTrue result ↔ (self ≡ other) }
    {
        self == other
    }
}

/// Whether every byte is printable ASCII.
fn is_text(value: &[u8]) -> bool
    ensures { IsTrue result ↔ IsText value.now }
{
    value.iter().all(|b| 31 < *b && *b < 127)
}

fn is_date_digit(byte: u8) -> bool
    ensures { IsTrue result ↔ IsDateDigit byte }
{
    byte == b'?' || byte.is_ascii_digit()
}

fn are_date_digits(value: &[u8]) -> bool
    requires { length value.now ≡ 10 }
    ensures { IsTrue result ↔ ((k : ℕ) → k < 10 → k ≢ 4 → k ≢ 7 → IsDateDigit (slice_index value.now k)) }
{
    for (i, byte) in value.iter().enumerate() {
        if i != 4 && i != 7 && !is_date_digit(*byte) {
            return false;
        }
    }
    true
}

/// Whether the value has the form of a date.
fn is_date(value: &[u8]) -> bool
    ensures { IsTrue result ↔ IsDate value.now }
{
    value.len() == 10 && value[4] == b'.' && value[7] == b'.' && are_date_digits(value)
}

fn suits(tag: Tag, value: &[u8]) -> bool
    ensures { IsTrue result ↔ (tag ≡ Tag.Date → IsDate value.now) }
{
    !tag.is(Tag::Date) || is_date(value)
}

/// Whether the tag may have the value, and if not, why.
pub fn check_value(tag: Tag, value: &[u8]) -> Result<(), TagError>
    ensures ok { OnOk result (IsValue tag value.now) }
    ensures err { IfErr result (RefusesText tag value.now) }
    ensures cause { result ≢ Err TagError.Memory }
{
    if !is_text(value) {
        return Err(TagError::Text);
    }
    if value.len() > MOST_CHARACTERS {
        return Err(TagError::Long);
    }
    if !suits(tag, value) {
        return Err(TagError::Date);
    }
    Ok(())
}
