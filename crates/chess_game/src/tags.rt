//! The values of a game's tags.
ghost use Rattle.std.specs.Prelude.{◌≡◌, OnOk, OnErr, IfErr};
ghost use Rattle.chess_game.specs.Values.{AreValues, IsValue, RefusesText, unknown_of, unknown_values, value_of, value_or, with_value};

use crate::values::{Tag, TagError, check_value};
use std::alloc::Global;
use std::marker::Model;

/// The values of the six tags that a user sets (PGN standard, section 8.1.1). A tag that was never set has the unknown
/// value, `?`, for Date `????.??.??`.
#[derive(Debug, Drop)]
pub struct Tags {
    alloc: Global,
    values: [Option<String>; 6],
}

impl Model for Tags {
    ghost use Rattle.chess_game.specs.Values.{TagValues, AreValues};

    ghost Value = { TagValues };

    ghost use Rattle.chess_game.specs.TagFields.{values_in};

    ghost view = { values_in };

    ghost invariant = { λ t. AreValues (values_in t) };
}

fn value_in<'a>(value: &'a Option<String>, unknown: &'static str) -> &'a str
    ensures { result.now ≡ value_or unknown.now value.now }
{
    match value {
        Some(text) => text.as_str(),
        None => unknown,
    }
}

/// The value of a tag that was never set.
fn unknown_in(tag: Tag) -> &'static str
    ensures { result.now ≡ unknown_of tag }
{
    match tag {
        Tag::Date => "????.??.??",
        _ => "?",
    }
}

impl Tags {
    /// Six unknown values.
    pub fn new(alloc: Global) -> Tags
        ensures { result ≡ unknown_values }
    {
        Tags {
            alloc,
            values: [None, None, None, None, None, None],
        }
    }

    /// The value of the tag.
    pub fn get(&self, tag: Tag) -> &str
        ensures value { result.now ≡ value_of tag self.now }
        ensures valid { AreValues self.now }
    {
        value_in(&self.values[tag.index()], unknown_in(tag))
    }

    /// Sets the value of the tag: 0 to 100 characters of printable ASCII, for Date ten of the form `2024.05.??`. It is
    /// refused for the first of these that holds: Text, Long, Date, Memory. Then nothing changes.
    pub fn set(&mut self, tag: Tag, value: &str) -> Result<(), TagError>
        ensures set { OnOk result (self.new ≡ with_value tag value.now self.old) }
        ensures valid { OnOk result (IsValue tag value.now) }
        ensures refused { IfErr result (RefusesText tag value.now) }
        ensures kept { OnErr result (self.new ≡ self.old) }
    {
        match check_value(tag, value.as_bytes()) {
            Ok(()) => self.store(tag, value),
            Err(error) => Err(error),
        }
    }

    fn store(&mut self, tag: Tag, value: &str) -> Result<(), TagError>
        requires { IsValue tag value.now }
        ensures stored { OnOk result (self.new ≡ with_value tag value.now self.old) }
        ensures cause { IfErr result (λ error. error ≡ TagError.Memory) }
        ensures kept { OnErr result (self.new ≡ self.old) }
    {
        let Ok(text) = String::from_str(self.alloc, value) else {
            return Err(TagError::Memory);
        };
        self.values[tag.index()] = Some(text);
        Ok(())
    }
}
