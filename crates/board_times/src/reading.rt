//! A whole file of times.
ghost use Rattle.std.specs.Prelude.{◌≡◌, ◌++◌, ℕ, Option, IfNone, IfOk, IfSome, Some};
ghost use Rattle.board_times.specs.Lines.{Fits, line_text};
ghost use Rattle.board_times.specs.Times.{AreRead, BeginsNoEvent, BeginsNoHeading, HasVersion, HeadingFits, IsFound, digest_line, heading_text, line_of, version_line};

use crate::events::{Event, Heading, event_of};
use crate::lines::{Line, next_line};
use crate::words::Word;
use std::alloc::{AllocError, Global};

/// What a file of times has.
#[derive(Drop)]
pub struct Kept {
    pub heading: Heading,
    pub events: Vec<Event>,
    /// How many bytes stand behind the last event: a line that is torn, or no line of an event.
    pub rest: usize,
}

/// What stands in a file of times.
#[derive(Drop)]
pub enum Found {
    /// Nothing: the file is missing or empty.
    Missing,
    /// No heading, or a torn one.
    Unreadable,
    /// The heading of another version: a newer program wrote it.
    Newer(u64),
    /// A heading and events.
    Times(Kept),
}

#[derive(Drop)]
struct Events {
    events: Vec<Event>,
    rest: usize,
}

/// The event whose line begins a text, and what follows it.
fn next_event(text: &[u8]) -> Option<(Event, &[u8])>
    ensures some { IfSome result (λ next. Fits (line_of next.0) × (text.now ≡ line_text (line_of next.0) ++ next.1.now)) }
    ensures none { IfNone result (BeginsNoEvent text.now) }
{
    let Some((line, rest)) = next_line(text) else {
        return None;
    };
    match event_of(line) {
        None => None,
        Some(event) => Some((event, rest)),
    }
}

/// The events whose lines begin a text.
fn read_events(alloc: Global, text: &[u8]) -> Result<Events, AllocError>
    ensures { IfOk result (λ read. AreRead text.now read.events.items read.rest) }
{
    let mut events = Vec::new(alloc);
    let mut left = text;
    'lines: loop {
        let Some((event, rest)) = next_event(left) else {
            return Ok(Events {
                events,
                rest: left.len(),
            });
        };
        events.push(event)?;
        left = rest;
    }
}

/// The version and the generation of a line, if it has them.
fn version_of(line: Line) -> Option<(u64, Option<u64>)>
    ensures some { IfSome result (λ version. line ≡ version_line version.0 version.1) }
    ensures none { IfNone result ((version : ℕ) (number : Option ℕ) → line ≡ version_line version number → ⊥) }
{
    match line.tail.word {
        Word::Version => Some((line.first, line.tail.number)),
        _ => None,
    }
}

/// How many bytes have which digest, by a line, if it says so.
fn digest_of(line: Line) -> Option<(u64, u64)>
    ensures some { IfSome result (λ parts. line ≡ digest_line parts.0 parts.1) }
    ensures none { IfNone result ((size digest : ℕ) → line ≡ digest_line size digest → ⊥) }
{
    match line.tail.word {
        Word::Digest => match line.tail.number {
            None => None,
            Some(digest) => Some((line.first, digest)),
        },
        _ => None,
    }
}

fn generation_of(line: Line) -> Option<u64>
    ensures some { IfSome result (λ generation. line ≡ version_line 1 (Some generation)) }
    ensures none { IfNone result ((generation : ℕ) → line ≡ version_line 1 (Some generation) → ⊥) }
{
    let Some((version, generation)) = version_of(line) else {
        return None;
    };
    if version == 1 { generation } else { None }
}

/// The heading that begins a text, and what follows it.
fn read_heading(text: &[u8]) -> Option<(Heading, &[u8])>
    ensures some { IfSome result (λ next. HeadingFits next.0 × (text.now ≡ heading_text next.0 ++ next.1.now)) }
    ensures none { IfNone result (BeginsNoHeading text.now) }
{
    let Some((first, left)) = next_line(text) else {
        return None;
    };
    let Some(generation) = generation_of(first) else {
        return None;
    };
    let Some((second, rest)) = next_line(left) else {
        return None;
    };
    let Some((size, digest)) = digest_of(second) else {
        return None;
    };
    let heading = Heading {
        generation,
        size,
        digest,
    };
    Some((heading, rest))
}

/// The version of a text that another program wrote, if it has one.
fn other_version(text: &[u8]) -> Option<u64>
    ensures some { IfSome result (λ version. HasVersion text.now version) }
    ensures none { IfNone result ((version : ℕ) → HasVersion text.now version → ⊥) }
{
    let Some((line, _)) = next_line(text) else {
        return None;
    };
    let Some((version, _)) = version_of(line) else {
        return None;
    };
    if version == 1 { None } else { Some(version) }
}

/// What stands in a file of times, whatever it has. A missing file is read as an empty one. It takes memory for the events.
pub fn read_times(alloc: Global, text: &[u8]) -> Result<Found, AllocError>
    ensures { IfOk result (λ found. IsFound text.now found) }
{
    if text.is_empty() {
        return Ok(Found::Missing);
    }
    let Some((heading, body)) = read_heading(text) else {
        return match other_version(text) {
            None => Ok(Found::Unreadable),
            Some(version) => Ok(Found::Newer(version)),
        };
    };
    match read_events(alloc, body) {
        Err(error) => Err(error),
        Ok(Events { events, rest }) => Ok(Found::Times(Kept {
            heading,
            events,
            rest,
        })),
    }
}
