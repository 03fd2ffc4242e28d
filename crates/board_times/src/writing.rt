//! The lines of a file of times, as they are written.
ghost use Rattle.std.specs.Prelude.{◌≡◌, IfOk, Some};
ghost use Rattle.board_times.specs.Lines.{line_text};
ghost use Rattle.board_times.specs.Times.{digest_line, heading_text, line_of, version_line};

use crate::events::{Event, Heading, line_of};
use crate::lines::{Line, Tail, add_line};
use crate::words::Word;
use std::alloc::{AllocError, Global};

/// The line of an event, with its line feed. It takes memory for the line.
pub fn event_text(alloc: Global, event: Event) -> Result<Vec<u8>, AllocError>
    ensures { IfOk result (λ text. text.items ≡ line_text (line_of event)) }
{
    let mut text = Vec::new(alloc);
    add_line(line_of(event), &mut text)?;
    Ok(text)
}

fn version_line(generation: u64) -> Line
    ensures { result ≡ version_line 1 (Some generation) }
{
    Line {
        first: 1,
        tail: Tail {
            word: Word::Version,
            number: Some(generation),
        },
    }
}

fn digest_line(size: u64, digest: u64) -> Line
    ensures { result ≡ digest_line size digest }
{
    Line {
        first: size,
        tail: Tail {
            word: Word::Digest,
            number: Some(digest),
        },
    }
}

/// The heading, in two lines. It takes memory for them.
pub fn heading_text(alloc: Global, heading: Heading) -> Result<Vec<u8>, AllocError>
    ensures { IfOk result (λ text. text.items ≡ heading_text heading) }
{
    let mut text = Vec::new(alloc);
    add_line(version_line(heading.generation), &mut text)?;
    add_line(digest_line(heading.size, heading.digest), &mut text)?;
    Ok(text)
}
