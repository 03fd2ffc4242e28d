//! The example on the page of `board_times`.

use board_times::{Event, Heading, What, digest, event_text, heading_text};
use std::alloc::{AllocError, Global};

/// The file of times of a new game: a call begins, and after 5 ms the line is open.
fn first_lines(alloc: Global) -> Result<Vec<u8>, AllocError> {
    let heading = Heading {
        generation: 0,
        size: 0,
        digest: digest(b""),
    };
    let mut text = heading_text(alloc, heading)?;
    let begins = Event {
        at: 0,
        what: What::Begins(0),
    };
    let opens = Event {
        at: 5,
        what: What::Opens,
    };
    text.extend_from_slice(event_text(alloc, begins)?.as_slice())?;
    text.extend_from_slice(event_text(alloc, opens)?.as_slice())?;
    Ok(text)
}

#[test]
fn the_file_begins_with_these_lines(rt: HostRuntime) {
    let lines = b"1 times 0\n0 digest 14695981039346656037\n0 begin 0\n5 opened\n";
    assert!(rt; matches!(first_lines(rt.alloc()), Ok(text) if text.as_slice() == lines.as_slice()));
}
