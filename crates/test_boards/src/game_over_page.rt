//! The example on the page of `game_over`.

use game_over::{Ending, Event, Over, Said};
use std::alloc::{AllocError, Global};

/// How a game was over first, by what happened in it.
fn first_end(alloc: Global, events: &[Event]) -> Result<Option<Over>, AllocError> {
    let mut ending = Ending::new(alloc);
    for event in events {
        if let Said::IsOver(over) = ending.take(*event)? {
            return Ok(Some(over));
        }
    }
    Ok(None)
}
