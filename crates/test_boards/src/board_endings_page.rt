//! The example on the page of `board_endings`.

use board_endings::{Endings, News};
use chess_rules::Position;
use std::alloc::{AllocError, Global};

/// Whether a game is over when a recorder has begun, and nothing more has come.
fn is_over(alloc: Global, start: &Position) -> Result<bool, AllocError> {
    let mut endings = Endings::new(alloc, start);
    endings.note(1_000, News::Begins)?;
    Ok(endings.end(60_000).over.is_some())
}
