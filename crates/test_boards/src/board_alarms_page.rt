//! The example on the page of `board_alarms`.

use board_alarms::{Alarms, News};
use chess_rules::Position;
use std::alloc::{AllocError, Global};

/// How many alarms are open if somebody has looked since the first suspicion, and another one follows.
fn how_many(alloc: Global, start: &Position) -> Result<usize, AllocError> {
    let mut alarms = Alarms::new(alloc, start);
    alarms.note(1_000, News::Suspects(7))?;
    alarms.note(2_000, News::Looked)?;
    alarms.note(3_000, News::Suspects(8))?;
    Ok(alarms.open().len())
}
