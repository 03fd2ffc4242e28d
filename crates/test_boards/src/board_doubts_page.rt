//! The example on the page of `board_doubts`.

use board_doubts::{Doubts, Event};

/// How often somebody must look at a game, by what was heard of it.
fn how_often(heard: &[Event]) -> usize {
    let mut doubts = Doubts::new();
    let mut count = 0usize;
    for event in heard {
        if doubts.take(*event).is_some() {
            count = count.saturating_add(1);
        }
    }
    count
}
