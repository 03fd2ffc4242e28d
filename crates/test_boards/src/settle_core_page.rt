//! The example on the page of `settle_core`.

use chess_rules::Position;
use settle_core::{Seen, Settler};
use std::alloc::{AllocError, Global};

/// What the picture of a position shows when it comes first in a game.
fn first_seen(alloc: Global, p: &Position) -> Result<Seen, AllocError> {
    let mut settler = Settler::new(alloc, Position::initial());
    settler.see(&p.picture(), None)
}

#[test]
fn the_start_shows_no_move(rt: HostRuntime) {
    assert!(rt; first_seen(rt.alloc(), &Position::initial()) == Ok(Seen::Waits));
}
