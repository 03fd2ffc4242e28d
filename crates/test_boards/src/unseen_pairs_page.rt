//! The example on the page of `unseen_pairs`.

use chess_rules::Position;
use std::alloc::{AllocError, Global};
use unseen_pairs::{Recoverer, SeenOrRecovered};

/// What the picture of a position shows when it comes first in a game.
fn first_told(alloc: Global, p: &Position) -> Result<SeenOrRecovered, AllocError> {
    let mut recoverer = Recoverer::new(alloc, Position::initial());
    recoverer.see(alloc, &p.picture(), None)
}
