//! The example on the page of `chess_game`.

use chess_game::{Game, Tag, TagError, Tags};
use chess_rules::Position;
use std::alloc::Global;

/// A game without a move, of this player with the white pieces.
fn begun_by(alloc: Global, name: &str) -> Result<Game, TagError> {
    let mut tags = Tags::new(alloc);
    tags.set(Tag::White, name)?;
    Ok(Game::new(tags, Position::initial(), Vec::new(alloc), None))
}
