//! The example on the page of `board_game`.

use board_alarms::When;
use board_captures::Method;
use board_game::Game;
use board_standing::Kind;
use std::alloc::{AllocError, Global};

/// Whether a board stands wrongly a minute after it has sent these bytes.
fn is_wrong(alloc: Global, method: &Method, bytes: &[u8]) -> Result<bool, AllocError> {
    let mut game = Game::new(alloc, method);
    let mut lines = Vec::new(alloc);
    let when = When {
        at: 0,
        is_added: false,
    };
    game.take(when, bytes, &mut lines)?;
    Ok(game.state(60_000).kind == Kind::Wrong)
}
