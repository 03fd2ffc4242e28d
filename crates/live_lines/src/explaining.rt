//! What explains a board that doesn't stand as its game.
ghost use Rattle.std.specs.Prelude.{◌≡◌, ℕ, Bool, List, IfOk, IsTrue, ◌↔◌, Some};
ghost use Rattle.board_events.specs.Settings.{Setting};
ghost use Rattle.board_game.specs.Games.{StandsFor};
ghost use Rattle.board_game.specs.History.{Came};
ghost use Rattle.live_lines.specs.Explaining.{Explains, ExplainsSaid};

use board_game::Game;
use board_standing::{Kind, State};
use going_back::say_fit;
use std::alloc::{AllocError, Global};

/// What is typed for the change of the game that alone explains its board.
fn explain(alloc: Global, game: &Game) -> Result<Vec<u8>, AllocError>
    ensures { (setting : Setting) (recovers : Bool) (past : List Came) (report : List ℕ) → StandsFor game.now setting recovers past report
        → IfOk result (λ line. Explains setting recovers past line.items) }
{
    let (session, picture) = game.seen();
    let settler = session.settler();
    let Some(seen) = picture else {
        return Ok(Vec::new(alloc));
    };
    say_fit(alloc, settler.start(), settler.moves(), seen)
}

/// The same if the board is said to be wrong; else nothing.
pub fn explain_if(alloc: Global, said: Option<State>, game: &Game) -> Result<Vec<u8>, AllocError>
    ensures { (setting : Setting) (recovers : Bool) (past : List Came) (report : List ℕ) → StandsFor game.now setting recovers past report
        → IfOk result (λ line. ExplainsSaid said setting recovers past line.items) }
{
    let Some(state) = said else {
        return Ok(Vec::new(alloc));
    };
    match state.kind {
        Kind::Wrong => explain(alloc, game),
        _ => Ok(Vec::new(alloc)),
    }
}
