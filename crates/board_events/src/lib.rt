//! What the events of a board tell: which are trusted, what they show, when the board is asked for a dump, and the
//! game.
//!
//! Begin with `session.rt`, which takes events; `view.rt` keeps their pictures alone. `setup.rt` has what a game is
//! read with.
#![tactic(auto)]

mod session;
mod setup;
mod view;

pub use session::{Session, Taken};
pub use setup::Setup;
pub use view::{Change, View};
