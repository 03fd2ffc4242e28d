//! Which news of a game is doubtful, and which moves were made while the clock was stopped, from what was heard and when.
//!
//! Begin with `heard.rt`: what is heard, and what is said of it. `doubts.rt` takes the one and says the other; `recent.rt`,
//! `waited.rt`, `pace.rt`, `plies.rt`, `presses.rt`, `thinking.rt`, `unheard.rt` and `silent.rt` are its parts: what was heard
//! since the last news, how long the last move has stood, how long the last plies took, where their pieces went, whether the
//! clock was pressed for them, on whose time they were thought about, whether the clock was heard, and plies that wait for a
//! press. `elsewhere.rt` says what a picture shows, over `ways.rt`: how pieces go, and `squares.rt`: where pictures differ.
//! `stopped_clock.rt` counts the moves that are made while the clock is stopped, `after_wrong.rt` those while the row says WRONG.
//! `laws.rt` says what holds of each history.
#![tactic(auto)]

mod after_wrong;
mod doubts;
mod elsewhere;
mod heard;
pub mod laws;
mod logic;
mod pace;
mod plies;
mod presses;
mod recent;
mod silent;
mod since;
mod squares;
mod stood;
mod stopped_clock;
mod thinking;
mod unheard;
mod waited;
mod ways;

pub use after_wrong::{AfterWrong, first_of, some_moves};
pub use doubts::Doubts;
pub use elsewhere::{Played, seen};
pub use heard::{Doubt, Event, Gap, Heard, Place, Ply, Seen, Why};
pub use stopped_clock::{StoppedClock, Tried, runs};
