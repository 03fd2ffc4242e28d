//! Which alarms of a game are open, from the events of its board and from news of its line and of its game.
//!
//! Begin with `chunk.rt` and `news.rt`, what comes, and `look.rt`, what is told of it and what is an alarm. `looks.rt` takes what is told
//! and keeps the alarms. `alarms.rt` takes what comes. `event_heard.rt` tells what is heard of one event: of the time before it by
//! `line.rt`, of pictures and plies by `course.rt`, of the clock by `clock.rt`. `laws.rt` says what holds of each history.
//! A call marked `For its clause` changes nothing: the proof needs what its contract says.
#![tactic(auto)]

mod alarms;
mod chunk;
mod clock;
mod course;
mod event_heard;
pub mod laws;
mod line;
mod look;
mod looks;
mod news;

pub use alarms::Alarms;
pub use chunk::{Chunk, When};
pub use look::Look;
pub use news::{News, Sight};
