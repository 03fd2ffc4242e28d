//! Whether a game is over, from the events of its board and from news of its line and of its game: what they say is told to
//! `game_over`.
//!
//! Begin with `news.rt`: what comes. `endings.rt` takes it, and says how the game is over. `course.rt` has what is told of the moves,
//! `picture.rt` what is told of one picture, `judging.rt` what `game_over` says to it. `laws.rt` says what holds of each history. A
//! call marked `For its clause` changes nothing: the proof needs what its contract says.
#![tactic(auto)]

mod course;
mod endings;
mod judging;
pub mod laws;
mod news;
mod picture;

pub use endings::Endings;
pub use news::{End, News};
