//! One game's capture, from its bytes and the times at which they came: the lines of `watch`, with the pairs of plies that
//! `recover` finds, and how the board stands.
//!
//! Begin with `game.rt`, which takes bytes and says what they tell. It decodes them; `following.rt` puts in the events of
//! recovered pairs; `telling.rt` makes the lines of each event, and tells how the board stands what is heard of it, by
//! `pictures.rt`. `ending.rt` tells how the game ends; `note.rt` has what isn't in the bytes.
//! `laws.rt` says what holds of each history. A call marked `For its clause` changes nothing: the proof needs what its contract says.
#![tactic(auto)]

mod ending;
mod following;
mod game;
pub mod laws;
mod note;
mod pictures;
mod telling;

pub use game::Game;
pub use note::Note;
