//! One board that is recorded: its cable and its game, joined.
//!
//! Begin with `happened.rt`, which lists what happens, and `live.rt`, which takes it. `attending.rt` asks the cable, `hearing.rt`
//! gives the game what comes to it, `saying.rt` says which states are said, and `ending.rt` what is said of the game's end. `laws.rt` says what holds of each
//! history. A call marked `For its clause` changes nothing: the proof needs what its contract says.
#![tactic(auto)]

mod attending;
mod ending;
mod happened;
mod hearing;
pub mod laws;
mod live;
mod saying;

pub use happened::{Happened, What, stopped};
pub use live::{Answer, Live};
