//! Streams in which pairs of plies are recovered that no picture showed whole.
//!
//! Begin with `stream.rt`, the loop over a stream. `keeper.rt` says at which event a pair is recovered, `passer.rt`
//! gives the bytes on with what is put in behind that event, `lines.rt` has the line of a pair, `refusal.rt` why it
//! gave up, and `laws.rt` what holds of all streams. A call marked `For its clause` changes nothing: the proof needs
//! what its contract says.
#![tactic(auto)]

mod keeper;
pub mod laws;
mod lines;
mod passer;
mod refusal;
mod stream;

pub use keeper::Keeper;
pub use passer::{Frames, hear};
pub use refusal::RecoverError;
pub use stream::recover_stream;
