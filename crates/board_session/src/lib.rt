//! Recordings: the game of a stream of board bytes, as PGN text, and what holds of the games of all lists of events and
//! of all streams.
//!
//! Begin with `recording.rt`, which records a stream, over `recorder.rt`; `refusal.rt` says why it gave up, and
//! `laws.rt` has what holds of all streams. A call marked `For its clause` changes nothing: the proof needs what its
//! contract says.
#![tactic(auto)]

pub mod laws;
mod recorder;
mod recording;
mod refusal;
mod report;

pub use recording::record;
pub use refusal::RecordError;
pub use report::Report;

// What a recording is set up with and takes events by: users of this crate find it here too.
pub use board_events::{Session, Setup, Taken};
