//! Frames of the DGT Electronic Board Protocol, both ways: messages, faults, and what time messages say of the clock.
//!
//! Begin with `events.rt`, what bytes show, and `decode.rt`, which takes them one by one; `whole.rt` takes a frame at
//! once where it lies whole. `encoding.rt` makes the frame of a message, and `time.rt` reads the clocks out of one.
//! `laws.rt` has what holds of all streams. A call marked `For its clause` changes nothing: the proof needs what its
//! contract says.
#![tactic(auto)]

pub mod decode;
pub mod encoding;
pub mod events;
pub mod laws;
pub mod time;
mod whole;

pub use decode::{BLANK, Decoder};
pub use encoding::encode;
pub use events::{Event, FaultKind, LIMIT, Message};
pub use time::{First, read_time};

// Whoever decodes a board's bytes needs these as well, so they can be had from here too.
pub use chess_clock::{Hms, Reading};
pub use watched_streams::Watch;
