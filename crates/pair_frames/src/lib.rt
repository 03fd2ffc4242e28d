//! The frames that are put in behind an entry that confirmed a pair of plies. Begin with `frames.rt`; `laws.rt` has
//! what they do to a stream. A call marked `For its clause` changes nothing: the proof needs what its contract says.
#![tactic(auto)]

mod frames;
pub mod laws;

pub use frames::{MOST, fields_of, put_in, times_of};
