//! How a board stands: what an arbiter reads of it first, from what was heard of it and when.
//!
//! Begin with `heard.rt`: what is heard, and what is read. `standing.rt` takes the one and says the other; `seen.rt`
//! is the part of it that the pictures decide. `laws.rt` says what holds of each history.
#![tactic(auto)]

mod heard;
pub mod laws;
mod seen;
mod standing;
mod state;

pub use heard::{Event, Heard, Picture};
pub use standing::Standing;
pub use state::{Hint, Kind, State};
