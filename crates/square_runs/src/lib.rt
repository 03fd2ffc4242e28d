//! Since when each square has been in the masks that came one after the other, and how long that has lasted.
//!
//! A mask has bit n for square n. Begin with `runs.rt`, which takes the masks with their times. `lasting.rt` says how long
//! one thing has lasted, `masks.rt` what is done with masks; `laws.rt` says what it means that something has held.
#![tactic(auto)]

mod lasting;
pub mod laws;
mod masks;
mod runs;

pub use lasting::{carried, lasted, sooner};
pub use masks::{first_square, has_any, with_if, without};
pub use runs::Runs;
