//! The times of a chess clock: that of one side (`Hms`), and those of both (`Reading`). All of it is in `times.rt`.
#![tactic(auto)]

mod times;

pub use times::{Hms, Reading};
