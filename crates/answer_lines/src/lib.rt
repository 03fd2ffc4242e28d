//! What a recorder answers to one event, as the lines that a host reads.
//!
//! `said.rt` has what is said, and `writing.rt` writes it; `looks.rt` writes alarms, which stand before it, and `ends.rt` how a game ends. `laws.rt` says that the lines
//! are read in one way.
#![tactic(auto)]

mod ends;
pub mod laws;
mod looks;
mod said;
mod writing;

pub use ends::add_end;
pub use looks::add_looks;
pub use said::Said;
pub use writing::add_answer;
