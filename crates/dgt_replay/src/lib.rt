//! The subcommands of the program, over any streams.
//!
//! Begin with `program.rt`, which has `run`. `record.rt`, `recover.rt` and `live.rt` are the subcommands of these names, `edit.rt` has
//! `add` and `back`; `check`, `times`, `moves` and `positions` stand in `text_subcommands`. A call marked `For its clause` changes
//! nothing: the proof needs what its contract says.
#![tactic(auto)]

mod edit;
pub mod laws;
mod live;
mod program;
mod record;
mod recover;

pub use program::run;
