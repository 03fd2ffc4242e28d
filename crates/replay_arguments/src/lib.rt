//! The command line of the program: what its arguments ask for, and the setup of a recording.
//!
//! Begin with `arguments.rt`, which reads them by the command of `command.rt`. `setup.rt` sets a recording up.
//! `laws.rt` has what arguments without options ask for.
#![tactic(auto)]

mod arguments;
mod command;
pub mod laws;
mod setup;
mod tag_options;

pub use arguments::{
    BoardArguments, EditArguments, LiveArguments, RecordArguments, Subcommand, read_arguments,
};
pub use setup::{Refusal, setup_of};
