//! The example on the page of `replay_arguments`.

use board_events::Setup;
use replay_arguments::{Subcommand, read_arguments, setup_of};
use std::alloc::Global;

/// The setup of a recording, where these arguments ask for one.
fn setup_in(alloc: Global, arguments: &[String]) -> Option<Setup> {
    match read_arguments(alloc, arguments) {
        Ok(Subcommand::Record(options)) => setup_of(alloc, &options).ok(),
        _ => None,
    }
}
