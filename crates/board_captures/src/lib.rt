//! Captures: the bytes of a board, read as `record` reads them, and made as a board would send them.
//!
//! Begin with `reading.rt`, which reads a capture into its game; `showing.rt` makes the bytes that show plies with their
//! clocks, and then a board. A call marked `For its clause` changes nothing: the proof needs what its contract says.
#![tactic(auto)]

mod reading;
mod showing;

pub use reading::{CaptureError, Captured, Method, read_capture};
pub use showing::{add_board, add_dump, add_plies, add_time, show_game};
