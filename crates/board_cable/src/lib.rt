//! What happens at a board's cable, with its times and bytes: when the board is asked, whether it is silent, whose board it is, and
//! which of its bytes the game gets.
//!
//! Begin with `happened.rt`, which lists what happens, and `cable.rt`, which takes it. `frames.rt` says what a board's frames tell
//! of its line, `back.rt` what is kept back until it is known whose board has sent it. `line.rt` lists what is told of the line,
//! and `asking.rt` takes it: `pace.rt` says when the board is asked, `starting.rt` whether for updates too, `silence.rt` when it is
//! silent, `whose.rt` whether it is the game's board. The definitions look back over all that has happened; `laws.rt` says what
//! holds of them. A call marked `For its clause` changes nothing: the proof needs what its contract says.
#![tactic(auto)]

mod asking;
mod back;
mod cable;
mod frames;
mod happened;
mod lasting;
pub mod laws;
mod line;
mod pace;
mod serial;
mod silence;
mod starting;
mod whose;

pub use asking::Asking;
pub use cable::{Answer, Cable};
pub use happened::{Happened, What};
pub use line::{Event, Happening, Request};
pub use serial::serial_in;
pub use whose::Handling;
