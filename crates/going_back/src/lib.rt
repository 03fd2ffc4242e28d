//! A game that goes back to one of its plies, or gets other moves in place of its last ones: its new capture.
//!
//! Begin with `answering.rt`, which says what becomes of a capture by a text that says how far its game goes back, and
//! `replacing.rt`, which says it by a typed line of moves. `going.rt` makes the new capture, reads it again and compares;
//! `naming.rt` says which ply a text names, and `nearest.rt` which is near, where it names none; `placing.rt` says where a
//! line comes in, and `coming.rt` makes its moves plies. `fitting.rt` finds the changes that explain what the board shows, and
//! `proposing.rt` says the only one as an arbiter types it. `telling.rt` and `lines.rt` say the answers in a line.
//! `laws.rt` says what `record` makes of the new capture. A call marked `For its clause` changes nothing: the proof
//! needs what its contract says.
#![tactic(auto)]

mod answering;
mod coming;
mod fit;
mod fitting;
mod going;
pub mod laws;
mod lines;
mod naming;
mod nearest;
mod placing;
mod proposing;
mod replacing;
mod telling;

pub use answering::{Answer, back_to};
pub use fit::{Coming, Fit};
pub use fitting::only_fit;
pub use going::{BackError, Replacement, go_back, replace_plies};
pub use naming::plies_named;
pub use nearest::nearest_ply;
pub use proposing::say_fit;
pub use replacing::{Change, replace_by};
pub use telling::{Told, tell_back, tell_instead};
