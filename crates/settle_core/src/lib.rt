//! Settling: which moves the pictures of a board show.
//!
//! Begin with `settler.rt`, which takes pictures and keeps the line that they show. It asks `compared.rt` which move a
//! picture settles, which `candidate.rt` reads off two pictures, over `masks.rt` and `codes.rt`, which are lent to
//! others; `signs.rt` knows the sign of a result. `plies.rt` has what is answered, `laws.rt` what holds of all games.
//! A call marked `For its clause` changes nothing: the proof needs what its contract says.
#![tactic(auto)]

mod candidate;
pub mod codes;
mod compared;
pub mod laws;
pub mod masks;
mod plies;
mod settler;
mod signs;

pub use plies::{Outcome, Ply, Seen};
pub use settler::Settler;
