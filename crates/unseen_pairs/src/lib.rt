//! Unseen pairs: two plies of which no picture was whole, and the next move, or the kings, that confirm them.
//!
//! Begin with `recoverer.rt`, which takes pictures. `beginning.rt` lists the plies with which a pair may begin,
//! `explaining.rt` finds the pairs that explain a picture, over `settled.rt`, and `explained.rt` says whether there are any; `waiting.rt` keeps them, and
//! `confirming.rt` says which of them a later picture confirms, over `evidence.rt`. `pair.rt` has what is answered,
//! `laws.rt` what holds of all games. A call marked `For its clause` changes nothing: the proof needs what its contract
//! says.
#![tactic(auto)]

mod beginning;
mod confirming;
mod evidence;
mod explained;
mod explaining;
pub mod laws;
mod pair;
mod recoverer;
mod settled;
mod waiting;

pub use explained::is_explained;
pub use explaining::pairs_that_explain;
pub use pair::{Pair, Recovery, SeenOrFound, SeenOrRecovered, TwoPlies};
pub use recoverer::Recoverer;
pub use settled::settled_in;
