//! Games of chess: the tags that a user sets, and a legal line of plies with its tags and its result.
//!
//! Begin with `game.rt`; `tags.rt` keeps the values of the tags, and `values.rt` says which values they may have. How a
//! game is written is `pgn_book`'s. A call marked `For its clause` changes nothing: the proof needs what its contract
//! says.
#![tactic(auto)]

mod game;
mod tags;
mod values;

pub use game::{Game, result_at};
pub use tags::Tags;
pub use values::{Tag, TagError};
