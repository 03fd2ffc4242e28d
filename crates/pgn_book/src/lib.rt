//! Games as PGN export text (PGN Specification and Implementation Guide, 1994), both ways. What a game is, is
//! `chess_game`'s.
//!
//! Begin with `writing.rt`, which writes a game, over `place.rt` and `appending.rt`; `reading.rt` reads one, over
//! `sections.rt` (tags) and `words.rt` (moves). `laws.rt` has what holds of all games. A call marked `For its clause`
//! changes nothing: the proof needs what its contract says.
#![tactic(auto)]

mod appending;
pub mod laws;
mod parts;
mod place;
mod reading;
mod sections;
mod words;
mod writing;

pub use reading::{PgnError, read_pgn};
pub use writing::{result_str, write_pgn};

// What is written and read; what `write_pgn` returns, and what it writes with: callers find all of it here.
pub use chess_game::{Game, Tag, TagError, Tags, result_at};
pub use watched_streams::{WriteFault, put};
