//! What `show`, `pictures`, `follow` and `watch` print of a stream of board bytes.
//!
//! Begin with `stream.rt`, the one loop for all four. `printer.rt` makes the lines of an event, with `events.rt` for
//! `show`, `pictures.rt` for `pictures`, `follower.rt` and `game_lines.rt` for `follow`, and over these `watcher.rt`,
//! `drawing.rt` and `watch_lines.rt` for `watch`. `laws.rt` has what the lines of `follow` and `watch` tell. A call
//! marked `For its clause` changes nothing: the proof needs what its contract says.
#![tactic(auto)]

mod drawing;
mod events;
mod follower;
mod game_lines;
pub mod laws;
mod listing;
mod pictures;
mod printer;
mod stream;
mod watch_lines;
mod watcher;

pub use listing::Listing;
pub use printer::add_first;
pub use stream::{ListError, list_stream};
pub use watcher::Watcher;
