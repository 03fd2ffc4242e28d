//! The file of times beside a capture: when its bytes came, and what else happened at the board.
//!
//! `events.rt` has what stands in it, `writing.rt` its lines, `reading.rt` reads a whole file, whatever it has, `fitting.rt`
//! says whether it belongs to a capture, and `listing.rt` writes it for a person. Below are `lines.rt` and `words.rt`. `laws.rt` says that what is written reads back.
#![tactic(auto)]

mod events;
mod fitting;
pub mod laws;
mod lines;
mod listing;
mod reading;
mod words;
mod writing;

pub use events::{Event, Heading, What, event_of, line_of};
pub use fitting::{Fit, digest, fit_of};
pub use lines::{Line, Tail, add_line, read_line, split};
pub use listing::listing_of;
pub use reading::{Found, Kept, read_times};
pub use words::Word;
pub use writing::{event_text, heading_text};
