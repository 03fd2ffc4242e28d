//! What a host tells a recorder that is a child of it, line by line, and what the recorder answers.
//!
//! `entries.rt` has what is told, and `next.rt` reads the next entry of what came so far. `recorder.rt` takes it: `clock.rt` counts
//! on from one call to the next, `meaning.rt` says what an entry is to the board, and `answers.rt` writes what is answered, most of
//! it by `answer_lines`; `explaining.rt` says what explains a board that is wrong, and `text.rt` makes the text of the game. `history.rt` tells a board what was kept of the calls before. `stream.rt` does all of it over streams.
//! `laws.rt` says that what is told and what is answered are read in one way, and that times go on.
#![tactic(auto)]

mod answers;
mod clock;
mod entries;
mod explaining;
mod history;
pub mod laws;
mod meaning;
mod next;
mod recorder;
mod stream;
mod text;

pub use answers::add_answer;
pub use clock::Clock;
pub use entries::{Entry, What, entry_line};
pub use next::{Next, Told, next_entry};
pub use recorder::Recorder;
pub use stream::{AttendError, attend};
