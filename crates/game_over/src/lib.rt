//! Whether a recorded game is over, with which result, and how many bytes of its capture are the game's.
//!
//! Begin with `happened.rt`, which lists what happens, and `said.rt`, which lists what is said to it. `ending.rt` takes the one and
//! says the other; `moves.rt` keeps the moves, with how long each stood; `result.rt` has the result that stands. Where a game without a
//! result ended, `unfinished.rt` says, by what `made.rt` knows of each move; `again.rt` says whether the start is shown again. The
//! definitions look back over all that has happened; `laws.rt` says what holds of them.
#![tactic(auto)]

mod again;
mod ending;
mod happened;
pub mod laws;
mod made;
mod moves;
mod result;
mod said;
mod unfinished;

pub use again::StartAgain;
pub use ending::Ending;
pub use happened::{Event, Happening, Move, Outcome, Shown};
pub use made::Made;
pub use said::{Over, Said, Why};
pub use unfinished::{End, end_of};
