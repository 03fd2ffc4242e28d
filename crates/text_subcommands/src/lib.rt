//! The subcommands that read no board: `check`, `times`, `moves` and `positions`, over any streams, and what is said of
//! refusals.
//!
//! Begin with `printing.rt`, which has `moves`; `checking.rt` has `check`, `timing.rt` `times`, and `playing.rt` `positions`. `input.rt`
//! reads a whole input, and `messages.rt` writes answers, and says why something is refused, also for the subcommands
//! that read a board.
#![tactic(auto)]

mod checking;
mod input;
mod messages;
mod playing;
mod printing;
mod timing;

pub use checking::{TEXT_LIMIT, check};
pub use input::{TextError, read_text};
pub use messages::{put_answer, refused, refused_fen, refused_run, refused_tag};
pub use playing::{LINE_LIMIT, positions};
pub use printing::moves;
pub use timing::{TIMES_LIMIT, times};
