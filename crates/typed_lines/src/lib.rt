//! What an arbiter types in one line: a result, moves, or `*`.
//!
//! Begin with `reading.rt`, which reads a line over `spelling.rt`, which knows how a move may be typed. `words.rt` has a
//! line's words, `numbers.rt` their move numbers, `letters.rt` the bytes by which words are compared, `results.rt` the spellings of results, and
//! `telling.rt` the line about what a line says.
#![tactic(auto)]

mod letters;
mod numbers;
mod reading;
mod results;
mod spelling;
mod telling;
mod words;

pub use numbers::begins_at;
pub use reading::{Typed, Word, read_line, read_word};
pub use spelling::{Manner, Way};
pub use telling::{joined, said_line};
