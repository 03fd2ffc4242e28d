//! What a typed line adds to a capture: the bytes that show its moves or its result, which are tried behind the capture.
//!
//! Begin with `adding.rt`, which reads the capture and the line; `making.rt` makes the bytes, and `trying.rt` reads the
//! capture with them. `signs.rt` has the kings' sign of a result, `lines.rt` the line
//! that says what was done.
#![tactic(auto)]

mod adding;
mod lines;
mod making;
mod signs;
mod trying;

pub use adding::{Answer, Reason, add_line};
pub use lines::line_of;
