//! Streams that remember whether a call on them has failed and whether something waits for a flush.
//!
//! Begin with `watched.rt`. `chunks.rt` reads such a stream up to a limit, `putting.rt` writes whole texts to one, and
//! `lines.rt` gathers lines until they are written.
#![tactic(auto)]

mod chunks;
mod lines;
mod putting;
mod watched;

pub use chunks::{CHUNK, ReadChunk, read_chunk};
pub use lines::{GATHERED, LONGEST, Lines, add, add_number};
pub use putting::{WriteFault, flush_unless_failed, put, put_and_flush};
pub use watched::Watch;
