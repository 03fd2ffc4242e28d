//! The example on the page of `dgt_replay`.

use dgt_replay::run;
use std::alloc::Global;
use std::io::{Read, Write};
use watched_streams::Watch;

/// The program over these streams; its status.
fn status_of<R: Read + Drop, O: Write + Drop, E: Write + Drop>(
    alloc: Global,
    arguments: &[String],
    reader: R,
    out: O,
    err: E,
) -> u8 {
    let mut reader = Watch::new(reader);
    let mut out = Watch::new(out);
    let mut err = Watch::new(err);
    run(alloc, arguments, &mut reader, &mut out, &mut err)
}
