//! The example on the page of `watched_streams`.
ghost use Rattle.std.specs.Prelude.{◌≡◌, false};
ghost use Rattle.watched_streams.specs.Watch.{has_failed};

use std::io::Write;
use watched_streams::{Lines, Watch, add, add_number, put_and_flush};

/// Writes a line with a number and sends it on its way. False where a call has failed. The stream must not have failed
/// before.
fn tell<W: Write>(out: &mut Watch<W>, ply: u32) -> bool
    requires { has_failed out.old ≡ false }
{
    let mut lines = Lines::new();
    add(&mut lines, b"ply ");
    add_number(&mut lines, ply);
    add(&mut lines, b"\n");
    put_and_flush(out, lines.as_slice())
}
