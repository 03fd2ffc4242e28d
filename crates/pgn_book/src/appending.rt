//! Bytes of a text to a watched stream.
ghost use Rattle.std.specs.Prelude.{◌≡◌};
ghost use Rattle.watched_streams.specs.Watch.{inner_of, has_failed};
ghost use Rattle.pgn_book.specs.Inside.Flow.{Adds};

use crate::place::Place;
use std::io::Write;
use watched_streams::{Watch, put};

/// Writes the bytes behind what came, unless the stream has failed.
pub fn add<W: Write>(out: &mut Watch<W>, at: &mut Place, bytes: &[u8])
    ensures adds { Adds (W.contents (inner_of out.old)) (W.contents (inner_of out.new)) (has_failed out.old)
        (has_failed out.new) at.old at.new bytes.now }
    ensures column { at.new.column ≡ at.old.column }
{
    if out.failed() {
        return;
    }
    match put(out, bytes) {
        Ok(()) => at.written = at.written.saturating_add(bytes.len() as u64),
        Err(fault) => at.written = at.written.saturating_add(fault.written),
    }
}
