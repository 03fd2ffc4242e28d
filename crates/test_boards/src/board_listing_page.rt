//! The example on the page of `board_listing`.
ghost use Rattle.std.specs.Prelude.{◌≡◌, false};
ghost use Rattle.watched_streams.specs.Watch.{has_failed};

use board_listing::{ListError, Listing, list_stream};
use std::alloc::Global;
use std::io::{Read, Write};
use watched_streams::Watch;

/// Writes the placement of each picture of a stream. Neither stream may have failed.
fn list_pictures<R: Read, O: Write>(
    alloc: Global,
    reader: &mut Watch<R>,
    out: &mut Watch<O>,
) -> Result<(), ListError>
    requires reading { has_failed reader.old ≡ false }
    requires working { has_failed out.old ≡ false }
{
    list_stream(alloc, Listing::Pictures { rotated: false }, reader, out)
}
