//! The example on the page of `text_subcommands`.
ghost use Rattle.std.specs.Prelude.{◌≡◌, false};
ghost use Rattle.watched_streams.specs.Watch.{has_failed};

use std::alloc::Global;
use std::io::Write;
use text_subcommands::moves;
use watched_streams::Watch;

/// Writes the first moves of a game, one a line; the exit status. The output must not have failed.
fn first_moves<O: Write, E: Write>(alloc: Global, out: &mut Watch<O>, err: &mut Watch<E>) -> u8
    requires { has_failed out.old ≡ false }
{
    moves(alloc, None, out, err)
}
