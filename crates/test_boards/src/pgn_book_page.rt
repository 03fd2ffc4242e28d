//! The example on the page of `pgn_book`.
ghost use Rattle.std.specs.Prelude.{◌≡◌, false};
ghost use Rattle.watched_streams.specs.Watch.{has_failed};

use chess_rules::Position;
use pgn_book::{Game, Tags, write_pgn};
use std::alloc::Global;
use std::io::Write;
use watched_streams::{Watch, WriteFault};

/// Writes a game without a move. The stream must not have failed.
fn write_empty<W: Write>(alloc: Global, out: &mut Watch<W>) -> Result<(), WriteFault>
    requires { has_failed out.old ≡ false }
{
    let game = Game::new(Tags::new(alloc), Position::initial(), Vec::new(alloc), None);
    write_pgn(&game, out)
}
