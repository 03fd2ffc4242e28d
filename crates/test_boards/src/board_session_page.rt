//! The example on the page of `board_session`.
ghost use Rattle.std.specs.Prelude.{◌≡◌, false};
ghost use Rattle.watched_streams.specs.Watch.{has_failed};

use board_session::{RecordError, Report, Setup, record};
use chess_rules::Position;
use dgt_frame::First;
use pgn_book::Tags;
use std::alloc::Global;
use std::io::{Read, Write};
use watched_streams::Watch;

/// Records the game of a stream from the initial position. No stream may have failed.
fn record_plain<R: Read, B: Write, W: Write>(
    alloc: Global,
    reader: &mut Watch<R>,
    board: &mut Watch<B>,
    out: &mut Watch<W>,
) -> Result<Report, RecordError>
    requires reading { has_failed reader.old ≡ false }
    requires sending { has_failed board.old ≡ false }
    requires writing { has_failed out.old ≡ false }
{
    let setup = Setup {
        start: Position::initial(),
        first: First::White,
        rotated: false,
        tags: Tags::new(alloc),
    };
    record(alloc, setup, reader, board, out)
}
