//! Recordings: the game of a stream of board bytes, as PGN text.
ghost use Rattle.std.specs.Prelude.{◌≡◌, ◌≢◌, ◌⊎◌, OnOk, IfOk, Err, true, false};
ghost use Rattle.watched_streams.specs.Watch.{IsFlushed, inner_of, has_failed};
ghost use Rattle.board_session.specs.Recording.{RecordingLeaves, RecordsAll};

use crate::recorder::Recorder;
use crate::refusal::RecordError;
use crate::report::Report;
use board_events::Setup;
use pgn_book::laws::one_game;
use std::alloc::Global;
use std::io::{Read, Write};
use watched_streams::Watch;

/// Records the game of a stream of board bytes (DGT Electronic Board Protocol) as PGN export text on `out`.
///
/// The board is asked for a dump and for field updates, and for a dump again after each fault. Each event is taken
/// before the byte after it is decoded. Memory is taken only where a ply is appended. Whatever ends the reading, the
/// text of the events taken so far is written; `board` and `out` are flushed. At most 67,108,865 bytes are read, the
/// last one only to see that there are more than a stream may have.
///
/// # Errors
///
/// `Memory`, `Read`, `Board` and `TooLong` say what ended the reading early; then the whole text of the events taken
/// stands. `Write` says that a write or the flush failed: a first part of the text stands, perhaps all of it.
pub fn record<R: Read, B: Write, W: Write>(
    alloc: Global,
    setup: Setup,
    reader: &mut Watch<R>,
    board: &mut Watch<B>,
    out: &mut Watch<W>,
) -> Result<Report, RecordError>
    requires reading { has_failed reader.old ≡ false }
    requires sending { has_failed board.old ≡ false }
    requires writing { has_failed out.old ≡ false }

    // The whole stream is recorded: the text of its game is written, and of no other game.
    ensures all { IfOk result (λ report. RecordsAll setup report (R.remaining (inner_of reader.old))
        (B.contents (inner_of board.old)) (B.contents (inner_of board.new)) (W.contents (inner_of out.old))
        (W.contents (inner_of out.new))) }

    // Whatever is returned, this was read, sent and written.
    ensures leaves { RecordingLeaves setup result (R.remaining (inner_of reader.old)) (R.remaining (inner_of reader.new))
        (B.contents (inner_of board.old)) (B.contents (inner_of board.new)) (W.contents (inner_of out.old))
        (W.contents (inner_of out.new)) }

    // A stream is blamed only where it has failed.
    ensures ok { OnOk result ((has_failed reader.new ≡ false) × (has_failed board.new ≡ false) × (has_failed out.new ≡ false)) }
    ensures read { result ≡ Err RecordError.Read → has_failed reader.new ≡ true }
    ensures board { result ≡ Err RecordError.Board → has_failed board.new ≡ true }
    ensures write { result ≡ Err RecordError.Write → has_failed out.new ≡ true }

    // And each stream that has failed is blamed: the output whatever else has failed, else the reader or the board.
    ensures written { result ≢ Err RecordError.Write → has_failed out.new ≡ false }
    ensures reader_blamed { has_failed reader.new ≡ true → (result ≡ Err RecordError.Read) ⊎ (result ≡ Err RecordError.Write) }
    ensures board_blamed { has_failed board.new ≡ true → (result ≡ Err RecordError.Board) ⊎ (result ≡ Err RecordError.Write) }

    // Nothing waits for a flush on a stream that works: each request has left, and so has the text.
    ensures flushed { IsFlushed board.new × IsFlushed out.new }
{
    // For its clause: the text's game is the only one, since no two games have one text.
    one_game();
    let Setup {
        start,
        first,
        rotated,
        tags,
    } = setup;
    let mut recorder = Recorder::new(alloc, start, first, rotated);
    let ending = recorder.listen(reader, board);
    recorder.finish(tags, ending, out)
}
