//! Streams that are given on, with what is put in.
ghost use Rattle.std.specs.Prelude.{◌≡◌, ◌≢◌, ◌<◌, ◌≤◌, ◌+◌, ◌^◌, ◌++◌, [], length, IfErr, OnOk, OnErr, Err, true, false};
ghost use Rattle.std.specs.Io.KnownBytes.{Appends};
ghost use Rattle.watched_streams.specs.Watch.{IsFlushed, inner_of, has_failed};
ghost use Rattle.watched_streams.specs.Input.{ReadsWithin};
ghost use Rattle.watched_streams.specs.Output.{AppendsPart};
ghost use Rattle.board_events.specs.Settings.{Setting};
ghost use Rattle.recovery.specs.Inside.Progress.{BreaksOff, PassesOn, HasBegun, IsPutIn, PutsPart};
ghost use Rattle.recovery.specs.Streams.{RecoversAll, RecoversFirst, RecoversFront, RecoversRead, RecoversSome};

use crate::keeper::Keeper;
use crate::passer::{Frames, begin, conclude, pass};
use crate::refusal::RecoverError;
use chess_rules::Position;
use dgt_frame::{BLANK, Decoder, First, LIMIT};
use std::alloc::Global;
use std::io::{Read, Write};
use watched_streams::{CHUNK, Lines, Watch, put, put_and_flush, read_chunk};

/// Writes bytes at once.
fn send<O: Write>(out: &mut Watch<O>, bytes: &[u8]) -> Result<(), RecoverError>
    requires { has_failed out.old ≡ false }
    ensures ok { OnOk result (Appends (O.contents (inner_of out.old)) (O.contents (inner_of out.new)) bytes.now) }
    ensures working { OnOk result (has_failed out.new ≡ false) }
    ensures part { OnErr result (AppendsPart (O.contents (inner_of out.old)) (O.contents (inner_of out.new)) bytes.now) }
    ensures failed { OnErr result (has_failed out.new ≡ true) }
    ensures cause { IfErr result (λ error. error ≡ RecoverError.Write) }
    ensures flushed { IsFlushed out.new }
{
    if !put_and_flush(out, bytes) {
        return Err(RecoverError::Write);
    }
    Ok(())
}

/// Tells the line of a pair, and then writes the bytes that wait and its frames.
fn put_pair<O: Write, E: Write>(
    waiting: &[u8],
    frames: &Frames,
    line: &Lines,
    out: &mut Watch<O>,
    err: &mut Watch<E>,
) -> Result<(), RecoverError>
    requires working { has_failed out.old ≡ false }
    requires telling { has_failed err.old ≡ false }
    ensures written { OnOk result (Appends (O.contents (inner_of out.old)) (O.contents (inner_of out.new))
        (waiting.now ++ frames.now.items)) }
    ensures said { OnOk result (Appends (E.contents (inner_of err.old)) (E.contents (inner_of err.new)) line.now.items) }
    ensures working { OnOk result ((has_failed out.new ≡ false) × (has_failed err.new ≡ false)) }
    ensures part { IfErr result (λ error. PutsPart error (waiting.now ++ frames.now.items) line.now.items
        (O.contents (inner_of out.old)) (O.contents (inner_of out.new)) (E.contents (inner_of err.old)) (E.contents (inner_of err.new))) }
    ensures write { result ≡ Err RecoverError.Write → (has_failed out.new ≡ true) × (has_failed err.new ≡ false) }
    ensures lines { result ≡ Err RecoverError.Lines → (has_failed err.new ≡ true) × (has_failed out.new ≡ false) }
    ensures told { IsFlushed err.new }
{
    if !put_and_flush(err, line.as_slice()) {
        return Err(RecoverError::Lines);
    }
    let unsent = put(out, waiting).is_err();
    if unsent {
        return Err(RecoverError::Write);
    }
    let unframed = put(out, frames.as_slice()).is_err();
    if unframed {
        return Err(RecoverError::Write);
    }
    Ok(())
}

/// Gives on a chunk of a stream, whose first byte has this offset, with what is put in among its bytes.
fn give_chunk<O: Write, E: Write>(
    alloc: Global,
    decoder: &mut Decoder,
    keeper: &mut Keeper,
    start: u32,
    chunk: &[u8],
    out: &mut Watch<O>,
    err: &mut Watch<E>,
) -> Result<(), RecoverError>
    requires working { has_failed out.old ≡ false }
    requires telling { has_failed err.old ≡ false }
    requires room { start + length chunk.now < 2 ^ 32 }
    requires begun { HasBegun decoder.old keeper.old start }
    ensures ok { OnOk result (PassesOn decoder.old keeper.old start chunk.now decoder.new keeper.new [] (O.contents (inner_of out.old))
        (O.contents (inner_of out.new))
        (E.contents (inner_of err.old)) (E.contents (inner_of err.new))) }
    ensures working { OnOk result ((has_failed out.new ≡ false) × (has_failed err.new ≡ false)) }
    ensures broken { IfErr result (λ error. BreaksOff error decoder.old keeper.old start chunk.now (O.contents (inner_of out.old))
        (O.contents (inner_of out.new))
        (E.contents (inner_of err.old)) (E.contents (inner_of err.new))) }
    ensures write { result ≡ Err RecoverError.Write → (has_failed out.new ≡ true) × (has_failed err.new ≡ false) }
    ensures lines { result ≡ Err RecoverError.Lines → (has_failed err.new ≡ true) × (has_failed out.new ≡ false) }
    ensures memory { result ≡ Err RecoverError.Memory → (has_failed err.new ≡ false) × (has_failed out.new ≡ false) }
    ensures flushed { result ≢ Err RecoverError.Lines → IsFlushed out.new }
    ensures told { IsFlushed err.old → IsFlushed err.new }
{
    let mut frames = Frames::new();
    let mut line = Lines::new();
    let mut event = BLANK;
    let mut taken = 0;
    let mut sent = 0;
    'events: loop {
        let offset = start + taken as u32;
        let Ok(passed) = pass(
            alloc,
            decoder,
            keeper,
            offset,
            &chunk[taken..],
            &mut frames,
            &mut line,
            &mut event,
        ) else {
            return match send(out, &chunk[sent..taken]) {
                Ok(()) => Err(RecoverError::Memory),
                Err(error) => Err(error),
            };
        };
        let Some(more) = passed else {
            // For its clause: what the bytes given so far show.
            conclude(decoder, keeper);
            return send(out, &chunk[sent..]);
        };
        taken += more;
        if line.is_empty() {
            continue;
        }
        if let Err(error) = put_pair(&chunk[sent..taken], &frames, &line, out, err) {
            // For its clause: what the bytes given so far show.
            conclude(decoder, keeper);
            return Err(error);
        }
        sent = taken;
    }
}

/// Gives on a stream of board bytes (DGT Electronic Board Protocol), with the frames of pairs of plies that no picture
/// showed whole put in behind the bytes at which they are recovered. The line of a pair is told on `err` before its
/// frames are written.
///
/// With `rotated`, field n means square 63 - n. What was read in one go is given on and flushed before more is read.
/// Memory is taken for plies, for moves with which a pair may begin, and for pairs that explain a picture. At most
/// 67,108,865 bytes are read, the last one only to see that there are more than a stream may have. No stream may have
/// failed before.
///
/// # Errors
///
/// - `Read`: a read failed. All bytes before it were given on.
/// - `TooLong`: there are more than 67,108,864 bytes. The first 67,108,864 were given on.
/// - `Memory`: memory ran out at an event that shows another picture. First bytes that show all events before it, and
///   not
///   it, were given on, with what is put in among them.
/// - `Write`: a write of the bytes failed or took no byte, or their flush failed. A first part was written of what some
///   first
///   bytes give, and the lines of all pairs in it were told.
/// - `Lines`: a write of a line failed or took no byte, or its flush failed. The bytes are as under `Write`; of the
///   line that
///   failed, a part may be told.
pub fn recover_stream<R: Read, O: Write, E: Write>(
    alloc: Global,
    start: Position,
    first: First,
    rotated: bool,
    reader: &mut Watch<R>,
    out: &mut Watch<O>,
    err: &mut Watch<E>,
) -> Result<(), RecoverError>
    requires reading { has_failed reader.old ≡ false }
    requires working { has_failed out.old ≡ false }
    requires telling { has_failed err.old ≡ false }
    ensures ok { OnOk result (RecoversAll (record { start = start; first = first; rotated = rotated }) (R.remaining (inner_of reader.old))
        (O.contents (inner_of out.old)) (O.contents (inner_of out.new)) (E.contents (inner_of err.old)) (E.contents (inner_of err.new))) }

    // Before a read nobody knows whether it will fail, and after one that failed nothing may be written. So each read
    // begins with all bytes before it given on.
    ensures read { result ≡ Err RecoverError.Read → RecoversRead (record { start = start; first = first; rotated = rotated })
        (R.remaining (inner_of reader.old)) (R.remaining (inner_of reader.new))
        (O.contents (inner_of out.old)) (O.contents (inner_of out.new)) (E.contents (inner_of err.old)) (E.contents (inner_of err.new)) }
    ensures long { result ≡ Err RecoverError.TooLong
        → RecoversFirst (record { start = start; first = first; rotated = rotated }) (R.remaining (inner_of reader.old))
        (O.contents (inner_of out.old)) (O.contents (inner_of out.new)) (E.contents (inner_of err.old)) (E.contents (inner_of err.new)) }
    ensures memory { result ≡ Err RecoverError.Memory → RecoversSome (record { start = start; first = first; rotated = rotated })
        (R.remaining (inner_of reader.old)) (R.remaining (inner_of reader.new))
        (O.contents (inner_of out.old)) (O.contents (inner_of out.new)) (E.contents (inner_of err.old)) (E.contents (inner_of err.new)) }

    // Whatever is returned, nothing but a front of the bytes with what is put in is ever written, and no frame without
    // its line.
    ensures front { RecoversFront (record { start = start; first = first; rotated = rotated }) (R.remaining (inner_of reader.old))
        (R.remaining (inner_of reader.new))
        (O.contents (inner_of out.old)) (O.contents (inner_of out.new)) (E.contents (inner_of err.old)) (E.contents (inner_of err.new))
        (has_failed err.new) }
    ensures bounded { ReadsWithin LIMIT (R.remaining (inner_of reader.old)) (R.remaining (inner_of reader.new)) }

    // A stream is blamed where it has failed, and only there.
    ensures whole { OnOk result ((has_failed reader.new ≡ false) × (has_failed out.new ≡ false) × (has_failed err.new ≡ false)) }
    ensures reading { result ≡ Err RecoverError.Read → has_failed reader.new ≡ true }
    ensures working { result ≡ Err RecoverError.Write → has_failed out.new ≡ true }
    ensures telling { result ≡ Err RecoverError.Lines → has_failed err.new ≡ true }
    ensures reader_blamed { has_failed reader.new ≡ true → result ≡ Err RecoverError.Read }
    ensures out_blamed { has_failed out.new ≡ true → result ≡ Err RecoverError.Write }
    ensures err_blamed { has_failed err.new ≡ true → result ≡ Err RecoverError.Lines }

    // Nothing waits for a flush on a stream that works, so each read begins with all that was written flushed. Where a
    // line could not be told, the pairs of its chunk that were put in before it may wait.
    ensures flushed { result ≢ Err RecoverError.Lines → IsFlushed out.old → IsFlushed out.new }
    ensures told { IsFlushed err.old → IsFlushed err.new }
{
    let mut decoder = Decoder::new();
    let mut keeper = Keeper::new(alloc, start, first, rotated);
    // For its clause: nothing was given yet.
    begin(&decoder, &keeper);
    let mut buffer = [0u8; CHUNK];
    let mut total: u32 = 0;
    'chunks: loop {
        let Ok(read) = read_chunk(reader, &mut buffer, (LIMIT - total) as usize) else {
            // For its clause: what the bytes given so far show.
            conclude(&decoder, &keeper);
            return Err(RecoverError::Read);
        };
        let Some(chunk) = read else {
            // For its clause: what the bytes given so far show.
            conclude(&decoder, &keeper);
            return Ok(());
        };
        let bytes = &buffer[..chunk.within];
        if let Err(error) = give_chunk(alloc, &mut decoder, &mut keeper, total, bytes, out, err) {
            return Err(error);
        }
        if chunk.past {
            // For its clause: what the bytes given so far show.
            conclude(&decoder, &keeper);
            return Err(RecoverError::TooLong);
        }
        total += chunk.within as u32;
    }
}
