//! Streams to lines: the subcommands `show`, `pictures`, `follow` and `watch`.
ghost use Rattle.std.specs.Prelude.{◌≡◌, ◌<◌, ◌≤◌, ◌+◌, ◌^◌, [], length, IfErr, OnOk, OnErr, Err, true, false};
ghost use Rattle.std.specs.Io.KnownBytes.{Appends};
ghost use Rattle.dgt_frame.specs.Streams.{HasFrame};
ghost use Rattle.watched_streams.specs.Watch.{inner_of, has_failed};
ghost use Rattle.watched_streams.specs.Input.{ReadsWithin};
ghost use Rattle.board_listing.specs.Listings.{ListsAll, ListsFirst, ListsFront, ListsRead, ListsRefused, WritesFront, first_line};
ghost use Rattle.arrayvec.specs.ArrayVec.{array_vec_len};
ghost use Rattle.board_listing.specs.Inside.Printers.{HasBegun};
ghost use Rattle.board_listing.specs.Inside.Progress.{BreaksLines, BreaksOff, FinishBreaksOff, Finishes, GathersEvent, HasTaken, ListsChunk};
ghost use Rattle.board_listing.specs.Status.{status_of, message_of};

use crate::listing::Listing;
use crate::printer::{Printer, add_first};
use crate::watch_lines::ROOM;
use dgt_frame::{BLANK, Decoder, Event, LIMIT};
use std::alloc::Global;
use std::io::{Read, Write};
use watched_streams::{CHUNK, GATHERED, Lines, Watch, WriteFault, put, read_chunk};

/// Why a listing gave up.
#[derive(Clone, Copy, Debug, PartialEq, Eq)]
pub enum ListError {
    /// A read failed; one that was interrupted counts as failed.
    Read,
    /// A write failed or took no byte.
    Write,
    /// The stream has more than 67,108,864 bytes.
    TooLong,
    /// There was no memory for a move.
    Memory,
}

impl ListError {
    /// What the program says of it.
    pub fn line(self) -> &'static [u8]
        ensures { result.now ≡ message_of self }
    {
        match self {
            ListError::Read => b"read fault\n",
            ListError::Write => b"write fault\n",
            ListError::TooLong => b"input: too long\n",
            ListError::Memory => b"memory\n",
        }
    }

    /// The exit status that tells of it.
    pub fn status(self) -> u8
        ensures { result ≡ status_of self }
    {
        match self {
            ListError::Read | ListError::Write => 3,
            ListError::TooLong => 1,
            ListError::Memory => 4,
        }
    }
}

/// Adds the lines of an event, and writes those that wait where there is no room for another's. Where memory runs out,
/// those of the events before it are written.
fn gather<O: Write>(
    printer: &mut Printer,
    lines: &mut Lines,
    offset: u32,
    event: &Event,
    out: &mut Watch<O>,
) -> Result<(), ListError>
    requires working { has_failed out.old ≡ false }
    requires frame { HasFrame event.now }
    requires begun { HasBegun printer.old }
    requires room { array_vec_len lines.old + ROOM ≤ GATHERED }
    ensures ok { OnOk result (GathersEvent printer.old (O.contents (inner_of out.old)) lines.old.items (record { offset = offset; event = event.now })
        printer.new (O.contents (inner_of out.new)) lines.new.items) }
    ensures room { OnOk result (array_vec_len lines.new + ROOM ≤ GATHERED) }
    ensures begun { OnOk result (HasBegun printer.new) }
    ensures working { OnOk result (has_failed out.new ≡ false) }
    ensures broken { IfErr result (λ error. BreaksLines printer.old (O.contents (inner_of out.old)) lines.old.items
        (record { offset = offset; event = event.now }) error (O.contents (inner_of out.new))) }
    ensures failed { result ≡ Err ListError.Write → has_failed out.new ≡ true }
{
    if printer.add(lines, offset, event).is_err() {
        return match put(out, lines.as_slice()) {
            Ok(()) => Err(ListError::Memory),
            Err(_) => Err(ListError::Write),
        };
    }
    if lines.len() + ROOM > GATHERED {
        if put(out, lines.as_slice()).is_err() {
            return Err(ListError::Write);
        }
        lines.clear();
    }
    Ok(())
}

/// Gives the decoder a chunk of the stream, and writes the lines of its events.
fn list_chunk<O: Write>(
    decoder: &mut Decoder,
    printer: &mut Printer,
    start: u32,
    chunk: &[u8],
    out: &mut Watch<O>,
) -> Result<(), ListError>
    requires working { has_failed out.old ≡ false }
    requires room { start + length chunk.now < 2 ^ 32 }
    requires taken { HasTaken decoder.old start }
    requires begun { HasBegun printer.old }
    ensures ok { OnOk result (ListsChunk decoder.old printer.old start chunk.now decoder.new printer.new
        (O.contents (inner_of out.old)) (O.contents (inner_of out.new)) []) }
    ensures working { OnOk result (has_failed out.new ≡ false) }
    ensures broken { IfErr result (λ error. BreaksOff error decoder.old printer.old start chunk.now decoder.new
        (O.contents (inner_of out.old)) (O.contents (inner_of out.new))) }
    ensures failed { result ≡ Err ListError.Write → has_failed out.new ≡ true }
{
    let mut lines = Lines::new();
    let mut event = BLANK;
    let mut taken = 0;
    'events: while let Some(more) = decoder.push_into(&chunk[taken..], &mut event) {
        taken += more;
        let last = start + (taken - 1) as u32;
        if let Err(error) = gather(printer, &mut lines, last, &event, out) {
            return Err(error);
        }
    }
    match put(out, lines.as_slice()) {
        Ok(()) => Ok(()),
        Err(_) => Err(ListError::Write),
    }
}

/// Writes the first line, if there is one.
fn begin<O: Write>(listing: &Listing, out: &mut Watch<O>) -> Result<(), WriteFault>
    requires working { has_failed out.old ≡ false }
    ensures ok { OnOk result (Appends (O.contents (inner_of out.old)) (O.contents (inner_of out.new)) (first_line listing.now)) }
    ensures working { OnOk result (has_failed out.new ≡ false) }
    ensures front { OnErr result (WritesFront (O.contents (inner_of out.old)) (O.contents (inner_of out.new)) (first_line listing.now)) }
    ensures failed { OnErr result (has_failed out.new ≡ true) }
{
    let mut lines = Lines::new();
    add_first(&mut lines, listing);
    put(out, lines.as_slice())
}

fn finish<O: Write>(
    decoder: &Decoder,
    printer: &Printer,
    out: &mut Watch<O>,
) -> Result<(), WriteFault>
    requires working { has_failed out.old ≡ false }
    ensures ok { OnOk result (Finishes decoder.now printer.now (O.contents (inner_of out.old)) (O.contents (inner_of out.new))) }
    ensures working { OnOk result (has_failed out.new ≡ false) }
    ensures front { OnErr result (FinishBreaksOff decoder.now printer.now (O.contents (inner_of out.old)) (O.contents (inner_of out.new))) }
    ensures failed { OnErr result (has_failed out.new ≡ true) }
{
    let mut lines = Lines::new();
    printer.end(&mut lines, decoder.pending());
    put(out, lines.as_slice())
}

/// Writes the lines of a stream of board bytes. Those of a chunk are written before the next read, so that those of a
/// slow board stand as they come. It doesn't flush. At most 67,108,865 bytes are read, the last one only to see that
/// there are more than a stream may have. No stream may have failed before. Memory is taken under `Listing::Game` and
/// `Listing::Watched` alone, for plies.
///
/// # Errors
///
/// - `Read`: a read failed. The lines of the bytes before it were written.
/// - `Write`: a write failed or took no byte. The lines are cut off somewhere, and nothing else was written.
/// - `TooLong`: there are more than 67,108,864 bytes. The lines of the first 67,108,864 were written.
/// - `Memory`: there was none for the move that an event gives. The lines of the events before this one were written.
///
/// Under `Listing::Watched` a first line, written before anything is read, tells the position at the start.
///
/// Under each listing but `Listing::Pictures` a last line tells how many bytes of an unfinished frame are left. It
/// comes only at the end of the stream.
pub fn list_stream<R: Read, O: Write>(
    alloc: Global,
    listing: Listing,
    reader: &mut Watch<R>,
    out: &mut Watch<O>,
) -> Result<(), ListError>
    requires reading { has_failed reader.old ≡ false }
    requires working { has_failed out.old ≡ false }
    ensures ok { OnOk result (ListsAll listing (R.remaining (inner_of reader.old))
        (O.contents (inner_of out.old)) (O.contents (inner_of out.new))) }
    ensures reading { result ≡ Err ListError.Read → has_failed reader.new ≡ true }
    ensures working { result ≡ Err ListError.Write → has_failed out.new ≡ true }

    // Before a read nobody knows whether it will fail, and after one that failed nothing may be written, since a write
    // might fail. So each read begins with the lines of all bytes before it written, as `read` says of those that stand
    // then.
    ensures reader_blamed { has_failed reader.new ≡ true → (result ≡ Err ListError.Read) × (has_failed out.new ≡ false) }
    ensures whole { OnOk result ((has_failed reader.new ≡ false) × (has_failed out.new ≡ false)) }
    ensures bounded { ReadsWithin LIMIT (R.remaining (inner_of reader.old)) (R.remaining (inner_of reader.new)) }

    // What stands after each refusal, and that nothing but a front of the text is ever written.
    ensures read { result ≡ Err ListError.Read → ListsRead listing
        (R.remaining (inner_of reader.old)) (R.remaining (inner_of reader.new))
        (O.contents (inner_of out.old)) (O.contents (inner_of out.new)) }
    ensures front { ListsFront listing (R.remaining (inner_of reader.old)) (R.remaining (inner_of reader.new))
        (O.contents (inner_of out.old)) (O.contents (inner_of out.new)) }
    ensures long { result ≡ Err ListError.TooLong → ListsFirst listing (R.remaining (inner_of reader.old))
        (O.contents (inner_of out.old)) (O.contents (inner_of out.new)) }
    ensures memory { result ≡ Err ListError.Memory → ListsRefused listing
        (R.remaining (inner_of reader.old)) (R.remaining (inner_of reader.new))
        (O.contents (inner_of out.old)) (O.contents (inner_of out.new)) }
{
    if begin(&listing, out).is_err() {
        return Err(ListError::Write);
    }
    let mut decoder = Decoder::new();
    let mut printer = Printer::new(alloc, listing);
    let mut buffer = [0u8; CHUNK];
    let mut total: u32 = 0;
    'chunks: loop {
        let Ok(read) = read_chunk(reader, &mut buffer, (LIMIT - total) as usize) else {
            // For its clause: the bytes taken show some events.
            decoder.pending();
            return Err(ListError::Read);
        };
        let Some(chunk) = read else {
            return finish(&decoder, &printer, out).map_err(|_| ListError::Write);
        };
        let bytes = &buffer[..chunk.within];
        if let Err(error) = list_chunk(&mut decoder, &mut printer, total, bytes, out) {
            // For its clause: the bytes taken show some events.
            decoder.pending();
            return Err(error);
        }
        if chunk.past {
            // For its clause: the bytes taken show some events.
            decoder.pending();
            return Err(ListError::TooLong);
        }
        total += chunk.within as u32;
    }
}
