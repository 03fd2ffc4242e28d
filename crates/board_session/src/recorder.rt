//! The recorder: bytes of a board in, its session and the bytes for the board out.
ghost use Rattle.std.specs.Prelude.{◌≡◌, ◌≢◌, ◌<◌, ◌≤◌, ◌+◌, ◌^◌, ◌⊎◌, ◌∷◌, [], List, ℕ, Option, MatchResult, OnOk, OnErr, IfErr, IsOk, Ok, Err, true, false, length, if◌then◌else◌};
ghost use Rattle.std.specs.Io.KnownBytes.{Appends};
ghost use Rattle.dgt_frame.specs.Decoder.{Decoded};
ghost use Rattle.dgt_frame.specs.Streams.{HasFrame, Timed};
ghost use Rattle.watched_streams.specs.Watch.{IsFlushed, inner_of, has_failed};
ghost use Rattle.pgn_book.specs.Pgn.{Pgn};
ghost use Rattle.board_events.specs.Settings.{Setting};
ghost use Rattle.board_events.specs.History.{is_fault};
ghost use Rattle.watched_streams.specs.Output.{AppendsPart};
ghost use Rattle.board_session.specs.Inside.Recorder.{Finished, Hears, IsFed, IsRefusal, Kept, Listened, Live, TakesEvent, event_count};

use crate::refusal::RecordError;
use crate::report::Report;
use board_events::Session;
use chess_game::{Game, Tags};
use chess_rules::Position;
use dgt_frame::{BLANK, Decoder, Event, First, LIMIT};
use pgn_book::write_pgn;
use std::alloc::Global;
use std::io::{Read, Write};
use watched_streams::{CHUNK, Watch, put_and_flush, read_chunk};

/// The command that asks the board for a dump.
const SEND_DUMP: u8 = 0x42;

/// The command that asks the board for field updates, and for time messages on change.
const SEND_UPDATES: u8 = 0x4B;

/// Takes bytes, keeps the session of their events, and counts them.
#[derive(Drop)]
pub struct Recorder {
    decoder: Decoder,
    session: Session,
    messages: u32,
    faults: u32,
}

/// Sends bytes to the board at once.
fn send<B: Write>(board: &mut Watch<B>, bytes: &[u8]) -> Result<(), RecordError>
    requires { has_failed board.old ≡ false }
    ensures ok { OnOk result (Appends (B.contents (inner_of board.old)) (B.contents (inner_of board.new)) bytes.now) }
    ensures working { OnOk result (has_failed board.new ≡ false) }
    ensures part { OnErr result (AppendsPart (B.contents (inner_of board.old)) (B.contents (inner_of board.new)) bytes.now) }
    ensures failed { OnErr result (has_failed board.new ≡ true) }
    ensures cause { IfErr result (λ error. error ≡ RecordError.Board) }
    ensures flushed { IsFlushed board.new }
{
    if !put_and_flush(board, bytes) {
        return Err(RecordError::Board);
    }
    Ok(())
}

/// Writes the text of the game at once.
fn write_game<W: Write>(game: &Game, out: &mut Watch<W>) -> Result<(), RecordError>
    requires { has_failed out.old ≡ false }
    ensures text { MatchResult result
        (λ _. (text : List ℕ) × Pgn game.now text × Appends (W.contents (inner_of out.old)) (W.contents (inner_of out.new)) text)
        (λ _. (text : List ℕ) × Pgn game.now text × AppendsPart (W.contents (inner_of out.old)) (W.contents (inner_of out.new)) text) }
    ensures working { OnOk result (has_failed out.new ≡ false) }
    ensures failed { OnErr result (has_failed out.new ≡ true) }
    ensures cause { IfErr result (λ error. error ≡ RecordError.Write) }
    ensures flushed { IsFlushed out.new }
{
    if write_pgn(game, out).is_err() {
        return Err(RecordError::Write);
    }
    if out.flush().is_err() {
        return Err(RecordError::Write);
    }
    Ok(())
}

impl Recorder {
    /// A recorder that was given no byte.
    pub fn new(alloc: Global, start: Position, first: First, rotated: bool) -> Recorder
        ensures decoded { Decoded result.decoder [] [] }
        ensures kept { let setting : Setting = record { start = start; first = first; rotated = rotated } in Kept result setting [] }
        ensures count { event_count result ≡ 0 }
    {
        Recorder {
            decoder: Decoder::new(),
            session: Session::new(alloc, start, first, rotated),
            messages: 0,
            faults: 0,
        }
    }

    /// Takes the next event, and sends what it asks for.
    fn take_event<B: Write>(
        &mut self,
        event: &Event,
        board: &mut Watch<B>,
    ) -> Result<(), RecordError>
        requires frame { HasFrame event.now }
        requires room { event_count self.old < 2 ^ 31 }
        requires working { has_failed board.old ≡ false }
        ensures count { event_count self.new ≤ event_count self.old + 1 }
        ensures decoder { self.new.decoder ≡ self.old.decoder }
        ensures taken { (setting : Setting) (taken : List Timed) (offset : ℕ) → Kept self.old setting taken
            → TakesEvent self.new setting taken offset event.now result (B.contents (inner_of board.old))
            (B.contents (inner_of board.new)) }
        ensures working { OnOk result (has_failed board.new ≡ false) }
        ensures failed { result ≡ Err RecordError.Board → has_failed board.new ≡ true }
        ensures blamed { has_failed board.new ≡ true → result ≡ Err RecordError.Board }
        ensures flushed { IsFlushed board.old → IsFlushed board.new }
        ensures refusal { IfErr result IsRefusal }
    {
        let Ok(taken) = self.session.take_ref(event) else {
            return Err(RecordError::Memory);
        };
        self.count(event);
        if taken.asks_dump {
            send(board, &[SEND_DUMP])
        } else {
            Ok(())
        }
    }

    /// Counts an event that was taken.
    fn count(&mut self, event: &Event)
        requires { event_count self.old < 2 ^ 31 }
        ensures count { event_count self.new ≡ event_count self.old + 1 }
        ensures decoder { self.new.decoder ≡ self.old.decoder }
        ensures session { self.new.session ≡ self.old.session }
        ensures messages { self.new.messages ≡ (if is_fault event.now then self.old.messages else self.old.messages + 1) }
        ensures faults { self.new.faults ≡ (if is_fault event.now then self.old.faults + 1 else self.old.faults) }
    {
        match event {
            Event::Message(_) => self.messages += 1,
            Event::Fault(_) => self.faults += 1,
        }
    }

    /// Takes the events of a chunk of the stream, each before the byte after it.
    fn take_chunk<B: Write>(
        &mut self,
        chunk: &[u8],
        board: &mut Watch<B>,
    ) -> Result<(), RecordError>
        requires fed { IsFed self.old.decoder }
        requires room { event_count self.old + length chunk.now < 2 ^ 31 }
        requires working { has_failed board.old ≡ false }
        ensures fed { IsFed self.new.decoder }
        ensures count { event_count self.new ≤ event_count self.old + length chunk.now }
        ensures hears { Hears self.old self.new chunk.now result (B.contents (inner_of board.old)) (B.contents (inner_of board.new)) }
        ensures working { OnOk result (has_failed board.new ≡ false) }
        ensures failed { result ≡ Err RecordError.Board → has_failed board.new ≡ true }
        ensures blamed { has_failed board.new ≡ true → result ≡ Err RecordError.Board }
        ensures flushed { IsFlushed board.old → IsFlushed board.new }
        ensures refusal { IfErr result IsRefusal }
    {
        let mut event = BLANK;
        let mut at = 0;
        'events: while let Some(taken) = self.decoder.push_into(&chunk[at..], &mut event) {
            self.take_event(&event, board)?;
            at += taken;
        }
        Ok(())
    }

    /// Reads to the end of the input or past the limit, and takes each event before the byte after it.
    fn read_all<R: Read, B: Write>(
        &mut self,
        reader: &mut Watch<R>,
        board: &mut Watch<B>,
    ) -> Result<(), RecordError>
        requires fed { IsFed self.old.decoder }
        requires none { event_count self.old ≡ 0 }
        requires reading { has_failed reader.old ≡ false }
        requires working { has_failed board.old ≡ false }
        ensures count { event_count self.new ≤ LIMIT }
        ensures listened { (setting : Setting) (before : Option (List ℕ))
            → Live self.old setting before (B.contents (inner_of board.old)) [] []
            → Listened result self.new setting (R.remaining (inner_of reader.old)) (R.remaining (inner_of reader.new)) before
            (B.contents (inner_of board.new)) }
        ensures ok { OnOk result ((has_failed reader.new ≡ false) × (has_failed board.new ≡ false)) }
        ensures read { result ≡ Err RecordError.Read → has_failed reader.new ≡ true }
        ensures board { result ≡ Err RecordError.Board → has_failed board.new ≡ true }
        ensures reader_blamed { has_failed reader.new ≡ true → result ≡ Err RecordError.Read }
        ensures board_blamed { has_failed board.new ≡ true → result ≡ Err RecordError.Board }
        ensures flushed { IsFlushed board.old → IsFlushed board.new }
        ensures cause { result ≢ Err RecordError.Write }
    {
        let mut buffer = [0u8; CHUNK];
        let mut total: u32 = 0;
        'chunks: loop {
            let Ok(read) = read_chunk(reader, &mut buffer, (LIMIT - total) as usize) else {
                return Err(RecordError::Read);
            };
            let Some(chunk) = read else {
                return Ok(());
            };
            self.take_chunk(&buffer[..chunk.within], board)?;
            if chunk.past {
                return Err(RecordError::TooLong);
            }
            total += chunk.within as u32;
        }
    }

    /// Asks for a dump and for updates, and then reads to the end.
    pub fn listen<R: Read, B: Write>(
        &mut self,
        reader: &mut Watch<R>,
        board: &mut Watch<B>,
    ) -> Result<(), RecordError>
        requires decoded { Decoded self.old.decoder [] [] }
        requires none { event_count self.old ≡ 0 }
        requires reading { has_failed reader.old ≡ false }
        requires working { has_failed board.old ≡ false }
        ensures count { event_count self.new ≤ LIMIT }
        ensures listened { (setting : Setting) → Kept self.old setting []
            → Listened result self.new setting (R.remaining (inner_of reader.old)) (R.remaining (inner_of reader.new))
            (B.contents (inner_of board.old)) (B.contents (inner_of board.new)) }
        ensures ok { OnOk result ((has_failed reader.new ≡ false) × (has_failed board.new ≡ false)) }
        ensures read { result ≡ Err RecordError.Read → has_failed reader.new ≡ true }
        ensures board { result ≡ Err RecordError.Board → has_failed board.new ≡ true }
        ensures reader_blamed { has_failed reader.new ≡ true → result ≡ Err RecordError.Read }
        ensures board_blamed { has_failed board.new ≡ true → result ≡ Err RecordError.Board }
        ensures flushed { IsFlushed board.new }
        ensures cause { result ≢ Err RecordError.Write }
    {
        send(board, &[SEND_DUMP, SEND_UPDATES])?;
        self.read_all(reader, board)
    }

    /// Writes the text of what the recorder has taken, and returns what came of it.
    pub fn finish<W: Write>(
        self,
        tags: Tags,
        ending: Result<(), RecordError>,
        out: &mut Watch<W>,
    ) -> Result<Report, RecordError>
        requires working { has_failed out.old ≡ false }
        requires count { event_count self ≤ LIMIT }
        requires kept { (setting : Setting) × (taken : List Timed) × Kept self setting taken }
        ensures finished { (setting : Setting) (front : List ℕ) (events taken : List Timed) → Decoded self.decoder front events
            → Kept self setting taken
            → Finished result ending setting tags front events taken (W.contents (inner_of out.old)) (W.contents (inner_of out.new)) }
        ensures working { OnOk result (has_failed out.new ≡ false) }
        ensures ended { OnOk result (IsOk ending) }
        ensures read { result ≡ Err RecordError.Read → ending ≡ Err RecordError.Read }
        ensures board { result ≡ Err RecordError.Board → ending ≡ Err RecordError.Board }
        ensures failed { ending ≢ Err RecordError.Write → result ≡ Err RecordError.Write → has_failed out.new ≡ true }
        ensures written { result ≢ Err RecordError.Write → has_failed out.new ≡ false }
        ensures blamed { IfErr ending (λ error. (result ≡ Err error) ⊎ (result ≡ Err RecordError.Write)) }
        ensures flushed { IsFlushed out.new }
    {
        let Recorder {
            decoder,
            session,
            messages,
            faults,
        } = self;
        let rest = decoder.pending();
        let game = session.into_game(tags);
        let moves = game.plies().len() as u32;
        write_game(&game, out)?;
        ending?;
        Ok(Report {
            messages,
            faults,
            moves,
            rest,
        })
    }
}
