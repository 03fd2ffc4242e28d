//! Events to lines, and to what is heard of them.
ghost use Rattle.std.specs.Prelude.{◌≡◌, ◌≤◌, ◌+◌, ◌↔◌, ◌∷◌, [], ◌++◌, ℕ, IfOk, IsTrue, List, Option, OnOk};
ghost use Rattle.arrayvec.specs.ArrayVec.{array_vec_len};
ghost use Rattle.dgt_frame.specs.declared.events.Event.{Event as EventOf};
ghost use Rattle.dgt_frame.specs.Streams.{HasFrame};
ghost use Rattle.settle_core.specs.Entries.{deduplicated};
ghost use Rattle.settle_core.specs.Folding.{Folds, Score};
ghost use Rattle.settle_core.specs.Settler.{HasSettled};
ghost use Rattle.board_events.specs.Session.{entries_in};
ghost use Rattle.board_events.specs.Settings.{Setting};
ghost use Rattle.board_listing.specs.GameText.{HasResult};
ghost use Rattle.board_listing.specs.Inside.Watchers.{AddsWatched, HasWatched};
ghost use Rattle.board_standing.specs.declared.heard.Event.{Event as ToldOf};
ghost use Rattle.board_standing.specs.declared.heard.Heard.{Heard as HeardOf};
ghost use Rattle.board_standing.specs.Keeping.{StandsFor as StandingStands};
ghost use Rattle.pair_frames.specs.PutIn.{ShowsWhole};
ghost use Rattle.unseen_pairs.specs.declared.pair.Recovery.{Recovery};
ghost use Rattle.recovery.specs.Weaving.{TellsRecovered};
ghost use Rattle.board_alarms.specs.Items.{Item as AlarmItem};
ghost use Rattle.board_alarms.specs.Keeping.{StandsFor as AlarmsStand};
ghost use Rattle.board_game.specs.Alarming.{news_of, of_line, with_news};
ghost use Rattle.board_game.specs.Hearing.{HearsEvent, HearsPicture, HearsResult, heard_of as heard_of_note, with_heard};
ghost use Rattle.board_game.specs.History.{Item, Noted, Pair, Sent, with_events};
ghost use Rattle.board_game.specs.Inside.Shown.{HasSeen, IsShown};
ghost use Rattle.board_game.specs.Inside.Telling.{HasTold};
ghost use Rattle.board_game.specs.Report.{first_line};

use crate::ending::{note_end, tell_end};
use crate::note::Note;
use crate::pictures::{Pictures, Shown, sight};
use board_alarms::{Alarms, Chunk, News};
use board_endings::Endings;
use board_listing::Watcher;
use board_standing::{Event as Told, Heard, Picture, Standing};
use chess_rules::Position;
use dgt_frame::laws::shows_once;
use dgt_frame::{BLANK, Decoder, Event, First};
use settle_core::{Outcome, Settler};
use std::alloc::{AllocError, Global};
use watched_streams::{GATHERED, Lines};

/// Room for the lines of one event: they have no more bytes than this.
const FREE: usize = 1024;

/// Adds bytes to others.
pub fn append(bytes: &[u8], out: &mut Vec<u8>) -> Result<(), AllocError>
    ensures { OnOk result (out.new.items ≡ out.old.items ++ bytes.now) }
{
    out.extend_from_slice(bytes)
}

/// Appends the lines that were gathered.
pub fn flush(gathered: &mut Lines, lines: &mut Vec<u8>) -> Result<(), AllocError>
    ensures same { OnOk result (lines.new.items ≡ lines.old.items ++ gathered.old.items) }
    ensures empty { OnOk result (gathered.new.items ≡ []) }
{
    append(gathered.as_slice(), lines)?;
    gathered.clear();
    Ok(())
}

/// Appends the lines that were gathered, if they leave too little room for those of one more event.
fn make_room(gathered: &mut Lines, lines: &mut Vec<u8>) -> Result<(), AllocError>
    ensures same { OnOk result (lines.new.items ++ gathered.new.items ≡ lines.old.items ++ gathered.old.items) }
    ensures room { OnOk result (array_vec_len gathered.new + FREE ≤ GATHERED) }
{
    if GATHERED - FREE < gathered.len() {
        return flush(gathered, lines);
    }
    Ok(())
}

/// What is heard of the picture of an event.
fn picture_heard(shown: Shown, settler: &Settler) -> Option<Heard>
    ensures { (setting : Setting) (past : List EventOf) (event : EventOf) (before : Score)
        → HasSettled settler.now setting.start (entries_in setting (event ∷ past)) → Folds setting.start (deduplicated (entries_in setting past)) before
        → IsShown setting past event shown → HearsPicture setting past event before settler.now.score result }
{
    match shown {
        Shown::Nothing => None,
        Shown::Again => Some(Heard::Repeats),
        Shown::Another {
            changed,
            turned,
            moves,
        } => {
            if moves {
                return Some(Heard::Moves);
            }
            let differs = settler.differs();
            Some(Heard::Shows(Picture {
                differs,
                changed,
                turned,
            }))
        }
    }
}

fn is_result(one: Option<Outcome>, other: Option<Outcome>) -> bool
    ensures { IsTrue result ↔ (one ≡ other) }
{
    one == other
}

/// What is heard of the result.
fn result_heard(old: Option<Outcome>, new: Option<Outcome>) -> Option<Heard>
    ensures { HearsResult old new result }
{
    if is_result(new, old) {
        return None;
    }
    match new {
        Some(_) => Some(Heard::Ends),
        None => Some(Heard::Reopens),
    }
}

/// What a note tells of the line.
fn heard_of(note: Note) -> Option<Heard>
    ensures { result ≡ heard_of_note note }
{
    match note {
        Note::Line(heard) => Some(heard),
        _ => None,
    }
}

/// What news of the line are to alarms.
fn of_line(heard: Heard) -> Option<News>
    ensures { result ≡ of_line heard }
{
    match heard {
        Heard::Unplugs => Some(News::Gone),
        Heard::Begins => Some(News::Begins),
        _ => None,
    }
}

/// What a note is to alarms.
fn news_of(note: Note) -> Option<News>
    ensures { result ≡ news_of note }
{
    match note {
        Note::Line(heard) => of_line(heard),
        Note::Looked => Some(News::Looked),
        Note::PutsBack => Some(News::PutsBack),
        Note::Reopens | Note::Passes | Note::Resumes => None,
        Note::Suspects(n) => Some(News::Suspects(n)),
    }
}

/// Tells the alarms news, if there are any.
fn note_news(alarms: &mut Alarms, at: u64, news: Option<News>) -> Result<(), AllocError>
    ensures { (setting : Setting) (items : List AlarmItem) → AlarmsStand alarms.old setting items → OnOk result (AlarmsStand alarms.new setting (with_news at news items)) }
{
    match news {
        None => Ok(()),
        Some(news) => alarms.note(at, news),
    }
}

/// Tells how a board stands what is heard, if anything.
fn tell(standing: &mut Standing, at: u64, what: Option<Heard>)
    ensures { (heard : List ToldOf) → StandingStands standing.old heard → StandingStands standing.new (with_heard at what heard) }
{
    if let Some(what) = what {
        standing.take(Told { at, what });
    }
}

/// Adds the lines of the next event, and says what it shows.
fn watch(
    watcher: &mut Watcher,
    pictures: &mut Pictures,
    gathered: &mut Lines,
    offset: u32,
    event: &Event,
) -> Result<Shown, AllocError>
    requires room { array_vec_len gathered.old + FREE ≤ GATHERED }
    requires frame { HasFrame event.now }
    requires watched { (setting : Setting) × (past : List EventOf) × HasWatched watcher.old setting past }
    ensures added { OnOk result (AddsWatched watcher.old gathered.old.items (record { offset = offset; event = event.now }) watcher.new gathered.new.items) }
    ensures seen { (setting : Setting) (past : List EventOf) → HasWatched watcher.old setting past → HasSeen pictures.old setting past
        → OnOk result (HasSeen pictures.new setting (event.now ∷ past)) }
    ensures shown { (setting : Setting) (past : List EventOf) → HasWatched watcher.old setting past → HasSeen pictures.old setting past
        → IfOk result (IsShown setting past event.now) }
{
    match watcher.add(gathered, offset, event) {
        Ok(taken) => Ok(pictures.see(&taken, event)),
        Err(error) => Err(error),
    }
}

/// Tells how a board stands what is heard of the event that was watched last, before which the game had this result.
fn hear(standing: &mut Standing, watcher: &Watcher, at: u64, old: Option<Outcome>, shown: Shown)
    ensures { (setting : Setting) (past : List EventOf) (event : EventOf) (before : Score) (heard : List ToldOf)
        → HasWatched watcher.now setting (event ∷ past) → Folds setting.start (deduplicated (entries_in setting past)) before
        → HasResult setting.start before old → IsShown setting past event shown
        → StandingStands standing.old heard → (picture ended : Option HeardOf) × HearsEvent setting past event picture ended
        × StandingStands standing.new (with_heard at ended (with_heard at picture heard)) }
{
    let settler = watcher.session().settler();
    let picture = picture_heard(shown, settler);
    let ended = result_heard(old, watcher.result());
    tell(standing, at, picture);
    tell(standing, at, ended);
}

/// Tells the events of a game: their lines, and what is heard of them.
#[derive(Drop)]
pub struct Teller {
    watcher: Watcher,
    pictures: Pictures,
    standing: Standing,
    alarms: Alarms,
    endings: Endings,
}

impl Teller {
    /// Nothing was told. Takes no memory.
    pub fn new(alloc: Global, start: Position, first: First, rotated: bool) -> Teller
        ensures { let setting : Setting = record { start = start; first = first; rotated = rotated } in HasTold result setting [] (first_line setting) }
    {
        let watcher = Watcher::new(alloc, start, first, rotated);
        let pictures = Pictures::new(&start, rotated);
        let standing = Standing::new();
        let alarms = Alarms::new(alloc, &start);
        let endings = Endings::new(alloc, &start);
        Teller {
            watcher,
            pictures,
            standing,
            alarms,
            endings,
        }
    }

    /// Tells the next event, which this chunk has brought: adds its lines behind those that are gathered, and hears it.
    pub fn take(
        &mut self,
        chunk: Chunk,
        offset: u32,
        event: &Event,
        gathered: &mut Lines,
        lines: &mut Vec<u8>,
    ) -> Result<(), AllocError>
        requires frame { HasFrame event.now }
        requires begun { (setting : Setting) × (items : List Item) × (text : List ℕ) × HasTold self.old setting items text }
        ensures { (setting : Setting) (items : List Item) (text : List ℕ) → HasTold self.old setting items text
            → OnOk result ((more : List ℕ) × (lines.new.items ++ gathered.new.items ≡ (lines.old.items ++ gathered.old.items) ++ more)
            × HasTold self.new setting (Sent chunk (record { offset = offset; event = event.now }) ∷ items) (text ++ more)) }
    {
        let before = self.watcher.result();
        make_room(gathered, lines)?;
        let shown = watch(
            &mut self.watcher,
            &mut self.pictures,
            gathered,
            offset,
            event,
        )?;
        let at = chunk.when.at;
        hear(&mut self.standing, &self.watcher, at, before, shown);
        let outcome = self.watcher.result();
        let picture = self.pictures.last();
        let session = self.watcher.session();
        self.alarms
            .take(chunk, event, sight(shown), picture, session, outcome)?;
        tell_end(
            &mut self.endings,
            chunk,
            offset,
            shown,
            &self.pictures,
            session,
            outcome,
        )
    }

    /// Tells the events of these frames, all at this offset.
    pub fn put_in(
        &mut self,
        chunk: Chunk,
        offset: u32,
        frames: &[u8],
        gathered: &mut Lines,
        lines: &mut Vec<u8>,
    ) -> Result<(), AllocError>
        requires begun { (setting : Setting) × (items : List Item) × (text : List ℕ) × HasTold self.old setting items text }
        ensures { (setting : Setting) (items : List Item) (text : List ℕ) (events : List EventOf) → HasTold self.old setting items text
            → ShowsWhole frames.now events → OnOk result ((more : List ℕ)
            × (lines.new.items ++ gathered.new.items ≡ (lines.old.items ++ gathered.old.items) ++ more)
            × HasTold self.new setting (with_events chunk offset events items) (text ++ more)) }
    {
        // For its clause: bytes show one list of events.
        shows_once();
        let mut decoder = Decoder::new();
        let mut event = BLANK;
        let mut taken = 0;
        'events: while let Some(more) = decoder.push_into(&frames[taken..], &mut event) {
            taken += more;
            self.take(chunk, offset, &event, gathered, lines)?;
        }
        // For its clause: the frames show these events.
        decoder.pending();
        Ok(())
    }

    /// Takes what isn't in the bytes.
    pub fn note(&mut self, at: u64, note: Note) -> Result<(), AllocError>
        ensures { (setting : Setting) (items : List Item) (text : List ℕ) → HasTold self.old setting items text
            → OnOk result (HasTold self.new setting (Noted at note ∷ items) text) }
    {
        tell(&mut self.standing, at, heard_of(note));
        note_news(&mut self.alarms, at, news_of(note))?;
        note_end(&mut self.endings, at, note)
    }

    /// A pair is put in whose line was added: its events follow.
    pub fn note_pair(&mut self, chunk: Chunk) -> Result<(), AllocError>
        ensures { (setting : Setting) (items : List Item) (text line : List ℕ) (offset : ℕ) (r : Recovery) → HasTold self.old setting items text
            → TellsRecovered offset r line → OnOk result (HasTold self.new setting (Pair chunk offset r ∷ items) (text ++ line)) }
    {
        self.alarms.note(chunk.when.at, News::PutsIn)
    }

    /// The alarms that are open.
    pub fn alarms(&self) -> &Alarms
        ensures { result.now ≡ self.now.alarms }
    {
        &self.alarms
    }

    /// How the game ends.
    pub fn endings(&self) -> &Endings
        ensures { result.now ≡ self.now.endings }
    {
        &self.endings
    }

    /// What makes the lines.
    pub fn watcher(&self) -> &Watcher
        ensures { result.now ≡ self.now.watcher }
    {
        &self.watcher
    }

    /// The pictures of the board.
    pub fn pictures(&self) -> &Pictures
        ensures { result.now ≡ self.now.pictures }
    {
        &self.pictures
    }

    /// How the board stands.
    pub fn standing(&self) -> &Standing
        ensures { result.now ≡ self.now.standing }
    {
        &self.standing
    }
}
