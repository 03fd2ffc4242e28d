//! The bytes of one game's capture to what they tell.
ghost use Rattle.std.specs.Prelude.{◌≡◌, ◌≤◌, ◌+◌, ◌↔◌, ◌∷◌, [], ◌++◌, ℕ, Bool, false, List, IfOk, IsTrue, MatchOption, None, OnOk, Some, length, take};
ghost use Rattle.board_captures.specs.Reading.{setting_of};
ghost use Rattle.board_events.specs.Limits.{limit};
ghost use Rattle.board_events.specs.Session.{HasTakenEvents, entries_in};
ghost use Rattle.board_events.specs.Settings.{Setting};
ghost use Rattle.board_game.specs.Alarming.{AlarmsAre, ClockIsStopped};
ghost use Rattle.board_game.specs.Ending.{IsEndDueOf, IsEndOf};
ghost use Rattle.board_game.specs.Games.{HasBegun, IsDueOf, IsStateOf, StandsFor};
ghost use Rattle.board_game.specs.History.{Bytes, Came, Item, Makes, News, events_of, room_of};
ghost use Rattle.board_game.specs.Report.{IsReport, first_line};
ghost use Rattle.settle_core.specs.Entries.{last_picture};

use crate::following::Following;
use crate::note::Note;
use crate::telling::append;
use board_alarms::{Chunk, Look, When};
use board_captures::Method;
use board_endings::End;
use board_events::Session;
use board_listing::{Listing, add_first};
use board_standing::State;
use dgt_frame::{BLANK, Decoder, First, LIMIT};
use recovery::Frames;
use std::alloc::{AllocError, Global};
use watched_streams::Lines;

/// The first bytes, so many.
fn first_bytes(bytes: &[u8], count: usize) -> &[u8]
    ensures { result.now ≡ take count bytes.now }
{
    if bytes.len() <= count {
        bytes
    } else {
        &bytes[..count]
    }
}

/// The bytes that come then, behind so many others.
fn chunk_of(when: When, count: u32, bytes: &[u8]) -> Chunk
    requires { count + length bytes.now ≤ limit }
    ensures { result ≡ record { when = when; end = count + length bytes.now; is_put_in = false } }
{
    let end = (count + bytes.len() as u32) as u64;
    Chunk {
        when,
        end,
        is_put_in: false,
    }
}

/// Takes the bytes of a capture with their times, and says what they tell.
#[derive(Drop)]
pub struct Game {
    decoder: Decoder,
    /// How many bytes were taken.
    count: u32,
    following: Following,
    /// Room for what is put in, and for lines that are not appended yet. What they hold counts within a call.
    frames: Frames,
    gathered: Lines,
}

impl Game {
    /// Nothing came. Takes no memory.
    pub fn new(alloc: Global, method: &Method) -> Game
        ensures stands { StandsFor result (setting_of method.now) method.now.recovers [] (first_line (setting_of method.now)) }
        ensures begun { HasBegun result }
    {
        let decoder = Decoder::new();
        let following = Following::new(alloc, method);
        Game {
            decoder,
            count: 0,
            following,
            frames: Frames::new(),
            gathered: Lines::new(),
        }
    }

    /// Appends the first line of the report: the position at the start.
    ///
    /// # Errors
    ///
    /// Where there is no memory for it.
    pub fn first_line(&self, lines: &mut Vec<u8>) -> Result<(), AllocError>
        ensures { (setting : Setting) (recovers : Bool) (past : List Came) (text : List ℕ) → StandsFor self.now setting recovers past text
            → OnOk result (lines.new.items ≡ lines.old.items ++ first_line setting) }
    {
        let start = *self.session().settler().start();
        let mut space = Lines::new();
        let listing = Listing::Watched {
            start,
            first: First::White,
            rotated: false,
        };
        add_first(&mut space, &listing);
        append(space.as_slice(), lines)
    }

    /// Takes bytes that came then, and appends what is told of them to the lines. Whether these are all of the bytes: those
    /// behind the first 67,108,864 of the capture are not taken.
    ///
    /// # Errors
    ///
    /// Where there is no memory. Then nothing more may be taken.
    pub fn take(
        &mut self,
        when: When,
        bytes: &[u8],
        lines: &mut Vec<u8>,
    ) -> Result<bool, AllocError>
        requires begun { HasBegun self.old }
        ensures told { (setting : Setting) (recovers : Bool) (past : List Came) (text : List ℕ) → StandsFor self.old setting recovers past text
            → OnOk result ((more : List ℕ) × (lines.new.items ≡ lines.old.items ++ more)
            × StandsFor self.new setting recovers (Bytes when (take (room_of past) bytes.now) ∷ past) (text ++ more)) }
        ensures whole { (setting : Setting) (recovers : Bool) (past : List Came) (text : List ℕ) → StandsFor self.old setting recovers past text
            → IfOk result (λ is. IsTrue is ↔ (length bytes.now ≤ room_of past)) }
        ensures begun { OnOk result (HasBegun self.new) }
    {
        let room = (LIMIT - self.count) as usize;
        self.take_within(when, first_bytes(bytes, room), lines)?;
        Ok(bytes.len() <= room)
    }

    /// The same of bytes for which there is room.
    fn take_within(
        &mut self,
        when: When,
        bytes: &[u8],
        lines: &mut Vec<u8>,
    ) -> Result<(), AllocError>
        requires begun { HasBegun self.old }
        requires room { self.old.count + length bytes.now ≤ limit }
        ensures { (setting : Setting) (recovers : Bool) (past : List Came) (text : List ℕ) → StandsFor self.old setting recovers past text
            → OnOk result ((more : List ℕ) × (lines.new.items ≡ lines.old.items ++ more)
            × StandsFor self.new setting recovers (Bytes when bytes.now ∷ past) (text ++ more)) }
    {
        self.gathered.clear();
        let chunk = chunk_of(when, self.count, bytes);
        let mut event = BLANK;
        let mut taken = 0;
        'events: while let Some(more) = self.decoder.push_into(&bytes[taken..], &mut event) {
            taken += more;
            let offset = self.count + (taken - 1) as u32;
            self.following.take(
                chunk,
                offset,
                &event,
                &mut self.frames,
                &mut self.gathered,
                lines,
            )?;
        }
        // For its clause: the bytes show these events.
        self.decoder.pending();
        append(self.gathered.as_slice(), lines)?;
        self.count += bytes.len() as u32;
        Ok(())
    }

    /// Takes what isn't in the bytes.
    ///
    /// # Errors
    ///
    /// As `take`.
    pub fn tell(&mut self, at: u64, note: Note) -> Result<(), AllocError>
        ensures told { (setting : Setting) (recovers : Bool) (past : List Came) (text : List ℕ) → StandsFor self.old setting recovers past text
            → OnOk result (StandsFor self.new setting recovers (News at note ∷ past) text) }
        ensures begun { HasBegun self.old → OnOk result (HasBegun self.new) }
    {
        self.following.note(at, note)
    }

    /// The alarms that are open, in the order in which they came.
    pub fn alarms(&self) -> &[Look]
        ensures { (setting : Setting) (recovers : Bool) (past : List Came) (text : List ℕ) → StandsFor self.now setting recovers past text
            → AlarmsAre setting recovers past result.now }
    {
        self.following.teller().alarms().open()
    }

    /// Whether the clock has run, and stood when it spoke last.
    pub fn is_clock_stopped(&self) -> bool
        ensures { (setting : Setting) (recovers : Bool) (past : List Came) (text : List ℕ) → StandsFor self.now setting recovers past text
            → ClockIsStopped setting recovers past result }
    {
        self.following.teller().alarms().is_clock_stopped()
    }

    /// How the board stands at this time, which is none before the last at which something came.
    pub fn state(&self, now: u64) -> State
        ensures { (setting : Setting) (recovers : Bool) (past : List Came) (text : List ℕ) → StandsFor self.now setting recovers past text
            → IsStateOf setting recovers past now result }
    {
        self.following.teller().standing().state(now)
    }

    /// When that may become another state if nothing comes.
    pub fn due(&self, now: u64) -> Option<u64>
        ensures { (setting : Setting) (recovers : Bool) (past : List Came) (text : List ℕ) → StandsFor self.now setting recovers past text
            → IsDueOf setting recovers past now result }
    {
        self.following.teller().standing().due(now)
    }

    /// How the game stands with its end at this time, which is none before the last at which something came.
    pub fn end(&self, now: u64) -> End
        ensures { (setting : Setting) (recovers : Bool) (past : List Came) (text : List ℕ) → StandsFor self.now setting recovers past text
            → IsEndOf setting recovers past now result }
    {
        self.following.teller().endings().end(now)
    }

    /// When time alone ends the game, if nothing comes before. None: never, or it has by now.
    pub fn ends_at(&self, now: u64) -> Option<u64>
        ensures { (setting : Setting) (recovers : Bool) (past : List Came) (text : List ℕ) → StandsFor self.now setting recovers past text
            → IsEndDueOf setting recovers past now result }
    {
        self.following.teller().endings().due(now)
    }

    /// The session of the game so far, with what was put in.
    pub fn session(&self) -> &Session
        ensures { (setting : Setting) (recovers : Bool) (past : List Came) (text : List ℕ) → StandsFor self.now setting recovers past text
            → (items : List Item) × Makes setting recovers past items × HasTakenEvents result.now setting (events_of items) }
    {
        self.following.teller().watcher().session()
    }

    /// The session of the game so far, with what was put in, and the picture that the board was seen to show last; none where it has
    /// shown nothing.
    pub fn seen(&self) -> (&Session, Option<&[u8; 64]>)
        ensures { (setting : Setting) (recovers : Bool) (past : List Came) (text : List ℕ) → StandsFor self.now setting recovers past text
            → (items : List Item) × Makes setting recovers past items × HasTakenEvents result.0.now setting (events_of items)
            × MatchOption result.1 (last_picture (entries_in setting (events_of items)) ≡ None) (λ seen. last_picture (entries_in setting (events_of items)) ≡ Some seen.now) }
    {
        let teller = self.following.teller();
        (teller.watcher().session(), teller.pictures().seen())
    }

    /// For its clause: what was appended so far is the report of what came, behind its first line.
    pub fn conclude(&self)
        ensures { (setting : Setting) (recovers : Bool) (past : List Came) (text : List ℕ) → StandsFor self.now setting recovers past text
            → IsReport setting recovers past text }
    {}
}
