//! Events to what they make of a game, with what the board and the clocks show.
ghost use Rattle.std.specs.Prelude.{◌≡◌, ◌≢◌, ◌↔◌, ◌⊎◌, ◌≤◌, ◌+◌, ◌++◌, [], ℕ, List, IfOk, IfSome, IsTrue, None, OnErr, OnOk, Some, true, false};
ghost use Rattle.arrayvec.specs.ArrayVec.{array_vec_len};
ghost use Rattle.dgt_frame.specs.Streams.{HasFrame};
ghost use Rattle.settle_core.specs.declared.plies.Seen.{Seen as SeenOf};
ghost use Rattle.settle_core.specs.Masks.{IsDiff};
ghost use Rattle.settle_core.specs.Settler.{position_of};
ghost use Rattle.chess_text.specs.KeptRanks.{picture_in};
ghost use Rattle.watched_streams.specs.Lines.{line};
ghost use Rattle.board_listing.specs.EventLines.{line_of};
ghost use Rattle.board_listing.specs.GameLines.{squares_text, waiting_words};
ghost use Rattle.board_listing.specs.GameText.{HasResult, reached_by};
ghost use Rattle.board_listing.specs.GivenGame.{GameLine, text_of};
ghost use Rattle.board_listing.specs.Inside.News.{MayTell};
ghost use Rattle.board_listing.specs.Inside.Plies.{is_ply};
ghost use Rattle.board_listing.specs.Inside.Positions.{TellsResultAndPosition, TellsSeenAndPosition};
ghost use Rattle.board_listing.specs.Inside.Drawing.{is_time};
ghost use Rattle.board_listing.specs.WatchLines.{picture_words};
ghost use Rattle.board_listing.specs.WatchText.{ShowsReading};

use crate::drawing::draw;
use crate::events::add_line;
use crate::follower::{Follower, add_seen, is_news, is_same, result_now};
use crate::game_lines::{add_result, add_waiting_words};
use crate::watch_lines::{ROOM, add_picture, add_position, add_reading};
use board_events::{Session, Taken};
use chess_clock::Reading;
use chess_rules::Position;
use chess_text::PlacementText;
use chess_text::laws::texts_are_plain;
use dgt_frame::{Event, First, Message};
use itoa::Buffer;
use settle_core::{Outcome, Seen, Settler};
use std::alloc::{AllocError, Global};
use watched_streams::{GATHERED, Lines, add};

fn is_ply(seen: &Seen) -> bool
    ensures { result ≡ is_ply seen.now }
{
    matches!(seen, Seen::Moved(_) | Seen::Replaced(_))
}

/// Adds the line of what the last picture showed, and behind a move or a correction that of the position.
fn add_seen_and_position(lines: &mut Lines, offset: u32, seen: &Seen, settler: &Settler)
    requires room { array_vec_len lines.old + 384 ≤ GATHERED }
    requires may { MayTell settler.now.start settler.now.score seen.now }
    ensures told { (shown : List ℕ) → settler.now.last ≡ Some shown → (text : List ℕ)
        × TellsSeenAndPosition offset settler.now.start settler.now.score shown seen.now text × (lines.new.items ≡ lines.old.items ++ text) }
    ensures len { array_vec_len lines.new ≤ array_vec_len lines.old + 384 }
{
    add_seen(lines, offset, seen, settler);
    if is_ply(seen) {
        add_position(lines, offset, settler.position());
    }
}

/// Adds the line of a picture that waits, and that of the squares on which it differs from the position. Most lines of
/// a game are these two, so their offset is made once.
fn add_picture_that_waits(lines: &mut Lines, offset: u32, placement: &PlacementText, differs: u64)
    requires { array_vec_len lines.old + 320 ≤ GATHERED }
    ensures told { (stands seen : List ℕ) → IsDiff differs stands seen → lines.new.items
        ≡ (lines.old.items ++ line offset (picture_words (picture_in placement.now))) ++ line offset (waiting_words (squares_text stands seen)) }
    ensures len { array_vec_len lines.new ≤ array_vec_len lines.old + 320 }
{
    let mut buffer = Buffer::new();
    let at = buffer.format(offset).as_bytes();
    add(lines, at);
    add(lines, b" picture ");
    placement.add_to(lines);
    add(lines, b"\n");
    add(lines, at);
    add(lines, b" ");
    add_waiting_words(lines, differs);
}

/// Adds the lines of a picture that is a new one: itself, what it showed, and behind a move or a correction the
/// position.
fn add_shown(
    lines: &mut Lines,
    offset: u32,
    placement: &PlacementText,
    seen: &Seen,
    settler: &Settler,
)
    requires room { array_vec_len lines.old + 480 ≤ GATHERED }
    requires may { MayTell settler.now.start settler.now.score seen.now }
    ensures told { (shown : List ℕ) → settler.now.last ≡ Some shown → (text : List ℕ)
        × TellsSeenAndPosition offset settler.now.start settler.now.score shown seen.now text
        × (lines.new.items ≡ (lines.old.items ++ line offset (picture_words (picture_in placement.now))) ++ text) }
    ensures len { array_vec_len lines.new ≤ array_vec_len lines.old + 480 }
{
    if let Seen::Waits = seen {
        add_picture_that_waits(lines, offset, placement, settler.differs());
        return;
    }
    add_picture(lines, offset, placement);
    add_seen_and_position(lines, offset, seen, settler);
}

/// Adds the lines of the result and of the position, where the result has become another one.
fn add_result_and_position(
    lines: &mut Lines,
    offset: u32,
    old: Option<Outcome>,
    new: Option<Outcome>,
    position: &Position,
)
    requires { array_vec_len lines.old + 192 ≤ GATHERED }
    ensures told { (text : List ℕ) × TellsResultAndPosition offset old new position.now text × (lines.new.items ≡ lines.old.items ++ text) }
    ensures len { array_vec_len lines.new ≤ array_vec_len lines.old + 192 }
{
    if !is_same(new, old) {
        add_result(lines, offset, new);
        add_position(lines, offset, position);
    }
}

fn is_same_reading(a: &Option<Reading>, b: &Option<Reading>) -> bool
    ensures { IsTrue result ↔ (a.now ≡ b.now) }
{
    *a == *b
}

fn is_time(event: &Event) -> bool
    ensures { result ≡ is_time event.now }
{
    matches!(event, Event::Message(Message::Time(_)))
}

/// Adds the line of what the clocks show, where it has changed. Only a time message changes it.
fn add_new_reading(
    lines: &mut Lines,
    offset: u32,
    event: &Event,
    old: &Option<Reading>,
    new: &Option<Reading>,
)
    requires room { array_vec_len lines.old + 40 ≤ GATHERED }
    requires kept { is_time event.now ≡ false → new.now ≡ old.now }
    ensures { (timed : List GameLine) × ShowsReading offset old.now new.now timed × (lines.new.items ≡ lines.old.items ++ text_of timed) }
{
    if !is_time(event) {
        return;
    }
    if !is_same_reading(new, old) {
        add_reading(lines, offset, new);
    }
}

fn copy(taken: &Taken) -> Taken
    ensures { result ≡ taken.now }
{
    *taken
}

/// Follows the game of the events of a board, and makes the lines of what each event makes of it and shows.
#[derive(Drop)]
pub struct Watcher {
    follower: Follower,
    rotated: bool,
    placement: PlacementText,
}

impl Watcher {
    ghost use Rattle.dgt_frame.specs.declared.events.Event.{Event as EventOf};
    ghost use Rattle.board_events.specs.Settings.{Setting};
    ghost use Rattle.board_events.specs.Session.{TellsTaken, WantsMemory};
    ghost use Rattle.board_listing.specs.Inside.Watchers.{AddsShown, AddsWatched, HasWatched, ShowsNews};

    /// A watcher that was given no event. Takes no memory.
    pub fn new(alloc: Global, start: Position, first: First, rotated: bool) -> Watcher
        ensures { let setting : Setting = record { start = start; first = first; rotated = rotated } in HasWatched result setting [] }
    {
        Watcher {
            follower: Follower::new(alloc, start, first, rotated),
            rotated,
            placement: PlacementText::new(),
        }
    }

    /// Adds the lines of an event at this offset: five at most. Returns what the session has told of it.
    ///
    /// # Errors
    ///
    /// Memory is taken only where the event gives a move. Where there is none, no line is added.
    pub fn add(
        &mut self,
        lines: &mut Lines,
        offset: u32,
        event: &Event,
    ) -> Result<Taken, AllocError>
        requires room { array_vec_len lines.old + ROOM ≤ GATHERED }
        requires frame { HasFrame event.now }
        requires watched { (setting : Setting) × (past : List EventOf) × HasWatched self.old setting past }
        ensures ok { OnOk result (AddsWatched self.old lines.old.items (record { offset = offset; event = event.now }) self.new lines.new.items) }
        ensures tells { (setting : Setting) (past : List EventOf) → HasWatched self.old setting past
            → IfOk result (TellsTaken setting past event.now) }
        ensures err { OnErr result (lines.new.items ≡ lines.old.items) }
        ensures memory { (setting : Setting) (past : List EventOf) → HasWatched self.old setting past
            → OnErr result (WantsMemory setting past event.now) }
    {
        // For its clause: a SAN is one word.
        texts_are_plain();
        let old = self.follower.session.reading();
        let taken = match self.follower.session.take_ref(event) {
            Ok(taken) => taken,
            Err(error) => return Err(error),
        };
        let told = copy(&taken);
        self.tell(lines, offset, event, taken);
        add_new_reading(lines, offset, event, &old, &self.follower.session.reading());
        Ok(told)
    }

    /// The session, for callers who show more of the game.
    pub fn session(&self) -> &Session
        ensures { result.now ≡ self.now.follower.session }
    {
        &self.follower.session
    }

    /// The result of the game so far.
    pub fn result(&self) -> Option<Outcome>
        ensures { result ≡ self.now.follower.told }
    {
        self.follower.told
    }

    /// Adds the lines of what an event shows and makes of the game, once the session has taken it. What the session
    /// calls the same picture again is no new one.
    fn tell(&mut self, lines: &mut Lines, offset: u32, event: &Event, taken: Taken)
        requires room { array_vec_len lines.old + 672 ≤ GATHERED }
        requires frame { HasFrame event.now }
        requires may { taken.asks_dump ≡ false → IfSome taken.seen (λ seen. seen ≢ SeenOf.Same
            → MayTell self.old.follower.session.settler.start self.old.follower.session.settler.score seen) }
        ensures fault { taken.asks_dump ≡ true → (self.new ≡ self.old)
            × (lines.new.items ≡ lines.old.items ++ line_of (record { offset = offset; event = event.now })) }
        ensures none { taken.asks_dump ≡ false → taken.seen ≡ None → (self.new ≡ self.old) × (lines.new.items ≡ lines.old.items) }
        ensures same { taken.asks_dump ≡ false → taken.seen ≡ Some SeenOf.Same → (self.new ≡ self.old) × (lines.new.items ≡ lines.old.items) }
        ensures told { taken.asks_dump ≡ false → (seen : SeenOf) → taken.seen ≡ Some seen → seen ≢ SeenOf.Same
            → ShowsNews self.old offset event.now seen lines.old.items self.new lines.new.items }
        ensures session { self.new.follower.session ≡ self.old.follower.session }
        ensures rotated { self.new.rotated ≡ self.old.rotated }
        ensures len { array_vec_len lines.new ≤ array_vec_len lines.old + 672 }
    {
        if taken.asks_dump {
            add_line(lines, offset, event);
            return;
        }
        if let Some(seen) = taken.seen
            && is_news(&seen)
        {
            draw(&mut self.placement, self.rotated, event);
            self.tell_news(lines, offset, seen);
        }
    }

    /// Adds the lines of a picture that is a new one, which is drawn.
    fn tell_news(&mut self, lines: &mut Lines, offset: u32, seen: Seen)
        requires room { array_vec_len lines.old + 672 ≤ GATHERED }
        requires may { MayTell self.old.follower.session.settler.start self.old.follower.session.settler.score seen }
        ensures told { AddsShown self.old.follower offset (picture_in self.old.placement) seen lines.old.items self.new.follower lines.new.items }
        ensures session { self.new.follower.session ≡ self.old.follower.session }
        ensures drawn { (self.new.rotated ≡ self.old.rotated) × (self.new.placement ≡ self.old.placement) }
        ensures len { array_vec_len lines.new ≤ array_vec_len lines.old + 672 }
    {
        let settler = self.follower.session.settler();
        add_shown(lines, offset, &self.placement, &seen, settler);
        let now = result_now(settler, &seen, self.follower.told);
        add_result_and_position(lines, offset, self.follower.told, now, settler.position());
        self.follower.told = now;
    }
}
