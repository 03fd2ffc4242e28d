//! Events to what they make of a game.
ghost use Rattle.std.specs.Prelude.{◌≡◌, ◌≢◌, ◌↔◌, ◌≤◌, ◌+◌, ◌++◌, [], ℕ, List, IsTrue, OnErr, OnOk, Some, length};
ghost use Rattle.arrayvec.specs.ArrayVec.{array_vec_len};
ghost use Rattle.dgt_frame.specs.Streams.{HasFrame};
ghost use Rattle.settle_core.specs.declared.plies.Seen.{Seen as SeenOf};
ghost use Rattle.board_listing.specs.GameText.{HasResult, TellsPly, TellsResult, TellsSeen};
ghost use Rattle.board_listing.specs.Inside.News.{AddsNews, LastIsLegal, MayTell};

use crate::events::add_line;
use crate::game_lines::{add_ply, add_result, add_waiting};
use board_events::Session;
use chess_rules::Position;
use dgt_frame::{Event, First};
use pgn_book::result_at;
use settle_core::{Outcome, Seen, Settler};
use std::alloc::{AllocError, Global};
use watched_streams::{GATHERED, LONGEST, Lines};

/// Adds the line of the latest ply, with this word before it.
fn add_last(lines: &mut Lines, offset: u32, word: &[u8], settler: &Settler)
    requires room { array_vec_len lines.old + 128 ≤ GATHERED }
    requires short { length word.now ≤ 16 }
    requires last { LastIsLegal settler.now.start settler.now.score.plies }
    ensures told { (text : List ℕ) × TellsPly offset word.now settler.now.start settler.now.score.plies text
        × (lines.new.items ≡ lines.old.items ++ text) }
    ensures len { array_vec_len lines.new ≤ array_vec_len lines.old + 128 }
{
    let Some(last) = settler.last_ply() else {
        unreachable!();
    };
    add_ply(lines, offset, word, &last.0, &last.1);
}

/// Adds the line of what the last picture showed, where there is one.
pub fn add_seen(lines: &mut Lines, offset: u32, seen: &Seen, settler: &Settler)
    requires room { array_vec_len lines.old + 224 ≤ GATHERED }
    requires may { MayTell settler.now.start settler.now.score seen.now }
    ensures told { (shown : List ℕ) → settler.now.last ≡ Some shown → (text : List ℕ)
        × TellsSeen offset settler.now.start settler.now.score shown seen.now text × (lines.new.items ≡ lines.old.items ++ text) }
    ensures len { array_vec_len lines.new ≤ array_vec_len lines.old + 224 }
{
    match seen {
        Seen::Moved(_) => add_last(lines, offset, b"move", settler),
        Seen::Replaced(_) => add_last(lines, offset, b"correction", settler),
        Seen::Sign(_) => {}
        Seen::Waits => add_waiting(lines, offset, settler.differs()),
        Seen::Same => unreachable!(),
    }
}

/// The result of the game so far. A picture that waits leaves what was told.
pub fn result_now(settler: &Settler, seen: &Seen, told: Option<Outcome>) -> Option<Outcome>
    ensures { (seen.now ≡ SeenOf.Waits → HasResult settler.now.start settler.now.score told)
        → HasResult settler.now.start settler.now.score result }
{
    match seen {
        Seen::Waits => told,
        _ => result_at(settler.position(), settler.sign()),
    }
}

pub fn is_same(a: Option<Outcome>, b: Option<Outcome>) -> bool
    ensures { IsTrue result ↔ (a ≡ b) }
{
    a == b
}

/// Adds the line of the result, where it has become another one.
fn add_new_result(lines: &mut Lines, offset: u32, old: Option<Outcome>, new: Option<Outcome>)
    requires { array_vec_len lines.old + 32 ≤ GATHERED }
    ensures { (text : List ℕ) × TellsResult offset old new text × (lines.new.items ≡ lines.old.items ++ text) }
{
    if !is_same(new, old) {
        add_result(lines, offset, new);
    }
}

pub fn is_news(seen: &Seen) -> bool
    ensures { IsTrue result ↔ (seen.now ≢ SeenOf.Same) }
{
    !matches!(seen, Seen::Same)
}

/// Follows the game of the events of a board, and makes the lines of what each event makes of it.
#[derive(Drop)]
pub struct Follower {
    pub session: Session,
    /// The result that was told last: that of the game so far.
    pub told: Option<Outcome>,
}

impl Follower {
    ghost use Rattle.dgt_frame.specs.declared.events.Event.{Event as EventOf};
    ghost use Rattle.board_events.specs.Settings.{Setting};
    ghost use Rattle.board_events.specs.Session.{WantsMemory};
    ghost use Rattle.board_listing.specs.Inside.Followers.{AddsEvent, HasFollowed};

    /// A follower that was given no event. Takes no memory.
    pub fn new(alloc: Global, start: Position, first: First, rotated: bool) -> Follower
        ensures { let setting : Setting = record { start = start; first = first; rotated = rotated } in HasFollowed result setting [] }
    {
        // For its clause: the start is valid.
        start.parts();
        let told = result_at(&start, None);
        Follower {
            session: Session::new(alloc, start, first, rotated),
            told,
        }
    }

    /// Adds the lines of an event at this offset: two, one or none.
    ///
    /// # Errors
    ///
    /// Memory is taken only where the event gives a move. Where there is none, no line is added.
    pub fn add(&mut self, lines: &mut Lines, offset: u32, event: &Event) -> Result<(), AllocError>
        requires room { array_vec_len lines.old + LONGEST ≤ GATHERED }
        requires frame { HasFrame event.now }
        requires followed { (setting : Setting) × (past : List EventOf) × HasFollowed self.old setting past }
        ensures ok { OnOk result (AddsEvent self.old lines.old.items (record { offset = offset; event = event.now }) self.new lines.new.items) }
        ensures err { OnErr result (lines.new.items ≡ lines.old.items) }
        ensures memory { (setting : Setting) (past : List EventOf) → HasFollowed self.old setting past
            → OnErr result (WantsMemory setting past event.now) }
    {
        let taken = match self.session.take_ref(event) {
            Ok(taken) => taken,
            Err(error) => return Err(error),
        };
        if taken.asks_dump {
            add_line(lines, offset, event);
            return Ok(());
        }
        let Some(seen) = taken.seen else {
            return Ok(());
        };
        self.tell(lines, offset, seen);
        Ok(())
    }

    /// Adds the lines of what the last picture showed.
    fn tell(&mut self, lines: &mut Lines, offset: u32, seen: Seen)
        requires room { array_vec_len lines.old + LONGEST ≤ GATHERED }
        requires may { seen ≢ SeenOf.Same → MayTell self.old.session.settler.start self.old.session.settler.score seen }
        ensures same { seen ≡ SeenOf.Same → (self.new ≡ self.old) × (lines.new.items ≡ lines.old.items) }
        ensures told { seen ≢ SeenOf.Same → (shown : List ℕ) → self.old.session.settler.last ≡ Some shown
            → (seen ≡ SeenOf.Waits → HasResult self.old.session.settler.start self.old.session.settler.score self.old.told)
            → AddsNews offset self.old.session.settler.start self.old.session.settler.score shown seen self.old.told self.new.told lines.old.items lines.new.items }
        ensures session { self.new.session ≡ self.old.session }
    {
        if !is_news(&seen) {
            return;
        }
        let settler = self.session.settler();
        add_seen(lines, offset, &seen, settler);
        let now = result_now(settler, &seen, self.told);
        add_new_result(lines, offset, self.told, now);
        self.told = now;
    }
}
