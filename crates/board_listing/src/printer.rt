//! Events to lines.
ghost use Rattle.std.specs.Prelude.{◌≡◌, ◌≤◌, ◌+◌, ◌∷◌, [], ◌++◌, List, OnErr, OnOk};
ghost use Rattle.arrayvec.specs.ArrayVec.{array_vec_len};
ghost use Rattle.dgt_frame.specs.declared.events.Event.{Event as EventOf};
ghost use Rattle.dgt_frame.specs.Streams.{HasFrame, Timed};
ghost use Rattle.board_events.specs.Session.{WantsMemory};
ghost use Rattle.board_events.specs.Settings.{Setting};
ghost use Rattle.board_listing.specs.declared.listing.Listing.{Listing};
ghost use Rattle.board_listing.specs.Listings.{LacksMemory, first_line, last_line};
ghost use Rattle.board_listing.specs.Inside.Printers.{AddsLines, Follows, HasBegun};
ghost use Rattle.board_listing.specs.Inside.Watchers.{AddsWatched, HasWatched};

use crate::events::{add_line, add_rest};
use crate::follower::Follower;
use crate::listing::Listing;
use crate::pictures::add_placement;
use crate::watch_lines::{ROOM, add_position};
use crate::watcher::Watcher;
use board_events::{Change, View};
use chess_text::PlacementText;
use dgt_frame::Event;
use std::alloc::{AllocError, Global};
use watched_streams::{GATHERED, Lines};

/// Adds the first line, if there is one: it stands before those of all events.
pub fn add_first(lines: &mut Lines, listing: &Listing)
    requires { array_vec_len lines.old + ROOM ≤ GATHERED }
    ensures { lines.new.items ≡ lines.old.items ++ first_line listing.now }
{
    if let Listing::Watched { start, .. } = listing {
        add_position(lines, 0, start);
    }
}

/// Adds the lines of an event that is watched.
fn watch(
    watcher: &mut Watcher,
    lines: &mut Lines,
    offset: u32,
    event: &Event,
) -> Result<(), AllocError>
    requires room { array_vec_len lines.old + ROOM ≤ GATHERED }
    requires frame { HasFrame event.now }
    requires watched { (setting : Setting) × (past : List EventOf) × HasWatched watcher.old setting past }
    ensures ok { OnOk result (AddsWatched watcher.old lines.old.items (record { offset = offset; event = event.now }) watcher.new lines.new.items) }
    ensures err { OnErr result (lines.new.items ≡ lines.old.items) }
    ensures memory { (setting : Setting) (past : List EventOf) → HasWatched watcher.old setting past
        → OnErr result (WantsMemory setting past event.now) }
{
    match watcher.add(lines, offset, event) {
        Ok(_) => Ok(()),
        Err(error) => Err(error),
    }
}

/// Follows the events of a stream, and makes the lines that are listed of them.
#[derive(Drop)]
pub enum Printer {
    Events,
    Pictures(View, PlacementText),
    Game(Follower),
    Watched(Watcher),
}

impl Printer {
    /// A printer that has followed no event.
    pub fn new(alloc: Global, listing: Listing) -> Printer
        ensures { Follows result listing [] }
    {
        match listing {
            Listing::Events => Printer::Events,
            Listing::Pictures { rotated } => {
                Printer::Pictures(View::new(rotated), PlacementText::new())
            }
            Listing::Game {
                start,
                first,
                rotated,
            } => { Printer::Game(Follower::new(alloc, start, first, rotated)) }
            Listing::Watched {
                start,
                first,
                rotated,
            } => { Printer::Watched(Watcher::new(alloc, start, first, rotated)) }
        }
    }

    /// Adds the lines of an event at this offset: five at most, or none.
    ///
    /// # Errors
    ///
    /// Memory is taken only under `Game` and `Watched`, where the event gives a move. Where that is refused, no line is
    /// added.
    pub fn add(&mut self, lines: &mut Lines, offset: u32, event: &Event) -> Result<(), AllocError>
        requires room { array_vec_len lines.old + ROOM ≤ GATHERED }
        requires frame { HasFrame event.now }
        requires begun { HasBegun self.old }
        ensures ok { OnOk result (AddsLines self.old lines.old.items (record { offset = offset; event = event.now }) self.new lines.new.items) }
        ensures err { OnErr result (lines.new.items ≡ lines.old.items) }
        ensures memory { (listing : Listing) (events : List Timed) → Follows self.old listing events
            → OnErr result (LacksMemory listing events (record { offset = offset; event = event.now })) }
    {
        match self {
            Printer::Events => {
                add_line(lines, offset, event);
                Ok(())
            }
            Printer::Pictures(view, placement) => {
                match view.see(event) {
                    Change::Nothing => {}
                    Change::Square { square, code } => {
                        placement.change(square, code);
                        add_placement(lines, placement);
                    }
                    Change::Picture => {
                        placement.show(view.picture());
                        add_placement(lines, placement);
                    }
                }
                Ok(())
            }
            Printer::Game(follower) => follower.add(lines, offset, event),
            Printer::Watched(watcher) => watch(watcher, lines, offset, event),
        }
    }

    /// Adds the last line, if there is one.
    pub fn end(&self, lines: &mut Lines, rest: u16)
        requires { array_vec_len lines.old + ROOM ≤ GATHERED }
        ensures { (listing : Listing) (events : List Timed) → Follows self.now listing events
            → lines.new.items ≡ lines.old.items ++ last_line listing rest }
    {
        match self {
            Printer::Events | Printer::Game(_) | Printer::Watched(_) => add_rest(lines, rest),
            Printer::Pictures(..) => {}
        }
    }
}
