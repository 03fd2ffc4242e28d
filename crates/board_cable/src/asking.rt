//! The machine: it takes what happens on a board's line, and says when to ask the board, and what.
ghost use Rattle.std.specs.Prelude.{◌≡◌, ◌<◌, ◌∷◌, [], List, IfSome};
ghost use Rattle.board_cable.specs.declared.line.Event.{Event as EventOf};
ghost use Rattle.board_cable.specs.declared.line.Happening.TheVariants.{Dumps, Updates};
ghost use Rattle.board_cable.specs.Pace.{AsksAlike, asks};
ghost use Rattle.board_cable.specs.Silence.{is_silent};
ghost use Rattle.board_cable.specs.Whose.{HandledAlike, handling_at, is_own, own_number, shown_number};
ghost use Rattle.board_cable.specs.Asking.{Changes, StandsFor, next_request, request_at, with_request};

use crate::lasting::sooner;
use crate::line::{Event, Happening, Request};
use crate::pace::Pace;
use crate::silence::Silence;
use crate::starting::Starting;
use crate::whose::{Handling, Whose};

/// Says when to ask a board and what, whether it is silent, and what is done with what it sends.
#[derive(Clone, Copy)]
pub struct Asking {
    pace: Pace,
    starting: Starting,
    silence: Silence,
    whose: Whose,
}

impl Asking {
    /// Nothing has happened.
    pub fn new() -> Asking
        ensures { StandsFor result [] }
    {
        Asking {
            pace: Pace::new(),
            starting: Starting::new(),
            silence: Silence::new(),
            whose: Whose::new(),
        }
    }

    /// Takes what happens.
    pub fn take(&mut self, event: Event)
        ensures { (past : List EventOf) → StandsFor self.old past → StandsFor self.new (event ∷ past) }
    {
        self.pace.take(event);
        self.starting.take(event);
        self.silence.take(event);
        self.whose.take(event);
    }

    /// Takes an update, which most of what happens is.
    pub fn take_update(&mut self, at: u64)
        ensures { let event : EventOf = record { at = at; what = Updates } in (past : List EventOf) → StandsFor self.old past → StandsFor self.new (event ∷ past) }
    {
        self.pace.take_update(at);
        self.starting.take_update();
    }

    /// Takes a dump.
    pub fn take_dump(&mut self, at: u64, picture: &[u8; 64])
        ensures { let event : EventOf = record { at = at; what = Dumps picture.now } in (past : List EventOf) → StandsFor self.old past → StandsFor self.new (event ∷ past) }
    {
        self.pace.take_dump(at);
        self.starting.take_dump(picture);
        self.silence.take_dump(at);
        self.whose.take_dump();
    }

    /// What the next request is.
    fn next_request(&self) -> Request
        ensures { (past : List EventOf) → StandsFor self.now past → result ≡ next_request past }
    {
        if self.pace.is_unanswered() || self.starting.is_start() {
            return Request::Start;
        }
        if self.whose.is_asked() {
            Request::Numbered
        } else {
            Request::Dump
        }
    }

    /// The request that is to be sent now, if any.
    fn request(&self, now: u64) -> Option<Request>
        ensures { (past : List EventOf) → StandsFor self.now past → result ≡ request_at now past }
    {
        if self.pace.asks(now) {
            Some(self.next_request())
        } else {
            None
        }
    }

    /// The request that is to be sent now, if any. It counts as sent.
    pub fn wake(&mut self, now: u64) -> Option<Request>
        ensures request { (past : List EventOf) → StandsFor self.old past → result ≡ request_at now past }
        ensures stands { (past : List EventOf) → StandsFor self.old past → StandsFor self.new (with_request now result past) }
    {
        let request = self.request(now);
        if let Some(request) = request {
            self.take(Event {
                at: now,
                what: Happening::Asks(request),
            });
        }
        request
    }

    /// When to wake, if nothing happens: none of what is said here changes before, once `wake` was called. Then the board is asked,
    /// or something else is done with what it sends. None: never.
    pub fn due(&self, now: u64) -> Option<u64>
        ensures later { IfSome result (λ due. now < due) }
        ensures asks { (past : List EventOf) → StandsFor self.now past → AsksAlike now past result }
        ensures handling { (past : List EventOf) → StandsFor self.now past → HandledAlike now past result }
        ensures changes { (past : List EventOf) → StandsFor self.now past → IfSome result (λ due. Changes now past due) }
    {
        sooner(self.pace.due(now), self.whose.due(now))
    }

    /// Whether the board sends no dump, though it was asked for 5 s.
    pub fn is_silent(&self) -> bool
        ensures { (past : List EventOf) → StandsFor self.now past → result ≡ is_silent past }
    {
        self.silence.is_silent()
    }

    /// The serial number of the game's board, if it is known.
    pub fn serial(&self) -> Option<[u8; 5]>
        ensures { (past : List EventOf) → StandsFor self.now past → result ≡ own_number past }
    {
        self.whose.own()
    }

    /// The serial number of the board on the cable, if it has sent one since the line was opened.
    pub fn shown(&self) -> Option<[u8; 5]>
        ensures { (past : List EventOf) → StandsFor self.now past → result ≡ shown_number past }
    {
        self.whose.shown()
    }

    /// Whether the board on the cable is the game's own: since the line was opened it has sent the number that was known then, or was
    /// said since.
    pub fn is_own(&self) -> bool
        ensures { (past : List EventOf) → StandsFor self.now past → result ≡ is_own past }
    {
        self.whose.is_own()
    }

    /// What is done now with what the board sends.
    pub fn handling(&self, now: u64) -> Handling
        ensures { (past : List EventOf) → StandsFor self.now past → result ≡ handling_at now past }
    {
        self.whose.handling(now)
    }
}
