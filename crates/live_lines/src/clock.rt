//! The clock of all calls.
ghost use Rattle.std.specs.Prelude.{◌≡◌};
ghost use Rattle.live_lines.specs.Clock.{began_by, first_clock, next_clock};

use crate::entries::{Entry, What};
use board_times::What as Happening;

/// Counts on from one call to the next, in milliseconds.
#[derive(Clone, Copy)]
pub struct Clock {
    /// When this call began.
    began: u64,
    /// The time of the last entry.
    last: u64,
}

fn began_by(what: What, last: u64, began: u64) -> u64
    ensures { result ≡ began_by what last began }
{
    match what {
        What::Happens(Happening::Begins(_)) => last,
        What::Happens(Happening::IsAway(n)) => began.saturating_add(n),
        _ => began,
    }
}

impl Clock {
    /// Nothing was told.
    pub fn new() -> Clock
        ensures { result ≡ first_clock }
    {
        Clock { began: 0, last: 0 }
    }

    /// Takes the next entry. The result is its time on this clock.
    pub fn take(&mut self, entry: Entry) -> u64
        ensures next { self.new ≡ next_clock entry self.old }
        ensures time { result ≡ self.new.last }
    {
        self.began = began_by(entry.what, self.last, self.began);
        self.last = self.last.max(self.began.saturating_add(entry.at));
        self.last
    }

    /// The time of the last entry.
    pub fn last(&self) -> u64
        ensures { result ≡ self.now.last }
    {
        self.last
    }
}
