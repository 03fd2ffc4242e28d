//! How long the last move has stood.
ghost use Rattle.std.specs.Prelude.{◌≡◌, ◌+◌, ◌∷◌, [], ℕ, List, min};
ghost use Rattle.board_doubts.specs.declared.heard.Event.{Event as EventOf};
ghost use Rattle.board_doubts.specs.declared.heard.Heard.TheVariants.{Shows};
ghost use Rattle.board_doubts.specs.Recent.{day};
ghost use Rattle.board_doubts.specs.Waiting.{waited};
ghost use Rattle.board_doubts.specs.Keeping.{KeepsWaited, from_mark};

use crate::heard::{Event, Heard, Seen};
use crate::recent::DAY;

/// The time since the last move, as far as it counts.
#[derive(Clone, Copy)]
pub struct Waited {
    /// What counted up to the mark.
    counted: u64,
    mark: u64,
    /// The time from the mark on counts.
    counts: bool,
}

impl Waited {
    /// Nothing was heard.
    pub fn new() -> Waited
        ensures { KeepsWaited result [] }
    {
        Waited {
            counted: 0,
            mark: 0,
            counts: false,
        }
    }

    /// The time up to now, at most a day.
    fn counted_until(&self, now: u64) -> u64
        ensures { result ≡ min day (self.now.counted + from_mark self.now now) }
    {
        let since = if self.counts {
            now.saturating_sub(self.mark)
        } else {
            0
        };
        let sum = self.counted.min(DAY) + since.min(DAY);
        sum.min(DAY)
    }

    /// Takes what is heard.
    pub fn take(&mut self, event: Event)
        ensures { (past : List EventOf) → KeepsWaited self.old past → KeepsWaited self.new (event ∷ past) }
    {
        match event.what {
            Heard::Shows(seen) => self.see(event.at, event.is_added, &seen),
            Heard::Moves { .. } | Heard::Corrects { .. } => {
                self.counted = 0;
                self.mark = event.at;
                self.counts = true;
            }
            _ => {}
        }
    }

    /// Takes a picture.
    pub fn see(&mut self, at: u64, is_added: bool, seen: &Seen)
        ensures { let event : EventOf = record { at = at; is_added = is_added; what = Shows seen.now } in (past : List EventOf)
            → KeepsWaited self.old past → KeepsWaited self.new (event ∷ past) }
    {
        self.counted = self.counted_until(at);
        self.mark = at;
        self.counts = !seen.is_back;
    }

    /// The time since the last move.
    pub fn until(&self, now: u64) -> u64
        ensures { (past : List EventOf) → KeepsWaited self.now past → result ≡ waited now past }
    {
        self.counted_until(now)
    }
}
