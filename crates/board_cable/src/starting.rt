//! Whether the next request asks for updates too.
ghost use Rattle.std.specs.Prelude.{◌≡◌, ◌∷◌, [], ℕ, List};
ghost use Rattle.std.specs.Str.{bytes_eq};
ghost use Rattle.board_cable.specs.declared.line.Event.{Event as EventOf};
ghost use Rattle.board_cable.specs.declared.line.Happening.TheVariants.{Dumps, Updates};
ghost use Rattle.board_cable.specs.Starting.{HasStarting, differs, is_start, last_dump_by, start_by, updates_by};

use crate::line::{Event, Happening};

/// What decides whether updates are asked for.
#[derive(Clone, Copy)]
pub struct Starting {
    dump: Option<[u8; 64]>,
    has_updated: bool,
    is_start: bool,
}

fn last_dump(what: Happening, before: Option<[u8; 64]>) -> Option<[u8; 64]>
    ensures { result ≡ last_dump_by what before }
{
    match what {
        Happening::Dumps(picture) => Some(picture),
        Happening::Begins | Happening::Opens => None,
        _ => before,
    }
}

fn updates(what: Happening, before: bool) -> bool
    ensures { result ≡ updates_by what before }
{
    match what {
        Happening::Updates => true,
        Happening::Begins | Happening::Opens | Happening::Dumps(_) => false,
        _ => before,
    }
}

fn are_same(picture: &[u8], other: &[u8]) -> bool
    ensures { result ≡ bytes_eq picture.now other.now }
{
    *picture == *other
}

fn differs_from(picture: &[u8; 64], last: &Option<[u8; 64]>) -> bool
    ensures { result ≡ differs picture.now last.now }
{
    match last {
        None => false,
        Some(last) => !are_same(picture, last),
    }
}

fn starts(what: Happening, last: &Option<[u8; 64]>, has_updated: bool, before: bool) -> bool
    ensures { result ≡ start_by what last.now has_updated before }
{
    match what {
        Happening::Opens => true,
        Happening::Dumps(picture) => before || (!has_updated && differs_from(&picture, last)),
        Happening::Begins | Happening::Asks(_) => false,
        _ => before,
    }
}

impl Starting {
    /// Nothing has happened.
    pub fn new() -> Starting
        ensures { HasStarting result [] }
    {
        Starting {
            dump: None,
            has_updated: false,
            is_start: false,
        }
    }

    /// Takes what happens.
    pub fn take(&mut self, event: Event)
        ensures { (past : List EventOf) → HasStarting self.old past → HasStarting self.new (event ∷ past) }
    {
        self.is_start = starts(event.what, &self.dump, self.has_updated, self.is_start);
        self.has_updated = updates(event.what, self.has_updated);
        self.dump = last_dump(event.what, self.dump);
    }

    /// Takes an update.
    pub fn take_update(&mut self)
        ensures { (event : EventOf) (past : List EventOf) → event.what ≡ Updates → HasStarting self.old past → HasStarting self.new (event ∷ past) }
    {
        self.has_updated = true;
    }

    /// Takes a dump.
    pub fn take_dump(&mut self, picture: &[u8; 64])
        ensures { (event : EventOf) (past : List EventOf) → event.what ≡ Dumps picture.now → HasStarting self.old past → HasStarting self.new (event ∷ past) }
    {
        self.is_start = self.is_start || (!self.has_updated && differs_from(picture, &self.dump));
        self.has_updated = false;
        self.dump = Some(*picture);
    }

    /// Whether the board may have forgotten that updates are wanted, or was never asked for them.
    pub fn is_start(&self) -> bool
        ensures { (past : List EventOf) → HasStarting self.now past → result ≡ is_start past }
    {
        self.is_start
    }
}
