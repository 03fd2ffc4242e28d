//! When a board is silent.
ghost use Rattle.std.specs.Prelude.{◌≡◌, ◌∷◌, [], ℕ, List};
ghost use Rattle.board_cable.specs.declared.line.Event.{Event as EventOf};
ghost use Rattle.board_cable.specs.declared.line.Happening.TheVariants.{Dumps};
ghost use Rattle.board_cable.specs.Silence.{HasSilence, heard_by, is_silent, lost_by, silent_by};

use crate::lasting::lasted;
use crate::line::{Event, Happening};

/// What decides whether a board is silent.
#[derive(Clone, Copy)]
pub struct Silence {
    lost: u8,
    heard: Option<u64>,
    is_silent: bool,
}

fn lost(what: Happening, before: u8) -> u8
    ensures { result ≡ lost_by what before }
{
    match what {
        Happening::Asks(_) => before.saturating_add(1).min(3),
        Happening::Begins | Happening::Opens | Happening::Dumps(_) => 0,
        _ => before,
    }
}

fn heard(what: Happening, at: u64, before: Option<u64>) -> Option<u64>
    ensures { result ≡ heard_by what at before }
{
    match what {
        Happening::Opens | Happening::Dumps(_) => Some(at),
        Happening::Begins => None,
        _ => before,
    }
}

fn silent(what: Happening, at: u64, lost: u8, heard: Option<u64>, before: bool) -> bool
    ensures { result ≡ silent_by what at lost heard before }
{
    match what {
        Happening::Asks(_) => before || (lost == 3 && lasted(5000, at, heard)),
        Happening::Begins | Happening::Closes | Happening::Dumps(_) => false,
        _ => before,
    }
}

impl Silence {
    /// Nothing has happened.
    pub fn new() -> Silence
        ensures { HasSilence result [] }
    {
        Silence {
            lost: 0,
            heard: None,
            is_silent: false,
        }
    }

    /// Takes what happens.
    pub fn take(&mut self, event: Event)
        ensures { (past : List EventOf) → HasSilence self.old past → HasSilence self.new (event ∷ past) }
    {
        self.is_silent = silent(event.what, event.at, self.lost, self.heard, self.is_silent);
        self.lost = lost(event.what, self.lost);
        self.heard = heard(event.what, event.at, self.heard);
    }

    /// Takes a dump.
    pub fn take_dump(&mut self, at: u64)
        ensures { (event : EventOf) (picture : List ℕ) (past : List EventOf) → event.at ≡ at → event.what ≡ Dumps picture → HasSilence self.old past → HasSilence self.new (event ∷ past) }
    {
        self.is_silent = false;
        self.lost = 0;
        self.heard = Some(at);
    }

    /// Whether the board is silent.
    pub fn is_silent(&self) -> bool
        ensures { (past : List EventOf) → HasSilence self.now past → result ≡ is_silent past }
    {
        self.is_silent
    }
}
