//! The last plies of a game.
ghost use Rattle.std.specs.Prelude.{◌≡◌, ℕ, None, Option};
ghost use Rattle.board_doubts.specs.declared.heard.Ply.{Ply as PlyOf};
ghost use Rattle.board_doubts.specs.Plies.{both_back as both_back_of, both_further as both_further_of, is_back as is_back_of, is_further as is_further_of, pair_by, played_by};
ghost use Rattle.board_doubts.specs.Keeping.{KeepsPlies};

use crate::heard::{Heard, Ply};
use crate::ways::are_on_line;

/// The last plies, each side's last two.
#[derive(Clone, Copy)]
pub struct Plies {
    last: Option<Ply>,
    second: Option<Ply>,
    third: Option<Ply>,
    fourth: Option<Ply>,
}

/// Whether the later ply takes the earlier one back.
fn is_back(later: Option<Ply>, earlier: Option<Ply>) -> bool
    ensures { result ≡ is_back_of later earlier }
{
    match (later, earlier) {
        (Some(later), Some(earlier)) => later.from == earlier.to && later.to == earlier.from,
        _ => false,
    }
}

/// Whether the later ply moves the same piece on, and not back, to where it could have gone at once.
fn is_further(later: Option<Ply>, earlier: Option<Ply>) -> bool
    ensures { result ≡ is_further_of later earlier }
{
    match (later, earlier) {
        (Some(later), Some(earlier)) => later.from == earlier.to
            && later.to != earlier.from
            && are_on_line(earlier.from, later.to),
        _ => false,
    }
}

/// How many plies of a pair that is put in are still to come.
pub fn pair_after(what: Heard, before: u64) -> u64
    ensures { result ≡ pair_by what before }
{
    match what {
        Heard::PutsIn => 2,
        Heard::Plays(_) => before.saturating_sub(1),
        _ => before,
    }
}

impl Plies {
    /// No ply.
    pub fn new() -> Plies
        ensures { KeepsPlies result (λ n. None) }
    {
        Plies {
            last: None,
            second: None,
            third: None,
            fourth: None,
        }
    }

    /// These plies after what is heard.
    pub fn after(&self, what: Heard) -> Plies
        ensures { (plies : ℕ → Option PlyOf) → KeepsPlies self.now plies → KeepsPlies result (played_by what plies) }
    {
        match what {
            Heard::Plays(ply) => Plies {
                last: Some(ply),
                second: self.last,
                third: self.second,
                fourth: self.third,
            },
            Heard::Replaces(ply) => Plies {
                last: Some(ply),
                ..*self
            },
            Heard::Reopens | Heard::PutsBack => Plies::new(),
            _ => *self,
        }
    }

    /// Whether both sides have moved on the pieces that they moved before.
    pub fn both_further(&self) -> bool
        ensures { (plies : ℕ → Option PlyOf) → KeepsPlies self.now plies → result ≡ both_further_of plies }
    {
        is_further(self.last, self.third) && is_further(self.second, self.fourth)
    }

    /// Whether both sides have taken their last plies back.
    pub fn both_back(&self) -> bool
        ensures { (plies : ℕ → Option PlyOf) → KeepsPlies self.now plies → result ≡ both_back_of plies }
    {
        is_back(self.last, self.third) && is_back(self.second, self.fourth)
    }
}
