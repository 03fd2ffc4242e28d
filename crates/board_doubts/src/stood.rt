//! Where pieces have stood.
ghost use Rattle.std.specs.Prelude.{◌≡◌, ◌==◌, ◌&&◌, ◌∷◌, [], not, ℕ, Bool, List};
ghost use Rattle.std.specs.Int.{bit_at};
ghost use Rattle.square_runs.specs.Squares.{Marks};
ghost use Rattle.board_doubts.specs.Pictures.{Laid, Squares};
ghost use Rattle.board_doubts.specs.Keeping.{KeepsStood};

use crate::logic::either;
use square_runs::{Runs, has_any};

/// Where pieces have stood.
#[derive(Clone, Copy)]
pub struct Stood {
    runs: Runs,
    /// They have stood somewhere for a time.
    pub has_stood: bool,
    /// They have left such a square.
    pub has_left: bool,
}

/// The squares of a mask that another one lacks.
fn without(mask: u64, others: u64) -> u64
    ensures { (test : ℕ → Bool) → Marks mask test → Marks result (λ s. test s && not (bit_at others s == 1)) }
{
    mask & !others
}

impl Stood {
    /// No picture.
    pub fn new() -> Stood
        ensures { (squares : Squares) (span : ℕ) → KeepsStood result squares span [] }
    {
        Stood {
            runs: Runs::new(),
            has_stood: false,
            has_left: false,
        }
    }

    /// Begins anew, as if no picture had come.
    pub fn clear(&mut self)
        ensures { (squares : Squares) (span : ℕ) → KeepsStood self.new squares span [] }
    {
        self.runs.clear();
        self.has_stood = false;
        self.has_left = false;
    }

    /// Takes the squares of a picture, on which its pieces stand since this time.
    pub fn show(&mut self, span: u64, at: u64, since: u64, shown: u64)
        ensures { (squares : Squares) (picture : Laid) (past : List Laid) → picture.time ≡ at → picture.since ≡ since → squares picture ≡ shown
            → KeepsStood self.old squares span past → KeepsStood self.new squares span (picture ∷ past) }
    {
        if shown == 0 && self.runs.is_empty() {
            return;
        }
        let stood = self.runs.lasting(span, at);
        let left = without(stood, shown);
        self.has_stood = either(has_any(stood), self.has_stood);
        self.has_left = either(has_any(left), self.has_left);
        self.runs.take(since, shown);
    }
}
