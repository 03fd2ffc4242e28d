//! Since when each square has been in the masks that came.
ghost use Rattle.std.specs.Prelude.{◌≡◌, ◌<◌, ◌==◌, ◌∷◌, [], if◌then◌else◌, ℕ, Bool, IsTrue, List, None, slice_index};
ghost use Rattle.std.specs.Int.{bit_at};
ghost use Rattle.square_runs.specs.Keeping.{StandsFor, time_of};
ghost use Rattle.square_runs.specs.Lasting.{has_lasted, will_have_lasted};
ghost use Rattle.square_runs.specs.Shown.{Shown, has, has_held, shown, since_when};
ghost use Rattle.square_runs.specs.Squares.{Marks, first_of, first_where};

use crate::lasting::{earlier, lasted, sooner};
use crate::masks::{first_square, lacking, with_if, without};

/// Since when each square has been in the masks that came one after the other, without a break.
#[derive(Clone, Copy, Debug)]
pub struct Runs {
    /// The last mask.
    last: u64,
    /// The times of its squares. Those of other squares don't count.
    since: [u64; 64],
}

/// Gives these squares this time.
fn give_time(since: &mut [u64; 64], at: u64, squares: u64)
    ensures { (s : ℕ) → s < 64 → slice_index since.new s ≡ (if bit_at squares s == 1 then at else slice_index since.old s) }
{
    let mut left = squares;
    'left: while 0 < left {
        let square = first_square(left);
        since[square as usize] = at;
        left = without(left, square);
    }
}

/// The squares of the last mask that have been in them for this time.
fn lasting_squares(last: u64, since: &[u64; 64], span: u64, now: u64) -> u64
    ensures { Marks result (λ s. has_lasted span now (time_of last since.now s)) }
{
    let mut left = last;
    let mut squares = 0;
    'left: while 0 < left {
        let square = first_square(left);
        let since = since[square as usize];
        squares = with_if(squares, square, lasted(span, now, Some(since)));
        left = without(left, square);
    }
    squares
}

/// The earliest of the times of these squares.
fn first_since(squares: u64, since: &[u64; 64]) -> Option<u64>
    ensures { result ≡ first_of (time_of squares since.now) }
{
    let mut left = squares;
    let mut first = None;
    'left: while 0 < left {
        let square = first_square(left);
        first = earlier(first, Some(since[square as usize]));
        left = without(left, square);
    }
    first
}

/// When the next square of the last mask will have been in them for this time.
fn next_lasting(last: u64, since: &[u64; 64], span: u64, now: u64) -> Option<u64>
    ensures { result ≡ first_of (λ s. will_have_lasted span now (time_of last since.now s)) }
{
    let mut left = last;
    let mut next = None;
    'left: while 0 < left {
        let square = first_square(left);
        next = sooner(next, span, now, Some(since[square as usize]));
        left = without(left, square);
    }
    next
}

impl Runs {
    /// No mask has come.
    pub fn new() -> Runs
        ensures { StandsFor result [] }
    {
        Runs {
            last: 0,
            since: [0; 64],
        }
    }

    /// Begins anew, as if no mask had come.
    pub fn clear(&mut self)
        ensures { StandsFor self.new [] }
    {
        self.last = 0;
    }

    /// Whether the last mask has no square.
    pub fn is_empty(&self) -> bool
        ensures { (past : List Shown) → StandsFor self.now past → IsTrue result → (s : ℕ) → s < 64 → since_when (has s) past ≡ None }
    {
        self.last == 0
    }

    /// Takes the mask that holds from `at` on, a time in milliseconds, until the next one comes.
    pub fn take(&mut self, at: u64, squares: u64)
        ensures { (past : List Shown) → StandsFor self.old past → StandsFor self.new (shown at squares ∷ past) }
    {
        give_time(&mut self.since, at, lacking(squares, self.last));
        self.last = squares;
    }

    /// The squares that the last masks have had for `span` milliseconds or longer, at `now`.
    pub fn lasting(&self, span: u64, now: u64) -> u64
        ensures { (past : List Shown) → StandsFor self.now past → Marks result (λ s. has_held (has s) span now past) }
    {
        lasting_squares(self.last, &self.since, span, now)
    }

    /// Since when the first of these squares has been in the last masks; `None` where the last mask has none of them.
    pub fn since(&self, squares: u64) -> Option<u64>
        ensures { (past : List Shown) (test : ℕ → Bool) → StandsFor self.now past → Marks squares test
            → result ≡ first_where test (λ s. since_when (has s) past) }
    {
        first_since(self.last & squares, &self.since)
    }

    /// When the next square will have been in the last masks for `span` milliseconds, if no other mask comes: the earliest
    /// such time after `now`.
    pub fn due(&self, span: u64, now: u64) -> Option<u64>
        ensures { (past : List Shown) → StandsFor self.now past → result ≡ first_of (λ s. will_have_lasted span now (since_when (has s) past)) }
    {
        next_lasting(self.last, &self.since, span, now)
    }
}
