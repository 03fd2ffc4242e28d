//! What pictures have shown elsewhere.
ghost use Rattle.std.specs.Prelude.{◌≡◌, ◌∷◌, [], ℕ, Bool, List, if◌then◌else◌};
ghost use Rattle.board_doubts.specs.Pictures.{Laid, by_both as by_both_of, by_both_perhaps as by_both_perhaps_of, by_one as by_one_of, has_stood, moved_on as moved_on_of, own as own_of, stands};
ghost use Rattle.board_doubts.specs.Recent.{laid};
ghost use Rattle.board_doubts.specs.Keeping.{KeepsSince};

use crate::heard::Seen;
use crate::logic::either;
use crate::stood::Stood;

/// A piece that is drawn over a square is there for less than this, in milliseconds.
const STANDS: u64 = 100;

/// The piece that moved last, if it is only straightened, is beside its square for less than this.
const STANDS_AGAIN: u64 = 1_000;

/// What pictures have shown elsewhere.
#[derive(Clone, Copy)]
pub struct Since {
    own: Stood,
    others: Stood,
    /// Of either side, where they can't have gone at once.
    astray: Stood,
    /// Of the side that moved last, while the piece that moved last is off.
    moved_on: Stood,
    /// The same, for a shorter time.
    drawn: Stood,
}

/// Since when the pieces of a picture may have stood there.
fn since_of(at: u64, first: bool) -> u64
    ensures { result ≡ (if first then 0 else at) }
{
    if first { 0 } else { at }
}

fn moved_on(seen: &Seen) -> u64
    ensures { (at : ℕ) (first : Bool) → result ≡ moved_on_of (laid at first seen.now) }
{
    if seen.is_off { seen.others } else { 0 }
}

impl Since {
    /// No picture.
    pub fn new() -> Since
        ensures { KeepsSince result [] }
    {
        Since {
            own: Stood::new(),
            others: Stood::new(),
            astray: Stood::new(),
            moved_on: Stood::new(),
            drawn: Stood::new(),
        }
    }

    /// Begins anew, as if no picture had come.
    pub fn clear(&mut self)
        ensures { KeepsSince self.new [] }
    {
        self.own.clear();
        self.others.clear();
        self.astray.clear();
        self.moved_on.clear();
        self.drawn.clear();
    }

    /// Takes a picture, which comes first after a gap or doesn't.
    pub fn show(&mut self, at: u64, first: bool, seen: &Seen)
        ensures { (past : List Laid) → KeepsSince self.old past → KeepsSince self.new (laid at first seen.now ∷ past) }
    {
        let since = since_of(at, first);
        let moved_on = moved_on(seen);
        self.own.show(STANDS, at, since, seen.own);
        self.others.show(STANDS, at, since, seen.others);
        self.astray.show(STANDS, at, since, seen.astray);
        self.moved_on.show(STANDS_AGAIN, at, since, moved_on);
        self.drawn.show(STANDS, at, since, moved_on);
    }

    /// Whether both sides may have moved.
    pub fn by_both(&self) -> bool
        ensures { (past : List Laid) → KeepsSince self.now past → result ≡ by_both_of past }
    {
        (self.others.has_stood && self.own.has_left)
            || (self.moved_on.has_stood && self.own.has_stood)
    }

    /// Whether one side may have, once or more often.
    pub fn by_one(&self) -> bool
        ensures { (past : List Laid) → KeepsSince self.now past → result ≡ by_one_of past }
    {
        either(
            either(self.own.has_stood, self.others.has_stood),
            self.astray.has_stood,
        )
    }

    /// Whether both may have, if the piece that moved last doesn't stay where it belongs.
    pub fn by_both_perhaps(&self) -> bool
        ensures { (past : List Laid) → KeepsSince self.now past → result ≡ by_both_perhaps_of past }
    {
        self.drawn.has_stood && self.own.has_stood
    }

    /// Whether the side to move may have.
    pub fn by_own(&self) -> bool
        ensures { (past : List Laid) → KeepsSince self.now past → result ≡ has_stood own_of stands past }
    {
        self.own.has_stood
    }
}
