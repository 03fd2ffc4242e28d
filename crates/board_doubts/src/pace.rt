//! How long the last plies took.
ghost use Rattle.std.specs.Prelude.{◌≡◌, ◌≤◌, ◌*◌, ◌==◌, ◌&&◌, ◌∷◌, [], ℕ, List, count_by, is_some, nat_le, take, if◌then◌else◌};
ghost use Rattle.board_doubts.specs.Pace.{fits_by, half_within, last_within, pace_of, quickest, took_longer, usual};
ghost use Rattle.board_doubts.specs.Keeping.{KeepsPace, is_longer as is_longer_of, is_within as is_within_of};

/// A ply takes at least this, in milliseconds.
pub const QUICKEST: u64 = 1_000;

/// It takes this if no ply's time is known.
const USUAL: u64 = 3_000;

/// How long the last plies took, the latest first.
#[derive(Clone, Copy)]
pub struct Pace {
    last: [Option<u64>; 8],
}

/// Whether a ply took no longer than this.
fn is_within(time: u64, ply: Option<u64>) -> bool
    ensures { result ≡ is_within_of time ply }
{
    match ply {
        None => false,
        Some(ply) => ply <= time,
    }
}

/// Whether a ply took longer than this.
fn is_longer(time: u64, ply: Option<u64>) -> bool
    ensures { result ≡ is_longer_of time ply }
{
    match ply {
        None => false,
        Some(ply) => time < ply,
    }
}

/// Whether a ply may be made in this time, if so many are known, and so many of them took no longer.
fn has_room(time: u64, known: usize, within: usize) -> bool
    requires { within ≤ pace_of }
    ensures { result ≡ (if known == 0 then nat_le usual time else nat_le quickest time && nat_le known (2 * within)) }
{
    if known == 0 {
        return USUAL <= time;
    }
    QUICKEST <= time && known <= 2 * within
}

/// Whether so many are half of all, or more.
fn is_half(all: usize, of_all: usize) -> bool
    requires { of_all ≤ pace_of }
    ensures { result ≡ nat_le all (2 * of_all) }
{
    all <= 2 * of_all
}

impl Pace {
    /// No ply.
    pub fn new() -> Pace
        ensures { KeepsPace result [] }
    {
        Pace { last: [None; 8] }
    }

    /// Takes the time of a ply.
    pub fn take(&mut self, time: u64)
        ensures { (times : List ℕ) → KeepsPace self.old times → KeepsPace self.new (time ∷ times) }
    {
        let last = self.last;
        self.last = [
            Some(time),
            last[0],
            last[1],
            last[2],
            last[3],
            last[4],
            last[5],
            last[6],
        ];
    }

    /// How many plies are known.
    fn known(&self) -> usize
        ensures { result ≡ count_by is_some self.now.last }
    {
        self.last.iter().filter(|ply| ply.is_some()).count()
    }

    /// How many took no longer than this.
    fn within(&self, time: u64) -> usize
        ensures { result ≡ count_by (is_within_of time) self.now.last }
    {
        self.last
            .iter()
            .filter(|ply| is_within(time, **ply))
            .count()
    }

    /// Whether players who made these plies may make one in this time.
    pub fn fits(&self, time: u64) -> bool
        ensures { (times : List ℕ) → KeepsPace self.now times → result ≡ fits_by time (take pace_of times) }
    {
        has_room(time, self.known(), self.within(time))
    }

    /// Whether the last ply took no longer than this.
    pub fn was_within(&self, time: u64) -> bool
        ensures { (times : List ℕ) → KeepsPace self.now times → result ≡ last_within time times }
    {
        is_within(time, self.last[0])
    }

    /// Whether the ply before the last one took longer than this.
    pub fn took_longer_before(&self, time: u64) -> bool
        ensures { (times : List ℕ) → KeepsPace self.now times → result ≡ took_longer time 1 times }
    {
        is_longer(time, self.last[1])
    }

    /// Whether the first of the last four did.
    pub fn took_longer_at_first(&self, time: u64) -> bool
        ensures { (times : List ℕ) → KeepsPace self.now times → result ≡ took_longer time 3 times }
    {
        is_longer(time, self.last[3])
    }

    /// Whether half of the plies took no longer than this, or more of them.
    pub fn is_half_within(&self, time: u64) -> bool
        ensures { (times : List ℕ) → KeepsPace self.now times → result ≡ half_within time (take pace_of times) }
    {
        is_half(self.known(), self.within(time))
    }
}
