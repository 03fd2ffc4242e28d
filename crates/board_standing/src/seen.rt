//! What is kept of the pictures.
ghost use Rattle.std.specs.Prelude.{◌≡◌, ◌∷◌, [], ℕ, List, if◌then◌else◌};
ghost use Rattle.square_runs.specs.Keeping.{StandsFor as RunsStandFor};
ghost use Rattle.square_runs.specs.Shown.{Shown, shown as picture_of, since_when};
ghost use Rattle.square_runs.specs.Squares.{Marks};
ghost use Rattle.board_standing.specs.Hints.{has_pictures};
ghost use Rattle.board_standing.specs.Keeping.{Keeps};
ghost use Rattle.board_standing.specs.Pictures.{due_of, is_named, is_old, differs, kind_by, kind_of, last_time, named_since};

use crate::state::Kind;
use square_runs::{Runs, carried, has_any, lasted, sooner};

/// How long a hand may take, in milliseconds.
const HAND: u64 = 10_000;

/// How long a board may differ from its game and come no nearer to it, in milliseconds.
const PATIENCE: u64 = 15_000;

/// On how many squares it may differ by a move: castling changes four, and a neighbour or two may be straightened.
const MOST_IN_HAND: u32 = 6;

/// What is kept of the pictures, as far as they differ from the game's position.
#[derive(Clone, Copy)]
pub struct Seen {
    /// When the last one was shown, and where it differs.
    last: Option<u64>,
    squares: u64,
    /// How many these are.
    count: u32,
    /// Since when each square has differed, of the pictures since a set-up left few.
    runs: Runs,
    differs_since: Option<u64>,
    no_nearer_since: Option<u64>,
    fewest: u32,
    is_set_up: bool,
}

/// Takes the squares of a picture into the runs, which begin anew if it is what a set-up left.
fn carry_on(runs: &mut Runs, is_left: bool, at: u64, squares: u64)
    ensures { (past : List Shown) → RunsStandFor runs.old past
        → RunsStandFor runs.new (picture_of at squares ∷ (if is_left then [] else past)) }
{
    if is_left {
        runs.clear();
    }
    runs.take(at, squares);
}

impl Seen {
    /// No picture.
    pub fn new() -> Seen
        ensures { Keeps result [] }
    {
        Seen {
            last: None,
            squares: 0,
            count: 0,
            runs: Runs::new(),
            differs_since: None,
            no_nearer_since: None,
            fewest: 65,
            is_set_up: false,
        }
    }

    /// Takes a picture that differs on these squares.
    pub fn show(&mut self, at: u64, squares: u64)
        ensures { (past : List Shown) → Keeps self.old past → Keeps self.new (picture_of at squares ∷ past) }
    {
        let count = squares.count_ones();
        let agrees = count == 0;
        let is_many = MOST_IN_HAND < count;
        let is_left = MOST_IN_HAND < self.count && !is_many;
        let is_no_nearer = !agrees && self.fewest <= count;
        carry_on(&mut self.runs, is_left, at, squares);
        self.differs_since = carried(!agrees, at, self.differs_since);
        self.no_nearer_since = carried(is_no_nearer, at, self.no_nearer_since);
        self.fewest = count.min(self.fewest);
        self.is_set_up = !agrees && (is_many || self.is_set_up);
        self.last = Some(at);
        self.squares = squares;
        self.count = count;
    }

    /// Whether there was a picture.
    pub fn has_pictures(&self) -> bool
        ensures { (past : List Shown) → Keeps self.now past → result ≡ has_pictures past }
    {
        self.last.is_some()
    }

    /// Since when the pictures differ.
    pub fn differs_since(&self) -> Option<u64>
        ensures { (past : List Shown) → Keeps self.now past → result ≡ since_when differs past }
    {
        self.differs_since
    }

    /// When the last picture was shown.
    pub fn last(&self) -> Option<u64>
        ensures { (past : List Shown) → Keeps self.now past → result ≡ last_time past }
    {
        self.last
    }

    /// The squares that are old.
    pub fn old(&self, now: u64) -> u64
        ensures { (past : List Shown) → Keeps self.now past → Marks result (is_old now past) }
    {
        self.runs.lasting(HAND, now)
    }

    /// The squares that are named, if these are old.
    pub fn named(&self, now: u64, old: u64) -> u64
        ensures { (past : List Shown) → Keeps self.now past → Marks old (is_old now past) → Marks result (is_named now past) }
    {
        if old == 0 { self.squares } else { old }
    }

    /// Since when the first of the squares that are named differs.
    pub fn named_since(&self, now: u64, named: u64) -> Option<u64>
        ensures { (past : List Shown) → Keeps self.now past → Marks named (is_named now past) → result ≡ named_since now past }
    {
        if lasted(PATIENCE, now, self.no_nearer_since) {
            self.no_nearer_since
        } else {
            self.runs.since(named)
        }
    }

    /// What an arbiter reads first, if these squares are old.
    pub fn kind(&self, now: u64, has_played: bool, old: u64) -> Kind
        ensures { (past : List Shown) → Keeps self.now past → Marks old (is_old now past) → result ≡ kind_of now has_played past }
    {
        self.kind_by(now, has_played, has_any(old))
    }

    /// What an arbiter reads first, if squares are old or not.
    fn kind_by(&self, now: u64, has_played: bool, has_old: bool) -> Kind
        ensures { (past : List Shown) → Keeps self.now past → result ≡ kind_by now has_played has_old past }
    {
        if self.last.is_none() {
            return Kind::Waits;
        }
        let count = self.count;
        if count == 0 {
            return Kind::Agrees;
        }
        if lasted(PATIENCE, now, self.no_nearer_since) {
            return if self.fewest == 0 {
                Kind::Wrong
            } else {
                Kind::NoStart
            };
        }
        let is_moved = !lasted(HAND, now, self.last);
        let is_many = MOST_IN_HAND < count;
        if self.is_set_up && (is_moved || (is_many && !has_played)) {
            return Kind::SettingUp;
        }
        if has_old { Kind::Wrong } else { Kind::InHand }
    }

    /// When it may become another one if nothing is shown.
    pub fn due(&self, now: u64) -> Option<u64>
        ensures { (past : List Shown) → Keeps self.now past → result ≡ due_of now past }
    {
        let due = sooner(self.runs.due(HAND, now), HAND, now, self.last);
        sooner(due, PATIENCE, now, self.no_nearer_since)
    }
}
