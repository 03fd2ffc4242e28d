//! What is kept of a board, and how it stands.
ghost use Rattle.std.specs.Prelude.{◌≡◌, ◌∷◌, [], ℕ, List, None, if◌then◌else◌};
ghost use Rattle.square_runs.specs.Shown.{Shown};
ghost use Rattle.square_runs.specs.Squares.{Marks};
ghost use Rattle.board_standing.specs.declared.heard.Event.{Event as EventOf};
ghost use Rattle.board_standing.specs.declared.heard.Heard.TheVariants.{Shows};
ghost use Rattle.board_standing.specs.Hints.{has_pictures, explains_more as explains_more_of, hint_of, is_opened as is_opened_of, is_swapped, is_turned as is_turned_of, opened_by, other_by, turned_by};
ghost use Rattle.board_standing.specs.Keeping.{Keeps, StandsFor};
ghost use Rattle.board_standing.specs.Line.{ended_by, pictures, played_by, silent_by, unplugged_by, waits_by, with_picture};
ghost use Rattle.board_standing.specs.Pictures.{is_old};
ghost use Rattle.board_standing.specs.States.{due_at, hint_at, is_seen as is_seen_of, kind_at, may_change as may_change_of, names_at, names_squares as names_of, since_at, since_by};

use crate::heard::{Event, Heard, Picture};
use crate::seen::Seen;
use crate::state::{Hint, Kind, State};
use square_runs::carried;

/// On how many squares a move changes a picture, at most.
const ONE_MOVE: u32 = 4;

/// On how many squares a board differs from the start if it is turned round and half of the pieces stand.
const HALF_OF_PIECES: u32 = 16;

/// Takes what is heard of a board, and says how it stands.
#[derive(Clone, Copy)]
pub struct Standing {
    seen: Seen,
    unplugged_since: Option<u64>,
    silent_since: Option<u64>,
    ended_since: Option<u64>,
    has_played: bool,
    waits: bool,
    is_opened: bool,
    is_other: bool,
    lies_turned: bool,
}

/// Takes the picture that is shown, if one is.
fn show(seen: &mut Seen, at: u64, what: Heard)
    ensures { (past : List Shown) → Keeps seen.old past → Keeps seen.new (with_picture what at past) }
{
    match what {
        Heard::Shows(picture) => seen.show(at, picture.differs),
        Heard::Moves | Heard::Ends | Heard::Reopens => seen.show(at, 0),
        _ => {}
    }
}

fn unplugged_after(what: Heard, at: u64, since: Option<u64>) -> Option<u64>
    ensures { result ≡ unplugged_by what at since }
{
    match what {
        Heard::Unplugs => carried(true, at, since),
        Heard::Plugs => None,
        _ => since,
    }
}

fn silent_after(what: Heard, at: u64, since: Option<u64>) -> Option<u64>
    ensures { result ≡ silent_by what at since }
{
    match what {
        Heard::Stops => carried(true, at, since),
        Heard::Answers | Heard::Unplugs | Heard::Plugs => None,
        _ => since,
    }
}

fn ended_after(what: Heard, at: u64, since: Option<u64>) -> Option<u64>
    ensures { result ≡ ended_by what at since }
{
    match what {
        Heard::Ends => Some(at),
        Heard::Reopens => None,
        _ => since,
    }
}

fn played_after(what: Heard, before: bool) -> bool
    ensures { result ≡ played_by what before }
{
    match what {
        Heard::Moves => true,
        _ => before,
    }
}

fn waits_after(what: Heard, before: bool) -> bool
    ensures { result ≡ waits_by what before }
{
    match what {
        Heard::Begins => true,
        Heard::Stops | Heard::Answers | Heard::Unplugs | Heard::Plugs => before,
        _ => false,
    }
}

fn opened_after(what: Heard, before: bool) -> bool
    ensures { result ≡ opened_by what before }
{
    match what {
        Heard::Plugs => true,
        Heard::Stops | Heard::Answers | Heard::Unplugs | Heard::Begins => before,
        _ => false,
    }
}

/// Whether this picture is the start on a board that is turned round, but for a piece or two that are still to come.
fn is_turned(picture: Picture) -> bool
    ensures { result ≡ is_turned_of picture }
{
    HALF_OF_PIECES <= picture.differs.count_ones() && picture.turned.count_ones() <= ONE_MOVE
}

/// Whether a picture is right on more squares if the board is turned round.
fn explains_more(picture: Picture) -> bool
    ensures { result ≡ explains_more_of picture }
{
    picture.turned.count_ones() < picture.differs.count_ones()
}

/// Whether the board lies turned round with this picture, if it did so before or not.
fn lies_turned(picture: Picture, before: bool) -> bool
    ensures { result ≡ turned_by (Shows picture) before }
{
    is_turned(picture) || (before && explains_more(picture))
}

fn turned_after(what: Heard, before: bool) -> bool
    ensures { result ≡ turned_by what before }
{
    match what {
        Heard::Shows(picture) => lies_turned(picture, before),
        Heard::Moves | Heard::Ends | Heard::Reopens => false,
        _ => before,
    }
}

/// Whether this is the first picture over a line that was opened, and isn't a move away from the picture before it.
fn is_other_first(picture: Picture, is_opened: bool, was_shown: bool) -> bool
    ensures { (past : List EventOf) → is_opened ≡ is_opened_of past → was_shown ≡ has_pictures (pictures past) → result ≡ is_swapped picture past }
{
    is_opened && was_shown && ONE_MOVE < picture.changed.count_ones()
}

/// Whether this picture may be that of another board, if that was so before or not.
fn is_other(picture: Picture, is_opened: bool, was_shown: bool, before: bool) -> bool
    ensures { (past : List EventOf) → is_opened ≡ is_opened_of past → was_shown ≡ has_pictures (pictures past)
        → result ≡ other_by (Shows picture) past before }
{
    let is_swapped = is_other_first(picture, is_opened, was_shown);
    (is_swapped || before) && picture.differs.count_ones() != 0
}

fn other_after(what: Heard, is_opened: bool, was_shown: bool, before: bool) -> bool
    ensures { (past : List EventOf) → is_opened ≡ is_opened_of past → was_shown ≡ has_pictures (pictures past) → result ≡ other_by what past before }
{
    match what {
        Heard::Shows(picture) => is_other(picture, is_opened, was_shown, before),
        Heard::Moves | Heard::Ends | Heard::Reopens => false,
        _ => before,
    }
}

/// Whether squares are named with it.
fn names_squares(kind: Kind) -> bool
    ensures { result ≡ names_of kind }
{
    match kind {
        Kind::InHand | Kind::Wrong | Kind::NoStart => true,
        _ => false,
    }
}

/// Whether it may become another one as time passes.
fn may_change(kind: Kind) -> bool
    ensures { result ≡ may_change_of kind }
{
    match kind {
        Kind::InHand | Kind::Wrong | Kind::NoStart | Kind::SettingUp => true,
        _ => false,
    }
}

/// Whether the board has shown itself, and answers.
fn is_seen(kind: Kind) -> bool
    ensures { result ≡ is_seen_of kind }
{
    match kind {
        Kind::Unplugged | Kind::Silent | Kind::Waits => false,
        _ => true,
    }
}

impl Standing {
    /// Nothing was heard.
    pub fn new() -> Standing
        ensures { StandsFor result [] }
    {
        Standing {
            seen: Seen::new(),
            unplugged_since: None,
            silent_since: None,
            ended_since: None,
            has_played: false,
            waits: true,
            is_opened: false,
            is_other: false,
            lies_turned: false,
        }
    }

    /// Takes what is heard.
    #[inline(never)]
    pub fn take(&mut self, event: Event)
        ensures { (past : List EventOf) → StandsFor self.old past → StandsFor self.new (event ∷ past) }
    {
        if let Heard::Repeats = event.what {
            self.is_opened = false;
            self.waits = false;
            return;
        }
        if let Heard::Shows(picture) = event.what {
            let was_shown = self.seen.has_pictures();
            self.is_other = is_other(picture, self.is_opened, was_shown, self.is_other);
            self.is_opened = false;
            self.lies_turned = lies_turned(picture, self.lies_turned);
            self.waits = false;
            self.seen.show(event.at, picture.differs);
            return;
        }
        self.is_other = other_after(
            event.what,
            self.is_opened,
            self.seen.has_pictures(),
            self.is_other,
        );
        self.is_opened = opened_after(event.what, self.is_opened);
        self.lies_turned = turned_after(event.what, self.lies_turned);
        self.unplugged_since = unplugged_after(event.what, event.at, self.unplugged_since);
        self.silent_since = silent_after(event.what, event.at, self.silent_since);
        self.ended_since = ended_after(event.what, event.at, self.ended_since);
        self.has_played = played_after(event.what, self.has_played);
        self.waits = waits_after(event.what, self.waits);
        show(&mut self.seen, event.at, event.what);
    }

    /// How the board stands at this time, in milliseconds, which is none before the last event's.
    pub fn state(&self, now: u64) -> State
        ensures kind { (past : List EventOf) → StandsFor self.now past → result.kind ≡ kind_at now past }
        ensures since { (past : List EventOf) → StandsFor self.now past → result.since ≡ since_at now past }
        ensures squares { (past : List EventOf) → StandsFor self.now past → Marks result.squares (names_at now past) }
        ensures hint { (past : List EventOf) → StandsFor self.now past → result.hint ≡ hint_at now past }
    {
        let old = self.seen.old(now);
        let kind = self.kind(now, old);
        let squares = self.squares(now, kind, old);
        State {
            kind,
            since: self.since(now, kind, squares),
            squares,
            hint: self.hint(kind),
        }
    }

    /// When the state may become another one if nothing is heard. Until then a host may sleep.
    pub fn due(&self, now: u64) -> Option<u64>
        ensures { (past : List EventOf) → StandsFor self.now past → result ≡ due_at now past }
    {
        let old = self.seen.old(now);
        if may_change(self.kind(now, old)) {
            self.seen.due(now)
        } else {
            None
        }
    }

    /// What an arbiter reads first, if these squares are old.
    fn kind(&self, now: u64, old: u64) -> Kind
        ensures { (past : List EventOf) → StandsFor self.now past → Marks old (is_old now (pictures past)) → result ≡ kind_at now past }
    {
        if self.unplugged_since.is_some() {
            return Kind::Unplugged;
        }
        if self.silent_since.is_some() {
            return Kind::Silent;
        }
        if self.waits {
            return Kind::Waits;
        }
        if self.ended_since.is_some() {
            return Kind::Ended;
        }
        self.seen.kind(now, self.has_played, old)
    }

    /// The squares that are named with this, if these are old.
    fn squares(&self, now: u64, kind: Kind, old: u64) -> u64
        ensures { (past : List EventOf) → StandsFor self.now past → Marks old (is_old now (pictures past)) → kind ≡ kind_at now past
            → Marks result (names_at now past) }
    {
        if names_squares(kind) {
            self.seen.named(now, old)
        } else {
            0
        }
    }

    /// Since when this is so, with these squares.
    fn since(&self, now: u64, kind: Kind, squares: u64) -> Option<u64>
        ensures { (past : List EventOf) → StandsFor self.now past → kind ≡ kind_at now past → Marks squares (names_at now past)
            → result ≡ since_by kind now past }
    {
        match kind {
            Kind::Unplugged => self.unplugged_since,
            Kind::Silent => self.silent_since,
            Kind::Waits => None,
            Kind::Ended => self.ended_since,
            Kind::Agrees => self.seen.last(),
            Kind::SettingUp => self.seen.differs_since(),
            _ => self.seen.named_since(now, squares),
        }
    }

    /// What may be wrong with the board.
    fn hint(&self, kind: Kind) -> Option<Hint>
        ensures { (past : List EventOf) → StandsFor self.now past → result ≡ (if is_seen_of kind then hint_of past else None) }
    {
        if !is_seen(kind) {
            return None;
        }
        if self.lies_turned && !self.has_played {
            return Some(Hint::TurnedRound);
        }
        if self.is_other {
            return Some(Hint::OtherBoard);
        }
        None
    }
}
