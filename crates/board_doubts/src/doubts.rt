//! Which news somebody must look at.
ghost use Rattle.std.specs.Prelude.{◌≡◌, ◌/◌, ◌&&◌, ◌||◌, ◌∷◌, [], not, ℕ, List, if◌then◌else◌};
ghost use Rattle.board_doubts.specs.declared.heard.Event.{Event as EventOf};
ghost use Rattle.board_doubts.specs.declared.heard.Heard.TheVariants.{Agrees, Shows};
ghost use Rattle.board_doubts.specs.declared.heard.Seen.{Seen as SeenOf};
ghost use Rattle.board_doubts.specs.Doubts.{at_once, begun_by, doubt_by, doubt_of, doubted as doubted_of, has_room as has_room_of, hides as hides_of, is_odd as is_odd_of, is_on as is_on_of, may_be_played as may_be_played_of, is_recent as is_recent_of, is_unhurried as is_unhurried_of, may_hide as may_hide_of, over_by, passing as passing_of, takes_back as takes_back_of, was_passed as was_passed_of, why_agrees as why_agrees_of, why_by, why_corrects as why_corrects_of, why_moves as why_moves_of, why_played as why_played_of, why_shows as why_shows_of};
ghost use Rattle.board_doubts.specs.Pace.{last_within};
ghost use Rattle.board_doubts.specs.Plies.{both_back, played, played_by};
ghost use Rattle.board_doubts.specs.Recent.{since_news};
ghost use Rattle.board_doubts.specs.Silent.{is_pair as is_pair_of, pending as pending_of, repeats_by, soon, suspected as suspected_of};
ghost use Rattle.board_doubts.specs.Thinking.{is_unknown as is_unknown_of, told_late};
ghost use Rattle.board_doubts.specs.Unplayed.{unpressed_last};
ghost use Rattle.board_doubts.specs.Waiting.{moved_by, ply_times, times_by};
ghost use Rattle.board_doubts.specs.Keeping.{KeepsPace, KeepsRecent, StandsFor};

use crate::heard::{Doubt, Event, Heard, Place, Seen, Why};
use crate::logic::{both, either};
use crate::pace::{Pace, QUICKEST};
use crate::plies::{Plies, pair_after};
use crate::presses::{Presses, is_press, known};
use crate::recent::{Recent, is_news};
use crate::silent::{pending_after, silent, suspects};
use crate::thinking::Thinking;
use crate::unheard::unheard_after;
use crate::waited::Waited;
use square_runs::lasted;

/// A correction is late after this, in milliseconds.
const LATE: u64 = 10_000;

/// A piece that is drawn over a square leaves it within this.
const PASSES: u64 = 150;

/// In a gap this long plies may have been made, whatever the pace.
const SILENT: u64 = 5_000;

/// A piece is moved within this once the other side's was.
const SOON: u64 = 3_000;

/// Before plies are taken back, players stop to think for longer than this.
const PAUSE: u64 = 2_000;

/// Once one side has taken its ply back, the other one does so within this.
const AT_ONCE: u64 = 2_000;

/// At a ply that took no longer than this the clock may not yet have told of the press before it.
const TOLD_LATE: u64 = 2_000;

/// Unhurried players without a clock need longer than this for more than half of their plies.
const UNHURRIED: u64 = 6_000;

/// Takes what is heard of a board and its game, and says what somebody must look at.
#[derive(Clone, Copy)]
pub struct Doubts {
    /// What was heard since the last news.
    recent: Recent,
    waited: Waited,
    pace: Pace,
    plies: Plies,
    presses: Presses,
    thinking: Thinking,
    /// The clock has said nothing since the board wasn't heard for a time.
    is_unheard: bool,
    has_moved: bool,
    has_begun: bool,
    is_over: bool,
    has_repeated: bool,
    /// How many plies of a pair that is put in are still to come.
    pair: u64,
    /// When a move was made that is doubted if the piece that had moved before it leaves at once.
    passing: Option<u64>,
    /// What the last ply is doubted for if nobody turns out to have pressed.
    pending: Option<Why>,
}

fn moved_after(what: Heard, before: bool) -> bool
    ensures { result ≡ moved_by what before }
{
    match what {
        Heard::Moves { .. } | Heard::Corrects { .. } => true,
        _ => before,
    }
}

fn begun_after(what: Heard, before: bool) -> bool
    ensures { result ≡ begun_by what before }
{
    match what {
        Heard::Moves { .. } | Heard::Corrects { .. } | Heard::Agrees => true,
        Heard::PutsBack => false,
        _ => before,
    }
}

fn over_after(what: Heard, before: bool) -> bool
    ensures { result ≡ over_by what before }
{
    match what {
        Heard::Ends => true,
        Heard::Reopens | Heard::PutsIn | Heard::Moves { .. } | Heard::Corrects { .. } => false,
        _ => before,
    }
}

fn repeated_after(what: Heard, before: bool) -> bool
    ensures { result ≡ repeats_by what before }
{
    match what {
        Heard::Moves { repeats } | Heard::Corrects { repeats } => repeats,
        _ => before,
    }
}

/// Takes what is heard since the last news, or begins anew with news.
fn carry_on(recent: &mut Recent, event: Event)
    ensures { (past : List EventOf) → KeepsRecent recent.old (since_news past) → KeepsRecent recent.new (since_news (event ∷ past)) }
{
    if is_news(event.what) {
        recent.clear();
    } else {
        recent.take(event);
    }
}

/// Takes the time of a ply, if one is made and another was made before it.
fn keep_pace(pace: &mut Pace, what: Heard, has_moved: bool, time: u64)
    ensures { (times : List ℕ) → KeepsPace pace.old times → KeepsPace pace.new (times_by what has_moved time times) }
{
    match what {
        Heard::Moves { .. } => {
            if has_moved {
                pace.take(time);
            }
        }
        _ => {}
    }
}

/// How much of a gap there is for a ply, if one may be hidden or two must be.
fn time_for(one: bool, lasted: u64) -> u64
    ensures { result ≡ (if one then lasted else lasted / 2) }
{
    if one { lasted } else { lasted / 2 }
}

/// Whether plies may be hidden where they have room, if a position was repeated, and the recorder was away.
fn may_be_hidden(has_room: bool, has_repeated: bool, is_restart: bool) -> bool
    ensures { result ≡ (has_room && (has_repeated || not is_restart)) }
{
    has_room && (has_repeated || !is_restart)
}

fn is_recent(now: u64, at: Option<u64>) -> bool
    ensures { result ≡ is_recent_of now at }
{
    at.is_some() && !lasted(PASSES, now, at)
}

/// What a ply is suspected for, unless an arbiter has added it.
fn unless_added(is_added: bool, suspected: Option<Why>) -> Option<Why>
    ensures { result ≡ (if is_added then None else suspected) }
{
    if is_added { None } else { suspected }
}

fn doubted(place: Place, why: Option<Why>) -> Option<Doubt>
    ensures { result ≡ doubted_of place why }
{
    match why {
        None => None,
        Some(why) => Some(Doubt { place, why }),
    }
}

impl Doubts {
    /// Nothing was heard.
    pub fn new() -> Doubts
        ensures { StandsFor result [] }
    {
        Doubts {
            recent: Recent::new(),
            waited: Waited::new(),
            pace: Pace::new(),
            plies: Plies::new(),
            presses: Presses::new(),
            thinking: Thinking::new(),
            is_unheard: false,
            has_moved: false,
            has_begun: false,
            is_over: false,
            has_repeated: false,
            pair: 0,
            passing: None,
            pending: None,
        }
    }

    /// Takes what is heard, and returns what somebody must look at in it.
    pub fn take(&mut self, event: Event) -> Option<Doubt>
        ensures stands { (past : List EventOf) → StandsFor self.old past → StandsFor self.new (event ∷ past) }
        ensures doubt { (past : List EventOf) → StandsFor self.old past → result ≡ doubt_of event past }
    {
        let why = self.why(event);
        let doubt = self.doubt(event, why);
        let time = self.waited.until(event.at);
        let is_press = is_press(event.what, self.thinking.counting());
        let is_quick = self.pace.was_within(QUICKEST);
        let is_unknown = self.is_unknown();
        let pending = self.pending_after(event);
        self.passing = self.passing_after(event, why);
        self.pending = pending;
        carry_on(&mut self.recent, event);
        keep_pace(&mut self.pace, event.what, self.has_moved, time);
        self.waited.take(event);
        self.plies = self.plies.after(event.what);
        self.presses
            .take(event, is_press, self.is_unheard, is_quick);
        self.thinking.take(event, is_unknown);
        self.is_unheard = unheard_after(event.what, self.is_unheard);
        self.has_moved = moved_after(event.what, self.has_moved);
        self.has_begun = begun_after(event.what, self.has_begun);
        self.is_over = over_after(event.what, self.is_over);
        self.has_repeated = repeated_after(event.what, self.has_repeated);
        self.pair = pair_after(event.what, self.pair);
        doubt
    }

    /// Takes a picture, as `take` does. Most of what is heard are pictures, and news that they agree.
    pub fn see(&mut self, at: u64, is_added: bool, seen: &Seen) -> Option<Doubt>
        ensures stands { let event : EventOf = record { at = at; is_added = is_added; what = Shows seen.now } in (past : List EventOf)
            → StandsFor self.old past → StandsFor self.new (event ∷ past) }
        ensures doubt { let event : EventOf = record { at = at; is_added = is_added; what = Shows seen.now } in (past : List EventOf)
            → StandsFor self.old past → result ≡ doubt_of event past }
    {
        let why = self.why_shows(seen.was_drawn, at);
        self.passing = None;
        self.pending = if self.is_unheard { self.pending } else { None };
        self.recent.see(at, is_added, seen);
        self.waited.see(at, is_added, seen);
        if is_added {
            return None;
        }
        doubted(Place::AtLast, why)
    }

    /// Takes the news that the board shows the game's position, as `take` does.
    pub fn agree(&mut self, at: u64, is_added: bool) -> Option<Doubt>
        ensures stands { let event : EventOf = record { at = at; is_added = is_added; what = Agrees } in (past : List EventOf)
            → StandsFor self.old past → StandsFor self.new (event ∷ past) }
        ensures doubt { let event : EventOf = record { at = at; is_added = is_added; what = Agrees } in (past : List EventOf)
            → StandsFor self.old past → result ≡ doubt_of event past }
    {
        let why = self.why_agreement();
        self.recent.clear();
        self.has_begun = true;
        if is_added {
            return None;
        }
        doubted(Place::AfterLast, why)
    }

    /// How many of the last plies have no press, but for the first of these.
    pub fn unpressed_last(&self) -> u64
        ensures { (past : List EventOf) → StandsFor self.now past → result ≡ unpressed_last past }
    {
        self.presses.unpressed_last()
    }

    /// Why such news are doubted.
    fn why_agreement(&self) -> Option<Why>
        ensures { (at : ℕ) (past : List EventOf) → StandsFor self.now past → result ≡ why_by Agrees at past }
    {
        if self.is_on() && self.may_be_played() {
            self.why_agrees()
        } else {
            None
        }
    }

    /// What somebody must look at in this, if its news are doubted for this reason.
    fn doubt(&self, event: Event, why: Option<Why>) -> Option<Doubt>
        ensures { (past : List EventOf) → StandsFor self.now past → why ≡ why_by event.what event.at past → result ≡ doubt_of event past }
    {
        if event.is_added {
            return None;
        }
        match event.what {
            Heard::Shows(seen) => doubted(Place::AtLast, self.why_shows(seen.was_drawn, event.at)),
            Heard::Agrees => doubted(Place::AfterLast, why),
            _ => doubted(Place::AtLast, why),
        }
    }

    /// Why the last move is doubted when a picture is seen, if the piece that had moved before isn't where it belonged then.
    fn why_shows(&self, was_drawn: bool, now: u64) -> Option<Why>
        ensures { (seen : SeenOf) (past : List EventOf) → seen.was_drawn ≡ was_drawn → StandsFor self.now past
            → result ≡ why_shows_of seen now past }
    {
        if was_drawn && is_recent(now, self.passing) {
            return Some(Why::BothElsewhere);
        }
        if self.is_on() {
            silent(known(self.is_unheard, self.presses.quiet()), self.pending)
        } else {
            None
        }
    }

    /// Whether news may be doubted.
    fn is_on(&self) -> bool
        ensures { (past : List EventOf) → StandsFor self.now past → result ≡ is_on_of past }
    {
        self.has_begun && !self.is_over
    }

    /// Whether plies may have been made.
    fn may_be_played(&self) -> bool
        ensures { (past : List EventOf) → StandsFor self.now past → result ≡ may_be_played_of past }
    {
        self.has_moved || self.presses.runs()
    }

    /// Why these news are doubted.
    fn why(&self, event: Event) -> Option<Why>
        ensures { (past : List EventOf) → StandsFor self.now past → result ≡ why_by event.what event.at past }
    {
        if !self.is_on() {
            return None;
        }
        match event.what {
            Heard::Corrects { .. } => self.why_corrects(event.at),
            Heard::Moves { .. } => self.why_moves(),
            Heard::Agrees => self.why_agreement(),
            Heard::Plays(_) | Heard::Replaces(_) => self.why_played(event.what),
            Heard::Clock { .. } => silent(self.presses.quiet(), self.pending),
            _ => None,
        }
    }

    fn why_corrects(&self, now: u64) -> Option<Why>
        ensures { (past : List EventOf) → StandsFor self.now past → result ≡ why_corrects_of now past }
    {
        if self.recent.has_gap() {
            return Some(Why::AfterGap);
        }
        if self.recent.by_own() {
            return Some(Why::Elsewhere);
        }
        if LATE < self.waited.until(now) {
            Some(Why::Late)
        } else {
            None
        }
    }

    fn why_moves(&self) -> Option<Why>
        ensures { (past : List EventOf) → StandsFor self.now past → result ≡ why_moves_of past }
    {
        if self.recent.may_be_moved() {
            return Some(Why::BothElsewhere);
        }
        if self.has_moved && self.hides(true) {
            Some(Why::AfterGap)
        } else {
            None
        }
    }

    fn why_agrees(&self) -> Option<Why>
        ensures { (past : List EventOf) → StandsFor self.now past → result ≡ why_agrees_of past }
    {
        if self.recent.may_be_moved() {
            return Some(Why::BothElsewhere);
        }
        if self.hides(false) || self.recent.touched() {
            Some(Why::AfterGap)
        } else {
            None
        }
    }

    /// Why a ply is doubted by those before it.
    fn why_played(&self, what: Heard) -> Option<Why>
        ensures { (past : List EventOf) → StandsFor self.now past → result ≡ why_played_of what past }
    {
        if self.takes_back(what) {
            return Some(Why::TakenBack);
        }
        if self.presses.is_left(what, self.pace.was_within(QUICKEST)) {
            return Some(Why::Unpressed);
        }
        if self.thinking.is_exchanged(what, self.is_unknown()) {
            Some(Why::OtherTime)
        } else {
            None
        }
    }

    /// Whether both sides have taken plies back, oddly or by a pair that is put in.
    fn takes_back(&self, what: Heard) -> bool
        ensures { (past : List EventOf) → StandsFor self.now past → result ≡ takes_back_of what past }
    {
        let are_back = self.plies.after(what).both_back();
        both(are_back, either(self.pair == 1, self.is_odd()))
    }

    /// Whether it isn't known on whose time the last ply was thought about.
    fn is_unknown(&self) -> bool
        ensures { (past : List EventOf) → StandsFor self.now past → result ≡ is_unknown_of past }
    {
        either(self.is_unheard, self.pace.was_within(TOLD_LATE))
    }

    /// Whether the last ply was made at once, by unhurried players without a clock.
    fn is_odd(&self) -> bool
        ensures { (past : List EventOf) → StandsFor self.now past → result ≡ is_odd_of past }
    {
        self.pace.was_within(AT_ONCE) && (self.is_unhurried() && !self.presses.is_used())
    }

    /// What the last ply is doubted for after this is heard, if nobody turns out to have pressed.
    fn pending_after(&self, event: Event) -> Option<Why>
        ensures { (past : List EventOf) → StandsFor self.now past → result ≡ pending_of (event ∷ past) }
    {
        let suspected = unless_added(event.is_added, self.suspected(event.what));
        pending_after(event.what, self.is_unheard, suspected, self.pending)
    }

    /// What a ply is doubted for if nobody turns out to have pressed.
    fn suspected(&self, what: Heard) -> Option<Why>
        ensures { (past : List EventOf) → StandsFor self.now past → result ≡ suspected_of what past }
    {
        if !self.presses.is_used() {
            return None;
        }
        let plies = self.plies.after(what);
        let is_pair = self.is_pair();
        let again = both(self.has_repeated, self.pace.took_longer_at_first(PAUSE));
        suspects(
            both(is_pair, plies.both_back()),
            both(is_pair, plies.both_further()),
            again,
        )
    }

    /// Whether the last ply was made soon after the one before, and that after a pause.
    fn is_pair(&self) -> bool
        ensures { (past : List EventOf) → StandsFor self.now past → result ≡ is_pair_of (ply_times past) }
    {
        both(
            self.pace.was_within(SOON),
            self.pace.took_longer_before(PAUSE),
        )
    }

    /// Whether the players need long for more than half of their plies.
    fn is_unhurried(&self) -> bool
        ensures { (past : List EventOf) → StandsFor self.now past → result ≡ is_unhurried_of past }
    {
        !self.pace.is_half_within(UNHURRIED)
    }

    /// Whether plies may be hidden in the gap since the last news.
    fn hides(&self, is_move: bool) -> bool
        ensures { (past : List EventOf) → StandsFor self.now past → result ≡ hides_of is_move past }
    {
        match self.recent.gap() {
            None => false,
            Some(lasted) => self.may_hide(is_move, lasted),
        }
    }

    /// Whether plies may be hidden in a gap this long.
    fn may_hide(&self, is_move: bool, lasted: u64) -> bool
        ensures { (past : List EventOf) → StandsFor self.now past → result ≡ may_hide_of is_move lasted past }
    {
        let has_room = self.has_room(is_move, lasted);
        may_be_hidden(has_room, self.has_repeated, self.recent.is_restart())
    }

    /// Whether there was time for plies.
    fn has_room(&self, is_move: bool, lasted: u64) -> bool
        ensures { (past : List EventOf) → StandsFor self.now past → result ≡ has_room_of is_move lasted past }
    {
        let one = either(is_move, self.has_repeated);
        let fits = self.pace.fits(time_for(one, lasted));
        either(SILENT <= lasted, fits)
    }

    /// When the last move was made, if it is doubted once the piece that had moved before it leaves at once.
    fn passing_after(&self, event: Event, why: Option<Why>) -> Option<u64>
        ensures { (past : List EventOf) → StandsFor self.now past → why ≡ why_by event.what event.at past → result ≡ passing_of (event ∷ past) }
    {
        let may = self.recent.by_both_perhaps() && why.is_none();
        match event.what {
            Heard::Moves { .. } => if may { Some(event.at) } else { None },
            Heard::Corrects { .. } | Heard::Shows(_) => None,
            _ => self.passing,
        }
    }
}
