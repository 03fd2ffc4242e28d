//! The machine: it takes what happens in a game, and says when the game is over.
ghost use Rattle.std.specs.Prelude.{◌≡◌, ◌∷◌, ◌<◌, ◌^◌, ◌||◌, [], ℕ, IfOk, IfSome, IsTrue, List, None, OnOk, Some, if◌then◌else◌, is_some};
ghost use Rattle.game_over.specs.declared.happened.Event.{Event as EventOf};
ghost use Rattle.game_over.specs.declared.happened.Happening.TheVariants.{Agrees, Differs, Hears, Shows};
ghost use Rattle.game_over.specs.declared.said.Said.TheVariants.{IsOver, Nothing};
ghost use Rattle.game_over.specs.declared.said.Why.{Why as WhyOf};
ghost use Rattle.game_over.specs.Keeping.{KeepsPictures, StandsFor};
ghost use Rattle.game_over.specs.Over.{begins_now, begun_by, ended_by, front_by, goes_on, happens, has_played, has_result as has_result_of, is_another, is_enough as is_enough_of, is_next as is_next_of, is_on_board as is_on_board_of, left_by, over_by, passes, pictures_at, pictures_by, played, played_by, reopens as reopens_of, shows_start as shows_start_of, starts_again as starts_again_of, stays_out as stays_out_of, was_left as was_left_of, why_by, why_moves as why_moves_of, why_over};
ghost use Rattle.game_over.specs.Result.{has_come};
ghost use Rattle.game_over.specs.Said.{IsSaid, is_given as is_given_of, is_seen as is_seen_of, is_sure_by, said_else, unfinished as unfinished_of, with_result as with_result_of};

use crate::again::StartAgain;
use crate::happened::{Event, Happening, Move, Shown};
use crate::moves::{Found, Moves};
use crate::result::{Given, given_after, has_passed, has_stood, stands_until};
use crate::said::{Over, Said, Why};
use square_runs::lasted;
use std::alloc::{AllocError, Global};

/// No more moves are counted.
const MOST: u64 = 9_999;

/// An hour, in milliseconds.
const HOUR: u64 = 3_600_000;

/// Whether the players made another move on the board.
fn is_next(played: Move) -> bool
    ensures { result ≡ is_next_of played }
{
    !played.corrects && !played.is_added
}

fn begun_after(what: Happening, has_move: bool, before: bool) -> bool
    ensures { result ≡ begun_by what has_move before }
{
    match what {
        Happening::Agrees => true,
        Happening::Moves(played) => before || played.is_added || (has_move && !played.corrects),
        _ => before,
    }
}

fn reopens(what: Happening) -> bool
    ensures { result ≡ reopens_of what }
{
    matches!(what, Happening::Reopens)
}

fn over_after(is_reopened: bool, before: Option<Why>, why: Option<Why>) -> Option<Why>
    ensures { result ≡ over_by is_reopened before why }
{
    if is_reopened {
        return None;
    }
    match before {
        None => why,
        Some(before) => Some(before),
    }
}

fn front_after(event: Event, before: u64) -> u64
    ensures { result ≡ front_by event.what event.bytes before }
{
    match event.what {
        Happening::GoesBack => event.bytes,
        _ => before,
    }
}

fn played_after(what: Happening, before: u64) -> u64
    ensures { result ≡ played_by what before }
{
    match what {
        Happening::Moves(played) => if is_next(played) {
            MOST.min(before.saturating_add(1))
        } else {
            before
        },
        _ => before,
    }
}

fn stays_out(what: Happening) -> bool
    ensures { result ≡ stays_out_of what }
{
    match what {
        Happening::Moves(played) => !played.is_added && !played.goes_home,
        _ => false,
    }
}

fn has_result(why: Option<Why>) -> bool
    ensures { result ≡ has_result_of why }
{
    match why {
        None | Some(Why::Unfinished) => false,
        Some(_) => true,
    }
}

fn shows_start(what: Happening) -> bool
    ensures { result ≡ shows_start_of what }
{
    match what {
        Happening::Shows(shown) => shown.off == 0,
        _ => false,
    }
}

fn is_on_board(what: Happening) -> bool
    ensures { result ≡ is_on_board_of what }
{
    match what {
        Happening::Moves(played) => !played.is_added,
        _ => false,
    }
}

/// Whether so many moves after the end are no set-up.
fn is_enough(count: u64, has_played: bool) -> bool
    ensures { result ≡ is_enough_of count has_played }
{
    (has_played && 2 <= count) || 3 <= count
}

/// Whether an arbiter gave the result.
fn is_given(given: Option<Given>) -> bool
    ensures { result ≡ is_given_of given }
{
    match given {
        None => false,
        Some(given) => given.is_added,
    }
}

/// Whether the result was seen standing, or needs nobody who sees it.
fn is_seen(what: Happening, given: Option<Given>) -> bool
    ensures { result ≡ is_seen_of what given }
{
    match what {
        Happening::Passes => is_given(given),
        _ => true,
    }
}

/// Whether nobody need look at the end.
fn is_sure_by(why: Why, what: Happening, given: Option<Given>) -> bool
    ensures { result ≡ is_sure_by why what given }
{
    match why {
        Why::Corrected => false,
        Why::Stood => is_seen(what, given),
        _ => true,
    }
}

/// A game that ends with this result, and not before these bytes.
fn with_result(why: Why, is_sure: bool, given: Option<Given>, front: u64) -> Over
    ensures { result ≡ with_result_of why is_sure given front }
{
    match given {
        None => Over {
            why,
            result: None,
            bytes: front,
            is_sure,
        },
        Some(given) => Over {
            why,
            result: Some(given.outcome),
            bytes: front.max(given.bytes),
            is_sure,
        },
    }
}

/// A game that ends without a result, and not before these bytes.
fn unfinished(found: Found, front: u64) -> Over
    ensures { result ≡ unfinished_of found.place found.is_sure front }
{
    match found.place {
        None => Over {
            why: Why::Unfinished,
            result: None,
            bytes: front,
            is_sure: found.is_sure,
        },
        Some(place) => Over {
            why: Why::Unfinished,
            result: place.result,
            bytes: front.max(place.bytes),
            is_sure: found.is_sure || place.bytes < front,
        },
    }
}

/// The reason, if the result has stood long enough.
fn stood(has_stood: bool) -> Option<Why>
    ensures { result ≡ (if has_stood then Some WhyOf.Stood else None) }
{
    if has_stood { Some(Why::Stood) } else { None }
}

/// Why the game ends with this move, if this result stood.
fn why_moves(played: Move, given: Option<Given>) -> Option<Why>
    ensures { result ≡ why_moves_of played given }
{
    let Some(given) = given else {
        return None;
    };
    if played.is_added {
        return None;
    }
    if !played.corrects {
        return Some(Why::PlaysOn);
    }
    if given.is_declared {
        Some(Why::Corrected)
    } else {
        None
    }
}

/// Since when nobody listens, if so.
fn left_after(event: Event) -> Option<u64>
    ensures { result ≡ left_by event.what event.at }
{
    match event.what {
        Happening::Resumes => Some(event.at),
        _ => None,
    }
}

/// The pictures, of which none is left if nobody had listened for so long.
fn again_after(was_left: bool, again: StartAgain) -> StartAgain
    ensures { (past : List ℕ) → KeepsPictures again past → KeepsPictures result (if was_left then [] else past) }
{
    if was_left { StartAgain::new() } else { again }
}

fn show(again: &mut StartAgain, what: Happening)
    ensures { (past : List ℕ) → KeepsPictures again.old past → KeepsPictures again.new (pictures_by what past) }
{
    match what {
        Happening::Shows(shown) => {
            again.take(shown.off, shown.at_start);
        }
        _ => {}
    }
}

/// Takes what happens in a game, and says when it is over.
#[derive(Drop)]
pub struct Ending {
    moves: Moves,
    again: StartAgain,
    /// Since when nobody listens, if nothing has come since.
    left: Option<u64>,
    given: Option<Given>,
    over: Option<Why>,
    has_begun: bool,
    front: u64,
    /// Of what was played since the game was over.
    played: u64,
    has_played: bool,
    is_another: bool,
}

impl Ending {
    /// Nothing has happened. Takes no memory.
    pub fn new(alloc: Global) -> Ending
        ensures { StandsFor result [] }
    {
        let moves = Moves::new(alloc);
        Ending {
            moves,
            again: StartAgain::new(),
            left: None,
            given: None,
            over: None,
            has_begun: false,
            front: 0,
            played: 0,
            has_played: false,
            is_another: false,
        }
    }

    /// Takes what happens, and says whether the game is over by that.
    ///
    /// # Errors
    ///
    /// Where there is no memory for the moves. Then nothing more may be taken.
    pub fn take(&mut self, event: Event) -> Result<Said, AllocError>
        ensures stands { (past : List EventOf) → StandsFor self.old past → OnOk result (StandsFor self.new (event ∷ past)) }
        ensures said { (past : List EventOf) → StandsFor self.old past → IfOk result (λ said. IsSaid said event past) }
    {
        let said = self.say(event)?;
        self.keep(event)?;
        Ok(said)
    }

    /// Takes that the board shows the game's position, as `take` does. Nothing is said to it.
    pub fn agree(&mut self, at: u64)
        ensures stands { (past : List EventOf) (bytes : ℕ) → StandsFor self.old past → StandsFor self.new (happens at bytes Agrees ∷ past) }
        ensures said { (past : List EventOf) (bytes : ℕ) → IsSaid Nothing (happens at bytes Agrees) past }
    {
        self.again = self.again_at(at);
        self.left = None;
        self.moves.show(true, at);
        self.has_begun = true;
    }

    /// Takes that it shows something else, as `take` does. Nothing is said to it.
    pub fn differ(&mut self, at: u64)
        ensures stands { (past : List EventOf) (bytes : ℕ) → StandsFor self.old past → StandsFor self.new (happens at bytes Differs ∷ past) }
        ensures said { (past : List EventOf) (bytes : ℕ) → IsSaid Nothing (happens at bytes Differs) past }
    {
        self.again = self.again_at(at);
        self.left = None;
        self.moves.show(false, at);
    }

    /// Takes the board's picture, as `take` does, if the start isn't shown. Whether it has taken it: then nothing is said to it.
    pub fn show(&mut self, at: u64, shown: Shown) -> bool
        ensures stands { (past : List EventOf) (bytes : ℕ) → StandsFor self.old past
            → StandsFor self.new (if result then happens at bytes (Shows shown) ∷ past else past) }
        ensures said { (past : List EventOf) (bytes : ℕ) → StandsFor self.old past → IsTrue result → IsSaid Nothing (happens at bytes (Shows shown)) past }
    {
        if self.may_say(at, shown) {
            return false;
        }
        let mut again = self.again_at(at);
        again.take(shown.off, shown.at_start);
        self.again = again;
        self.left = None;
        true
    }

    /// When the game ends by time alone, if nothing happens before: then `Passes` ends it, and not before. None: never.
    pub fn due(&self) -> Option<u64>
        ensures { (past : List EventOf) → StandsFor self.now past → (time bytes : ℕ) → time < 2 ^ 64
            → has_come time result ≡ is_some (ended_by (passes time bytes) past) }
    {
        if self.over.is_some() {
            None
        } else {
            stands_until(self.given)
        }
    }

    /// How the game ends by time alone, if it does by then and nothing happens before: `Passes` would say the same.
    pub fn over_at(&self, now: u64) -> Option<Over>
        ensures comes { (past : List EventOf) (bytes : ℕ) → StandsFor self.now past → is_some result ≡ is_some (ended_by (passes now bytes) past) }
        ensures said { (past : List EventOf) (bytes : ℕ) → StandsFor self.now past → IfSome result (λ over. IsSaid (IsOver over) (passes now bytes) past) }
    {
        if self.over.is_some() || !has_passed(now, self.given) {
            return None;
        }
        let is_sure = is_sure_by(Why::Stood, Happening::Passes, self.given);
        Some(with_result(Why::Stood, is_sure, self.given, self.front))
    }

    /// Whether the game ends if the board is heard now: `Hears` would say so, and says nothing else.
    pub fn ends_heard(&self, now: u64) -> bool
        ensures { (past : List EventOf) (bytes : ℕ) → StandsFor self.now past → result ≡ is_some (ended_by (happens now bytes Hears) past) }
    {
        self.over.is_none() && has_stood(now, self.given)
    }

    /// Whether nobody had listened for an hour.
    fn was_left(&self, now: u64) -> bool
        ensures { (past : List EventOf) → StandsFor self.now past → result ≡ was_left_of now past }
    {
        lasted(HOUR, now, self.left)
    }

    /// The pictures up to now.
    fn again_at(&self, now: u64) -> StartAgain
        ensures { (past : List EventOf) → StandsFor self.now past → KeepsPictures result (pictures_at now past) }
    {
        again_after(self.was_left(now), self.again)
    }

    /// Whether the start is shown again.
    fn starts_again(&self, now: u64, shown: Shown) -> bool
        ensures { (past : List EventOf) → StandsFor self.now past → result ≡ starts_again_of now shown past }
    {
        let mut again = self.again_at(now);
        again.take(shown.off, shown.at_start)
    }

    /// Whether something may be said to this picture.
    fn may_say(&self, now: u64, shown: Shown) -> bool
        ensures { (past : List EventOf) → StandsFor self.now past → result ≡ (shows_start_of (Shows shown) || starts_again_of now shown past) }
    {
        shown.off == 0 || self.starts_again(now, shown)
    }

    /// Why the game ends with this picture, if it isn't over.
    fn why_shows(&self, now: u64, shown: Shown) -> Option<Why>
        ensures { (past : List EventOf) → StandsFor self.now past → result ≡ why_by (Shows shown) now past }
    {
        if !(self.has_begun && self.starts_again(now, shown)) {
            return None;
        }
        if self.given.is_some() {
            Some(Why::SetUp)
        } else {
            Some(Why::Unfinished)
        }
    }

    /// Why the game ends with this, if it isn't over.
    fn why(&self, event: Event) -> Option<Why>
        ensures { (past : List EventOf) → StandsFor self.now past → result ≡ why_by event.what event.at past }
    {
        match event.what {
            Happening::Passes => stood(has_passed(event.at, self.given)),
            Happening::Hears => stood(has_stood(event.at, self.given)),
            Happening::Moves(played) => why_moves(played, self.given),
            Happening::Shows(shown) => self.why_shows(event.at, shown),
            _ => None,
        }
    }

    /// Why it ends with this, if it does.
    fn ended(&self, event: Event) -> Option<Why>
        ensures { (past : List EventOf) → StandsFor self.now past → result ≡ ended_by event past }
    {
        if self.over.is_some() {
            None
        } else {
            self.why(event)
        }
    }

    /// Why it is over after this, if it is.
    fn over_with(&self, event: Event) -> Option<Why>
        ensures { (past : List EventOf) → StandsFor self.now past → result ≡ why_over (event ∷ past) }
    {
        over_after(reopens(event.what), self.over, self.why(event))
    }

    /// How many moves were made since then, with this.
    fn played_with(&self, event: Event) -> u64
        ensures { (past : List EventOf) → StandsFor self.now past → result ≡ played (event ∷ past) }
    {
        if self.over_with(event).is_some() {
            played_after(event.what, self.played)
        } else {
            0
        }
    }

    /// Whether one of them brought no piece home.
    fn has_played_with(&self, event: Event) -> bool
        ensures { (past : List EventOf) → StandsFor self.now past → result ≡ has_played (event ∷ past) }
    {
        let is_over = self.over_with(event).is_some();
        is_over && (self.has_played || stays_out(event.what))
    }

    /// Whether what is played from now on is another game.
    fn is_another_with(&self, event: Event) -> bool
        ensures { (past : List EventOf) → StandsFor self.now past → result ≡ is_another (event ∷ past) }
    {
        has_result(self.over_with(event)) && (self.is_another || shows_start(event.what))
    }

    /// Whether the game begins only now.
    fn begins_now(&self, event: Event) -> bool
        ensures { (past : List EventOf) → StandsFor self.now past → result ≡ begins_now event past }
    {
        if self.over.is_some() {
            return false;
        }
        match event.what {
            Happening::Shows(shown) => self.starts_again(event.at, shown) && !self.has_begun,
            _ => false,
        }
    }

    /// Whether the game is over and goes on.
    fn goes_on(&self, event: Event) -> bool
        ensures { (past : List EventOf) → StandsFor self.now past → result ≡ goes_on event past }
    {
        if !is_on_board(event.what) || self.is_another {
            return false;
        }
        is_enough(self.played_with(event), self.has_played_with(event))
    }

    /// What is said if the game doesn't end.
    fn say_else(&self, event: Event) -> Said
        ensures { (past : List EventOf) → StandsFor self.now past → result ≡ said_else event past }
    {
        if self.begins_now(event) {
            return Said::BeginsNow;
        }
        if self.goes_on(event) {
            Said::GoesOn(self.played_with(event))
        } else {
            Said::Nothing
        }
    }

    /// What is said.
    fn say(&mut self, event: Event) -> Result<Said, AllocError>
        ensures stands { (past : List EventOf) → StandsFor self.old past → OnOk result (StandsFor self.new past) }
        ensures said { (past : List EventOf) → StandsFor self.old past → IfOk result (λ said. IsSaid said event past) }
    {
        let Some(why) = self.ended(event) else {
            return Ok(self.say_else(event));
        };
        match why {
            Why::Unfinished => {
                let found = self.moves.end(self.given)?;
                Ok(Said::IsOver(unfinished(found, self.front)))
            }
            _ => {
                let is_sure = is_sure_by(why, event.what, self.given);
                let over = with_result(why, is_sure, self.given, self.front);
                Ok(Said::IsOver(over))
            }
        }
    }

    /// Keeps what happens.
    fn keep(&mut self, event: Event) -> Result<(), AllocError>
        ensures { (past : List EventOf) → StandsFor self.old past → OnOk result (StandsFor self.new (event ∷ past)) }
    {
        let over = self.over_with(event);
        let played = self.played_with(event);
        let has_played = self.has_played_with(event);
        let is_another = self.is_another_with(event);
        let has_move = self.moves.has_move();
        let mut again = self.again_at(event.at);
        show(&mut again, event.what);
        self.moves.take(&event, self.given)?;
        self.again = again;
        self.left = left_after(event);
        self.given = given_after(event, self.given);
        self.has_begun = begun_after(event.what, has_move, self.has_begun);
        self.front = front_after(event, self.front);
        self.over = over;
        self.played = played;
        self.has_played = has_played;
        self.is_another = is_another;
        Ok(())
    }
}
