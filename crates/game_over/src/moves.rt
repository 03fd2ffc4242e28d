//! The moves of a game, with how long each stood, and where the game would end with it.
ghost use Rattle.std.specs.Prelude.{◌≡◌, ◌∷◌, ℕ, [], List, IfOk, None, OnOk, Some, is_some, slice_get, ◌++◌};
ghost use Rattle.game_over.specs.declared.made.Made.{Made as MadeOf};
ghost use Rattle.game_over.specs.declared.happened.Event.{Event as EventOf};
ghost use Rattle.game_over.specs.declared.moves.Last.{Last as LastOf};
ghost use Rattle.game_over.specs.Moves.{goes_on as goes_on_of, last_by, made_of, last_move, listed_move, listed_place, mate_of, moves, new_move, place_of, places, showed_by, shown_by, second_by, stood_of};
ghost use Rattle.game_over.specs.Keeping.{KeepsMoves};
ghost use Rattle.game_over.specs.Result.{last_given};
ghost use Rattle.game_over.specs.Said.{IsFound};

use crate::happened::{Event, Happening, Move, Outcome};
use crate::made::Made;
use crate::result::Given;
use crate::unfinished::end_of;
use square_runs::{carried, lasted};
use std::alloc::{AllocError, Global};

/// A player thinks with a piece in hand if he holds it for this, in milliseconds.
const THINKS: u64 = 3_000;

/// The last move of a game, and the times at which the board showed something since then.
#[derive(Clone, Copy)]
pub struct Last {
    pub played: Move,
    pub at: u64,
    pub bytes: u64,
    /// Since when the board shows something else than the position after it, if it does.
    pub left: Option<u64>,
    /// When the board first showed something.
    pub first: Option<u64>,
    /// When it did so next.
    pub second: Option<u64>,
}

/// Where a game ends, if this move is its last one.
#[derive(Clone, Copy)]
pub struct Place {
    /// So many bytes of the capture are the game's.
    pub bytes: u64,
    /// The result, if it is mate or stalemate.
    pub result: Option<Outcome>,
}

fn second_after(at: u64, first: Option<u64>, second: Option<u64>) -> Option<u64>
    ensures { result ≡ second_by at first second }
{
    match first {
        None => None,
        Some(_) => carried(true, at, second),
    }
}

/// The board shows the position after the last move, or something else.
fn show(last: &mut Option<Last>, agrees: bool, at: u64)
    ensures { last.new ≡ showed_by agrees at last.old }
{
    if let Some(last) = last {
        last.left = if agrees {
            None
        } else {
            carried(true, at, last.left)
        };
        last.second = second_after(at, last.first, last.second);
        last.first = carried(true, at, last.first);
    }
}

/// A move that is made just now.
fn make(played: Move, at: u64, bytes: u64) -> Last
    ensures { result ≡ new_move played at bytes }
{
    Last {
        played,
        at,
        bytes,
        left: None,
        first: None,
        second: None,
    }
}

fn stood(at: u64, left: Option<u64>) -> Option<u64>
    ensures { result ≡ stood_of at left }
{
    match left {
        None => None,
        Some(left) => Some(left.saturating_sub(at)),
    }
}

/// Whether hands went on at once.
fn goes_on(first: Option<u64>, second: Option<u64>) -> bool
    ensures { result ≡ goes_on_of first second }
{
    match (first, second) {
        (Some(_), Some(second)) => !lasted(THINKS, second, first),
        _ => true,
    }
}

/// A move, as far as the end of its game depends on it.
fn made(last: Last) -> Made
    ensures { result ≡ made_of last }
{
    Made {
        stood: stood(last.at, last.left),
        goes_home: last.played.goes_home,
        goes_on: goes_on(last.first, last.second),
        corrects: last.played.corrects,
        is_added: last.played.is_added,
    }
}

/// The result, if it is mate or stalemate.
fn mate(given: Option<Given>) -> Option<Outcome>
    ensures { result ≡ mate_of given }
{
    match given {
        None => None,
        Some(given) => if given.is_declared {
            None
        } else {
            Some(given.outcome)
        },
    }
}

/// Where the game ends, if this is its last move and this result was given after it.
fn place_with(last: Last, given: Option<Given>) -> Place
    ensures { result ≡ place_of last given }
{
    Place {
        bytes: last.bytes,
        result: mate(given),
    }
}

/// Adds a move, and where the game ends with it, if there is one.
fn add(
    moves: &mut Vec<Made>,
    places: &mut Vec<Place>,
    last: Option<Last>,
    given: Option<Given>,
) -> Result<(), AllocError>
    ensures moves { OnOk result (moves.new.items ≡ moves.old.items ++ listed_move last) }
    ensures places { OnOk result (places.new.items ≡ places.old.items ++ listed_place last given) }
{
    if let Some(last) = last {
        moves.push(made(last))?;
        places.push(place_with(last, given))?;
    }
    Ok(())
}

/// Where a game without a result ended.
#[derive(Clone, Copy)]
pub struct Found {
    /// None if it has no move.
    pub place: Option<Place>,
    pub is_sure: bool,
}

/// The place with this number, if there is one.
fn place_at(places: &[Place], i: usize) -> Option<Place>
    ensures { result ≡ slice_get places.now i }
{
    if i < places.len() {
        Some(places[i])
    } else {
        None
    }
}

/// Where the game with these moves ended, if these are the places of its ends.
fn find(moves: &[Made], places: &[Place]) -> Found
    ensures { IsFound result.place result.is_sure moves.now places.now }
{
    let end = end_of(moves);
    let place = place_at(places, end.kept.saturating_sub(1));
    Found {
        place,
        is_sure: end.is_sure,
    }
}

/// The moves of a game.
#[derive(Drop)]
pub struct Moves {
    last: Option<Last>,
    /// Those before the last one.
    earlier: Vec<Made>,
    /// Where the game would have ended with each of these.
    places: Vec<Place>,
}

impl Moves {
    /// Nothing has happened. Takes no memory.
    pub fn new(alloc: Global) -> Moves
        ensures { KeepsMoves result [] }
    {
        let earlier = Vec::new(alloc);
        let places = Vec::new(alloc);
        Moves {
            last: None,
            earlier,
            places,
        }
    }

    /// Whether the game has a move.
    pub fn has_move(&self) -> bool
        ensures { (past : List EventOf) → KeepsMoves self.now past → result ≡ is_some (last_move past) }
    {
        self.last.is_some()
    }

    /// Takes what happens, if before it this result stood.
    ///
    /// # Errors
    ///
    /// Where there is no memory for a move. Then nothing more may be taken.
    pub fn take(&mut self, event: &Event, given: Option<Given>) -> Result<(), AllocError>
        ensures { (past : List EventOf) → KeepsMoves self.old past → given ≡ last_given past → OnOk result (KeepsMoves self.new (event.now ∷ past)) }
    {
        match event.what {
            Happening::Moves(played) => {
                show(&mut self.last, false, event.at);
                add(&mut self.earlier, &mut self.places, self.last, given)?;
                self.last = Some(make(played, event.at, event.bytes));
                Ok(())
            }
            Happening::Agrees => {
                self.show(true, event.at);
                Ok(())
            }
            Happening::Differs => {
                self.show(false, event.at);
                Ok(())
            }
            _ => Ok(()),
        }
    }

    /// The board shows the position after the last move, or something else.
    pub fn show(&mut self, agrees: bool, at: u64)
        ensures last { self.new.last ≡ showed_by agrees at self.old.last }
        ensures earlier { self.new.earlier ≡ self.old.earlier }
        ensures places { self.new.places ≡ self.old.places }
    {
        show(&mut self.last, agrees, at);
    }

    /// Where the game ended, if the start is shown again and this result stood.
    ///
    /// # Errors
    ///
    /// Where there is no memory for all moves. Then nothing more may be taken.
    pub fn end(&mut self, given: Option<Given>) -> Result<Found, AllocError>
        ensures stands { (past : List EventOf) → KeepsMoves self.old past → OnOk result (KeepsMoves self.new past) }
        ensures found { (past : List EventOf) → KeepsMoves self.old past → given ≡ last_given past
            → IfOk result (λ found. IsFound found.place found.is_sure (moves past) (places past)) }
    {
        let many = self.earlier.as_slice().len();
        let as_many = self.places.as_slice().len();
        add(&mut self.earlier, &mut self.places, self.last, given)?;
        let found = find(self.earlier.as_slice(), self.places.as_slice());
        self.earlier.truncate(many);
        self.places.truncate(as_many);
        Ok(found)
    }
}
