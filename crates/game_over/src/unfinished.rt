//! Where a game ended that has no result.
ghost use Rattle.std.specs.Prelude.{◌≡◌, ◌↔◌, ◌<◌, ◌≤◌, ◌+◌, IsTrue, ℕ, length, slice_get};
ghost use Rattle.game_over.specs.declared.made.Made.{Made as MadeOf};
ghost use Rattle.game_over.specs.Unfinished.{EndsBefore, IsEnd, IsFirst, IsLongest, IsSure, LosesTail, SetsUpFrom, sets_up as sets_up_of, stands, stood_for as stood_for_of, time_of as time_of_stood};

use crate::made::{Made, STANDS, sets_up, stood_for};

/// Where a game ended.
#[derive(Clone, Copy)]
pub struct End {
    /// So many of its moves stay.
    pub kept: usize,
    /// Nobody need look at the last moves: all stay, though not since all look like a set-up, and the last one brought no piece home.
    pub is_sure: bool,
}

/// The move with this number, if there is one.
fn move_at(moves: &[Made], i: usize) -> Option<Made>
    ensures { result ≡ slice_get moves.now i }
{
    if i < moves.len() {
        Some(moves[i])
    } else {
        None
    }
}

/// Whether this move looks like part of a set-up, as all after it do.
fn looks_set_up(moves: &[Made], i: usize) -> bool
    requires { i < length moves.now }
    ensures { (made : MadeOf) → slice_get moves.now i ≡ Some made → result ≡ sets_up_of made (slice_get moves.now (i + 1)) }
{
    sets_up(moves[i], move_at(moves, i + 1))
}

/// Whether this move stayed for as long as the last move of a game does.
fn stood_at(moves: &[Made], i: usize) -> bool
    requires { i < length moves.now }
    ensures { (made : MadeOf) → slice_get moves.now i ≡ Some made → result ≡ stood_for_of made.stood stands }
{
    stood_for(moves[i].stood, STANDS)
}

/// How long this move stood.
fn time_at(moves: &[Made], i: usize) -> u64
    requires { i < length moves.now }
    ensures { (made : MadeOf) → slice_get moves.now i ≡ Some made → result ≡ time_of_stood made.stood }
{
    moves[i].stood.unwrap_or(u64::MAX)
}

/// Whether this move brought a piece home.
fn is_home_at(moves: &[Made], i: usize) -> bool
    requires { i < length moves.now }
    ensures { (made : MadeOf) → slice_get moves.now i ≡ Some made → result ≡ made.goes_home }
{
    moves[i].goes_home
}

/// The first of the moves at the end that look like a set-up.
fn set_up_from(moves: &[Made]) -> usize
    ensures { SetsUpFrom result moves.now }
{
    let mut first = moves.len();
    while first > 0 && looks_set_up(moves, first - 1) {
        first -= 1;
    }
    first
}

/// Which of the moves from this one on stood longest, the first one of these; so many are there with it.
fn longest_from(moves: &[Made], first: usize) -> usize
    requires { first < length moves.now }
    ensures from { first < result }
    ensures within { result ≤ length moves.now }
    ensures longest { IsLongest first result moves.now }
    ensures is_first { IsFirst first result moves.now }
{
    let mut kept = first + 1;
    let mut time = time_at(moves, first);
    for i in first..moves.len() {
        let other = time_at(moves, i);
        if time < other {
            kept = i + 1;
            time = other;
        }
    }
    kept
}

/// How many moves are the game's, if a set-up begins with this one.
fn kept_before(moves: &[Made], first: usize) -> usize
    requires { first ≤ length moves.now }
    ensures ends { EndsBefore first result moves.now }
    ensures within { result ≤ length moves.now }
{
    if first == 0 || first == moves.len() {
        return moves.len();
    }
    if stood_at(moves, first - 1) {
        first
    } else {
        longest_from(moves, first)
    }
}

/// Whether nobody need look at the last moves, if a set-up would begin with the first one named and so many moves stay.
fn is_sure(moves: &[Made], first: usize, kept: usize) -> bool
    requires { kept ≤ length moves.now }
    ensures { IsTrue result ↔ IsSure first kept moves.now }
{
    if kept < moves.len() {
        return false;
    }
    if kept == 0 {
        return true;
    }
    first > 0 && !is_home_at(moves, kept - 1)
}

/// Where a game ended after which the start was shown again, by its moves and those of the set-up, in their order.
pub fn end_of(moves: &[Made]) -> End
    ensures end { IsEnd result.kept result.is_sure moves.now }
    ensures loses { LosesTail result.kept moves.now }
{
    let first = set_up_from(moves);
    let kept = kept_before(moves, first);
    let is_sure = is_sure(moves, first, kept);
    End { kept, is_sure }
}
