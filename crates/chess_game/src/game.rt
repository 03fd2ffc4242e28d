//! Games: a legal line of plies with its tags and its result.
ghost use Rattle.std.specs.Prelude.{◌≡◌, ◌↔◌, IsTrue, All};
ghost use Rattle.std.specs.Option.{ForSome};
ghost use Rattle.chess_rules.specs.Board.{other};
ghost use Rattle.settle_core.specs.Settling.{Line, position_after};
ghost use Rattle.settle_core.specs.Folding.{moves_of};
ghost use Rattle.settle_core.specs.GameResult.{IsResult, win_of};
ghost use Rattle.chess_game.specs.Games.{IsGame, IsTimed, Result};
ghost use Rattle.chess_clock.specs.Clock.{IsTime};

use crate::tags::Tags;
use crate::values::Tag;
use chess_clock::Hms;
use chess_rules::{Position, Side, Status};
use settle_core::{Outcome, Ply};
use std::marker::Model;

/// A legal line of plies from a start, with its tags and its result. It keeps the result and not the sign it was made
/// with, so no two games have one text.
#[derive(Debug, Drop)]
pub struct Game {
    tags: Tags,
    start: Position,
    plies: Vec<Ply>,
    result: Option<Outcome>,
}

impl Model for Game {
    ghost use Rattle.chess_game.specs.Games.{Content, IsGame};

    ghost Value = { Content };

    ghost use Rattle.chess_game.specs.GameFields.{content_in};

    ghost view = { content_in };

    ghost invariant = { λ g. IsGame (content_in g) };
}

/// The time of a clock, if there is one, is in range: 0:00:00 to 9:59:59.
fn count_clock(clock: &Option<Hms>)
    ensures { ForSome clock.now IsTime }
{
    if let Some(time) = clock {
        let _hours = time.hours;
    }
}

/// The position after a legal line.
fn last_position(start: &Position, plies: &[Ply]) -> Position
    requires { Line start.now (moves_of plies.now) }
    ensures position { result ≡ position_after start.now (moves_of plies.now) }
    ensures clocks { All IsTimed plies.now }
{
    let mut position = *start;
    for ply in plies {
        // For its clause: the time of a clock is in range.
        count_clock(&ply.clock);
        position = position.play(ply.mv);
    }
    position
}

fn winner_over(side: Side) -> Outcome
    ensures { result ≡ win_of (other side) }
{
    match side {
        Side::White => Outcome::BlackWins,
        Side::Black => Outcome::WhiteWins,
    }
}

/// The result of a game whose last position is this one: a win of the other side at checkmate, a draw at stalemate.
/// Else it is the sign, if one stands.
pub fn result_at(last: &Position, sign: Option<Outcome>) -> Option<Outcome>
    ensures { IsResult last.now sign result }
{
    match last.status() {
        Status::Checkmate => Some(winner_over(last.parts().side)),
        Status::Stalemate => Some(Outcome::Drawn),
        Status::Running => sign,
    }
}

impl Game {
    /// Whether each ply's move is legal in the position after those before it: the condition of `new`, for callers to
    /// ask.
    pub fn is_line(start: &Position, plies: &[Ply]) -> bool
        ensures { IsTrue result ↔ Line start.now (moves_of plies.now) }
    {
        let mut position = *start;
        for ply in plies {
            if !position.is_legal(ply.mv) {
                return false;
            }
            position = position.play(ply.mv);
        }
        true
    }

    /// The game of a legal line. Its result is the winner at checkmate (FIDE 5.1.1), a draw at stalemate (FIDE 5.2.1),
    /// else the sign, if any.
    pub fn new(tags: Tags, start: Position, plies: Vec<Ply>, sign: Option<Outcome>) -> Game
        requires { Line start (moves_of plies.items) }
        ensures tags { result.tags ≡ tags }
        ensures start { result.start ≡ start }
        ensures plies { result.plies ≡ plies.items }
        ensures result { Result start plies.items sign result.result }
    {
        let last = last_position(&start, &plies);
        let result = result_at(&last, sign);
        // For its clause: each tag has a value that it may have.
        tags.get(Tag::Event);
        // For its clause: the start is valid.
        start.parts();
        Game {
            tags,
            start,
            plies,
            result,
        }
    }

    /// The values of its tags.
    pub fn tags(&self) -> &Tags
        ensures tags { result.now ≡ self.now.tags }
    {
        &self.tags
    }

    /// The position that it starts from.
    pub fn start(&self) -> &Position
        ensures start { result.now ≡ self.now.start }
        ensures game { IsGame self.now }
    {
        &self.start
    }

    /// The plies, in their order.
    pub fn plies(&self) -> &[Ply]
        ensures plies { result.now ≡ self.now.plies }
        ensures game { IsGame self.now }
    {
        &self.plies
    }

    /// Its result, as the Result tag and the termination marker have it; none is `*`.
    pub fn result(&self) -> Option<Outcome>
        ensures { result ≡ self.now.result }
    {
        self.result
    }
}
