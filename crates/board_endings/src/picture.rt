//! What one picture tells.
ghost use Rattle.std.specs.Prelude.{◌≡◌, ◌↔◌, ◌<◌, ◌^◌, ℕ, List, IsTrue, length};
ghost use Rattle.std.specs.Str.{bytes_eq};
ghost use Rattle.chess_rules.specs.declared.parts.Parts.{Parts};
ghost use Rattle.settle_core.specs.declared.plies.Outcome.{Outcome as OutcomeOf};
ghost use Rattle.settle_core.specs.declared.plies.Ply.{Ply as PlyOf};
ghost use Rattle.settle_core.specs.Masks.{IsDiff};
ghost use Rattle.board_endings.specs.Keeping.{KeepsCourse};
ghost use Rattle.board_endings.specs.Moves.{TellsMove};
ghost use Rattle.board_endings.specs.Telling.{TellsPicture, TellsResult, declares as declares_of, ends as ends_of, game_by, outcome_of};

use crate::course::Course;
use game_over::{Happening, Move, Outcome, Shown};
use settle_core::Outcome as GameOutcome;
use settle_core::masks::diff_mask;

/// What one picture tells, one thing after the other.
#[derive(Clone, Copy)]
pub struct Told {
    /// A move or a correction; else that the board shows the game's position, or something else.
    pub game: Happening,
    /// The result, if the game has it since then.
    pub ended: Option<Happening>,
    /// The picture.
    pub shown: Shown,
}

fn game(moved: Option<Move>, agrees: bool) -> Happening
    ensures { result ≡ game_by moved agrees }
{
    match moved {
        Some(played) => Happening::Moves(played),
        None => if agrees {
            Happening::Agrees
        } else {
            Happening::Differs
        },
    }
}

fn outcome_at(given: GameOutcome) -> Outcome
    ensures { result ≡ outcome_of given }
{
    match given {
        GameOutcome::WhiteWins => Outcome::WhiteWins,
        GameOutcome::BlackWins => Outcome::BlackWins,
        GameOutcome::Drawn => Outcome::Draw,
    }
}

fn ends(is_added: bool, outcome: Option<GameOutcome>) -> Option<Happening>
    ensures { result ≡ ends_of is_added outcome }
{
    match outcome {
        None => None,
        Some(outcome) => {
            let outcome = outcome_at(outcome);
            Some(Happening::Ends { outcome, is_added })
        }
    }
}

fn declares(is_added: bool, outcome: Option<GameOutcome>) -> Option<Happening>
    ensures { result ≡ declares_of is_added outcome }
{
    match outcome {
        None => None,
        Some(outcome) => {
            let outcome = outcome_at(outcome);
            Some(Happening::Declares { outcome, is_added })
        }
    }
}

fn is_outcome(one: Option<GameOutcome>, other: Option<GameOutcome>) -> bool
    ensures { IsTrue result ↔ (one ≡ other) }
{
    one == other
}

/// What is told of the result.
fn ended(
    is_added: bool,
    moved: Option<Move>,
    before: Option<GameOutcome>,
    after: Option<GameOutcome>,
) -> Option<Happening>
    ensures { TellsResult is_added moved before after result }
{
    if moved.is_some() {
        return ends(is_added, after);
    }
    if is_outcome(after, before) {
        None
    } else {
        declares(is_added, after)
    }
}

/// For its clause: a mask has 64 bits.
fn count_bits(squares: u64)
    ensures { squares < 2 ^ 64 }
{}

/// What another picture tells, where this is the game after it, with this move or correction, and the result has become the second
/// one. It differs from the game's position on these squares.
pub fn told_of(
    course: &Course,
    is_added: bool,
    moved: Option<Move>,
    differs: u64,
    picture: &[u8; 64],
    before: Option<GameOutcome>,
    after: Option<GameOutcome>,
) -> Told
    ensures { (start : Parts) (old new : List PlyOf) → KeepsCourse course.now start new → TellsMove start is_added old new moved
        → IsDiff differs course.now.here picture.now → TellsPicture start is_added old new before after picture.now result }
{
    let off = diff_mask(&course.start, picture);
    // For its clause: a mask has 64 bits.
    count_bits(off);
    let agrees = course.agrees(differs, picture);
    Told {
        game: game(moved, agrees),
        ended: ended(is_added, moved, before, after),
        shown: Shown {
            off,
            at_start: course.is_at_start(),
        },
    }
}
