//! Games as updates, shown to a recoverer.
ghost use Rattle.std.specs.Prelude.{All, ◌<◌};

use crate::answers::{Answer, WAITS, Way, recovered_of, shown_of, way_of};
use crate::games::changed;
use chess_clock::Reading;
use chess_rules::{Position, Square};
use settle_core::{Outcome, Settler};
use std::alloc::{AllocError, Global};
use std::process::Abort;
use unseen_pairs::{Recoverer, SeenOrRecovered};

/// The picture after 1. e4 e5, with these codes on g1 and f3.
pub fn after_two(g1: u8, f3: u8) -> [u8; 64]
    requires g1 { g1 < 16 }
    requires f3 { f3 < 16 }
    ensures { All (λ code. code < 16) result }
{
    let mut picture = Position::initial().picture();
    picture[52] = 0;
    picture[36] = 1;
    picture[12] = 0;
    picture[28] = 7;
    picture[62] = g1;
    picture[45] = f3;
    picture
}

/// Updates of one square each, and what comes of them.
#[derive(Clone, Copy)]
pub struct Game<'a> {
    /// Squares by their numbers, and the codes that they show.
    pub updates: &'a [(u8, u8)],
    /// What is returned for each of them.
    pub answers: &'a [Answer],
    /// The moves and the sign at the end.
    pub moves: &'a [Way],
    pub sign: Option<Outcome>,
}

/// Shows a picture at a reading: what is returned.
pub fn show(
    alloc: Global,
    recoverer: &mut Recoverer,
    picture: &[u8; 64],
    reading: Option<Reading>,
) -> Result<Answer, AllocError>
    requires { All (λ code. code < 16) picture.now }
{
    match recoverer.see(alloc, picture, reading)? {
        SeenOrRecovered::Shown(seen) => Ok(Answer::Shown(shown_of(&seen))),
        SeenOrRecovered::Recovered(recovery) => Ok(recovered_of(&recovery)),
    }
}

/// Shows the update with these numbers, and changes the picture by it; nothing is returned where the numbers are those
/// of no square or no code.
fn update(
    alloc: Global,
    recoverer: &mut Recoverer,
    picture: &mut [u8; 64],
    field: u8,
    code: u8,
) -> Result<Option<Answer>, AllocError>
    requires { All (λ code. code < 16) picture.old }
    ensures { All (λ code. code < 16) picture.new }
{
    match Square::new(field) {
        Some(at) if code < 16 => {
            *picture = changed(picture, at, code);
            Ok(Some(show(alloc, recoverer, picture, None)?))
        }
        _ => Ok(None),
    }
}

/// Shows the game: whether it goes as it tells.
fn play(
    alloc: Global,
    recoverer: &mut Recoverer,
    start: Position,
    game: &Game<'_>,
) -> Result<bool, AllocError> {
    let mut picture = start.picture();
    if show(alloc, recoverer, &picture, None)? != WAITS {
        return Ok(false);
    }
    for (i, (field, code)) in game.updates.iter().enumerate() {
        let given = update(alloc, recoverer, &mut picture, *field, *code)?;
        if given.is_none() || given.as_ref() != game.answers.get(i) {
            return Ok(false);
        }
    }
    Ok(ends(recoverer.settler(), game))
}

/// Whether what is held at the end is what the game tells.
fn ends(settler: &Settler, game: &Game<'_>) -> bool {
    has_moves(settler, game.moves) && settler.sign() == game.sign
}

/// Whether the line has these moves.
pub fn has_moves(settler: &Settler, ways: &[Way]) -> bool {
    let plies = settler.moves();
    if plies.len() != ways.len() {
        return false;
    }
    for (i, ply) in plies.iter().enumerate() {
        if ways.get(i) != Some(&way_of(&ply.mv)) {
            return false;
        }
    }
    true
}

/// Shows the game to a new recoverer: whether it goes as it tells.
fn goes(alloc: Global, start: Position, game: &Game<'_>) -> Result<bool, AllocError> {
    let mut recoverer = Recoverer::new(alloc, start);
    play(alloc, &mut recoverer, start, game)
}

/// Shows the games, each to a new recoverer: the number of the first that goes otherwise than it tells, 0 where there is no
/// start.
fn first_unlike(
    alloc: Global,
    start: Option<Position>,
    games: &[Game<'_>],
) -> Result<Option<usize>, AllocError> {
    let Some(start) = start else {
        return Ok(Some(0));
    };
    for (i, game) in games.iter().enumerate() {
        if !goes(alloc, start, game)? {
            return Ok(Some(i));
        }
    }
    Ok(None)
}

/// Shows the games, and fails where one goes otherwise than it tells.
pub fn play_all(rt: &impl Abort, alloc: Global, start: Option<Position>, games: &[Game<'_>]) {
    assert!(rt; first_unlike(alloc, start, games) == Ok(None));
}
