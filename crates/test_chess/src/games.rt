//! Games as updates: whole pictures go to one settler, updates to another, and pictures to the one that tries every
//! move.
ghost use Rattle.std.specs.Prelude.{All, ◌<◌, ◌≡◌, OnOk, true};
ghost use Rattle.settle_core.specs.Settler.{has_seen};

use crate::plain::Plain;
use crate::told::{Told, WAITS, Way, told_of, way_of};
use chess_rules::{Position, Square, Status};
use settle_core::{Outcome, Settler};
use std::alloc::{AllocError, Global};
use std::process::Abort;

/// The picture with this code on one square.
pub fn changed(picture: &[u8; 64], at: Square, code: u8) -> [u8; 64]
    requires codes { All (λ code. code < 16) picture.now }
    requires code { code < 16 }
    ensures { All (λ code. code < 16) result }
{
    let mut picture = *picture;
    picture[at.number() as usize] = code;
    picture
}

/// The initial position's picture with the pawn of e2 on this square, or in hand.
pub fn with_pawn_on(square: Option<Square>) -> [u8; 64]
    ensures { All (λ code. code < 16) result }
{
    let mut picture = Position::initial().picture();
    picture[52] = 0;
    match square {
        Some(square) => changed(&picture, square, 1),
        None => picture,
    }
}

/// Updates of one square each, and what comes of them.
#[derive(Clone, Copy)]
pub struct Game<'a> {
    /// Squares by their numbers, and the codes that they show.
    pub updates: &'a [(u8, u8)],
    /// What is returned for each update, where the game tells it.
    pub answers: Option<&'a [Told]>,
    /// The moves, the sign and the status that the settler holds at the end.
    pub moves: &'a [Way],
    pub sign: Option<Outcome>,
    pub status: Status,
}

/// Shows the first picture to each settler: whether all three wait.
fn wait(
    by_pictures: &mut Settler,
    by_updates: &mut Settler,
    plain: &mut Plain,
    picture: &[u8; 64],
) -> Result<bool, AllocError>
    requires { All (λ code. code < 16) picture.now }
    ensures { OnOk result (has_seen by_updates.new ≡ true) }
{
    let of_pictures = told_of(&by_pictures.see(picture, None)?);
    let of_updates = told_of(&by_updates.see(picture, None)?);
    let of_plain = plain.see(picture);
    Ok(of_pictures == WAITS && of_updates == WAITS && of_plain == WAITS)
}

/// Shows an update to each settler, as a picture or as it is: what is returned, where all three return the same, and
/// then hold the same sign and the two the same moves.
fn show(
    by_pictures: &mut Settler,
    by_updates: &mut Settler,
    plain: &mut Plain,
    picture: &[u8; 64],
    at: Square,
    code: u8,
) -> Result<Option<Told>, AllocError>
    requires codes { All (λ code. code < 16) picture.now }
    requires code { code < 16 }
    requires seen { has_seen by_updates.old ≡ true }
    ensures { has_seen by_updates.new ≡ true }
{
    let answer = told_of(&by_pictures.see(picture, None)?);
    let of_updates = told_of(&by_updates.see_field(at, code, None)?);
    let of_plain = plain.see(picture);
    if of_updates == answer && of_plain == answer && hold_alike(by_pictures, by_updates, plain) {
        Ok(Some(answer))
    } else {
        Ok(None)
    }
}

/// Whether all three hold one sign, and the two the same moves.
fn hold_alike(by_pictures: &Settler, by_updates: &Settler, plain: &Plain) -> bool {
    by_updates.sign() == by_pictures.sign()
        && plain.sign == by_pictures.sign()
        && by_updates.moves() == by_pictures.moves()
}

/// Whether this was returned for the update with this number, and is what is told, if anything is.
fn is_told(answers: Option<&[Told]>, i: usize, given: Option<Told>) -> bool {
    match (answers, given) {
        (Some(answers), Some(given)) => match answers.get(i) {
            Some(answer) => *answer == given,
            None => false,
        },
        (None, Some(_)) => true,
        (_, None) => false,
    }
}

/// Whether it is told for each update what is returned, or for none.
fn tells_each(game: &Game<'_>) -> bool {
    match game.answers {
        Some(answers) => answers.len() == game.updates.len(),
        None => true,
    }
}

/// Shows the update with these numbers to each settler, and changes the picture by it; nothing is returned where the
/// numbers are those of no square or no code.
fn update(
    by_pictures: &mut Settler,
    by_updates: &mut Settler,
    plain: &mut Plain,
    picture: &mut [u8; 64],
    field: u8,
    code: u8,
) -> Result<Option<Told>, AllocError>
    requires codes { All (λ code. code < 16) picture.old }
    requires seen { has_seen by_updates.old ≡ true }
    ensures codes { All (λ code. code < 16) picture.new }
    ensures seen { has_seen by_updates.new ≡ true }
{
    match Square::new(field) {
        Some(at) if code < 16 => {
            *picture = changed(picture, at, code);
            show(by_pictures, by_updates, plain, picture, at, code)
        }
        _ => Ok(None),
    }
}

/// Plays the game: whole pictures to one settler, updates to another, and pictures to the plain one. Whether it goes as it
/// tells.
fn play(
    by_pictures: &mut Settler,
    by_updates: &mut Settler,
    start: Position,
    game: &Game<'_>,
) -> Result<bool, AllocError> {
    let mut plain = Plain::new(start);
    let mut picture = start.picture();
    if !wait(by_pictures, by_updates, &mut plain, &picture)? {
        return Ok(false);
    }
    for (i, (field, code)) in game.updates.iter().enumerate() {
        let given = update(
            by_pictures,
            by_updates,
            &mut plain,
            &mut picture,
            *field,
            *code,
        )?;
        if !is_told(game.answers, i, given) {
            return Ok(false);
        }
    }
    Ok(ends(by_pictures, game))
}

/// Whether the settler holds what the game tells of its end.
fn ends(settler: &Settler, game: &Game<'_>) -> bool {
    tells_each(game)
        && has_moves(settler, game.moves)
        && settler.sign() == game.sign
        && settler.position().status() == game.status
}

fn has_moves(settler: &Settler, ways: &[Way]) -> bool {
    let plies = settler.moves();
    if plies.len() != ways.len() {
        return false;
    }
    for (i, ply) in plies.iter().enumerate() {
        if ways.get(i) != Some(&way_of(&ply.mv)) {
            return false;
        }
    }
    true
}

/// Plays the game with new settlers: whether it goes as it tells.
pub fn goes(alloc: Global, start: Position, game: &Game<'_>) -> Result<bool, AllocError> {
    let mut by_pictures = Settler::new(alloc, start);
    let mut by_updates = Settler::new(alloc, start);
    play(&mut by_pictures, &mut by_updates, start, game)
}

/// Plays the games, each with new settlers: the number of the first that goes otherwise than it tells, 0 where there is no
/// start.
fn first_unlike(
    alloc: Global,
    start: Option<Position>,
    games: &[Game<'_>],
) -> Result<Option<usize>, AllocError> {
    let Some(start) = start else {
        return Ok(Some(0));
    };
    for (i, game) in games.iter().enumerate() {
        if !goes(alloc, start, game)? {
            return Ok(Some(i));
        }
    }
    Ok(None)
}

/// Plays the games, and fails where one goes otherwise than it tells.
pub fn play_all(rt: &impl Abort, alloc: Global, start: Option<Position>, games: &[Game<'_>]) {
    assert!(rt; first_unlike(alloc, start, games) == Ok(None));
}
