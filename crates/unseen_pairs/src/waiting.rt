//! The candidates of the entries that wait.
ghost use Rattle.std.specs.Prelude.{◌≡◌, ◌<◌, ◌↔◌, ◌∷◌, [], true, false, List, Some, IsTrue, OnOk, length};
ghost use Rattle.chess_rules.specs.declared.parts.Parts.{Parts as PartsOf};
ghost use Rattle.chess_rules.specs.After.{after};
ghost use Rattle.chess_rules.specs.Legal.{Legal};
ghost use Rattle.chess_rules.specs.Picture.{picture as picture_of};
ghost use Rattle.chess_rules.specs.Valid.{Valid};
ghost use Rattle.settle_core.specs.declared.plies.Ply.{Ply as PlyOf};
ghost use Rattle.settle_core.specs.declared.plies.Seen.{Seen as SeenOf};
ghost use Rattle.settle_core.specs.Folding.{SeenAs, moves_of};
ghost use Rattle.settle_core.specs.Settler.{position_of};
ghost use Rattle.settle_core.specs.Settling.{Played, reached};
ghost use Rattle.unseen_pairs.specs.Inside.Waiting.{AreAdded, AreAllAdded, AreKept, HidesNone, IsKept, IsKeptAt, IsNew};

use crate::confirming::Candidate;
use crate::evidence::is_back;
use crate::explaining::{has_more, may_be_explained, pairs_that_explain};
use crate::pair::{Pair, TwoPlies};
use chess_clock::Reading;
use chess_rules::{Move, Position};
use settle_core::Settler;
use std::alloc::{AllocError, Global};

/// A copy, since a reading by value is given away.
pub fn copy(reading: &Option<Reading>) -> Option<Reading>
    ensures { result ≡ reading.now }
{
    *reading
}

/// Whether the candidate is not as old as can be, and no piece is back that its pair took.
fn is_kept(before: &[u8; 64], picture: &[u8; 64], candidate: &Candidate) -> bool
    ensures kept { (now : PartsOf) → before.now ≡ picture_of now → IsTrue result ↔ IsKept now picture.now candidate.now }
    ensures young { IsTrue result → candidate.now.age < 255 }
{
    candidate.age < 255 && !is_back(before, &candidate.shown, picture)
}

/// What becomes of the candidate at this place with one more entry: it is one entry older, or the last one takes its
/// place.
fn keep_at(candidates: &mut Vec<Candidate>, before: &[u8; 64], picture: &[u8; 64], place: usize)
    requires { place < length candidates.old.items }
    ensures { (now : PartsOf) → before.now ≡ picture_of now → IsKeptAt now picture.now place candidates.old.items candidates.new.items }
{
    if is_kept(before, picture, &candidates[place]) {
        let candidate = &mut candidates[place];
        candidate.age += 1;
    } else {
        candidates.swap_remove(place);
    }
}

/// What `keep_all` does, however many candidates there are: apart, since a picture seldom meets any.
#[inline(never)]
fn keep_each(candidates: &mut Vec<Candidate>, now: &Position, picture: &[u8; 64])
    ensures { AreKept now.now picture.now candidates.old.items candidates.new.items }
{
    let before = now.picture();
    let mut rest = candidates.len();
    'places: while rest > 0 {
        rest -= 1;
        keep_at(candidates, &before, picture, rest);
    }
}

/// Makes the candidates one entry older, and leaves those out that are as old as can be, and those whose pair took a
/// piece that is back in this picture.
pub fn keep_all(candidates: &mut Vec<Candidate>, now: &Position, picture: &[u8; 64])
    ensures { AreKept now.now picture.now candidates.old.items candidates.new.items }
{
    if candidates.is_empty() {
        return;
    }
    keep_each(candidates, now, picture);
}

/// The candidate of two plies from a position.
fn candidate_of(
    corrects: bool,
    p: &Position,
    two: &TwoPlies,
    reading: &Option<Reading>,
) -> Candidate
    requires first { Legal p.now two.now.first }
    requires second { Legal (after p.now two.now.first) two.now.second }
    ensures { IsNew corrects p.now reading.now two.now result }
{
    let middle = p.play(two.first.copy());
    let after = middle.play(two.second.copy());
    Candidate {
        pair: Pair {
            corrects,
            first: two.first.copy(),
            second: two.second.copy(),
        },
        before: *p,
        middle,
        after,
        shown: after.picture(),
        reading: copy(reading),
        age: 0,
    }
}

/// Adds the pairs from a position that explain the picture, without a test before: apart, since few pictures come so
/// far.
#[inline(never)]
fn add_explaining(
    alloc: Global,
    candidates: &mut Vec<Candidate>,
    corrects: bool,
    p: &Position,
    picture: &[u8; 64],
    reading: &Option<Reading>,
) -> Result<(), AllocError>
    ensures { OnOk result (AreAdded corrects p.now picture.now reading.now candidates.old.items candidates.new.items) }
{
    let pairs = pairs_that_explain(alloc, p, picture)?;
    for two in pairs.as_slice() {
        candidates.push(candidate_of(corrects, p, two, reading))?;
    }
    Ok(())
}

/// Adds the pairs from a position that explain the picture. Tests first whether any may.
fn add_pairs(
    alloc: Global,
    candidates: &mut Vec<Candidate>,
    corrects: bool,
    p: &Position,
    picture: &[u8; 64],
    reading: &Option<Reading>,
) -> Result<(), AllocError>
    ensures { OnOk result (AreAdded corrects p.now picture.now reading.now candidates.old.items candidates.new.items) }
{
    if !may_be_explained(p, picture) {
        return Ok(());
    }
    add_explaining(alloc, candidates, corrects, p, picture, reading)
}

/// Adds the pairs from the settler's position that explain the picture.
fn add_next(
    alloc: Global,
    candidates: &mut Vec<Candidate>,
    settler: &Settler,
    picture: &[u8; 64],
    reading: &Option<Reading>,
) -> Result<(), AllocError>
    ensures { settler.now.last ≡ Some picture.now
        → OnOk result (AreAdded false (position_of settler.now) picture.now reading.now candidates.old.items candidates.new.items) }
{
    // For its clause: the position is valid.
    settler.position().parts();
    // No ply changes more than four squares, so two change no more than eight.
    if has_more(settler.differs(), 8) {
        return Ok(());
    }
    if !settler.may_hide_two() {
        return Ok(());
    }
    add_explaining(
        alloc,
        candidates,
        false,
        settler.position(),
        picture,
        reading,
    )
}

/// Adds the pairs from the position before the settler's last ply that explain the picture; none where no ply was made.
fn add_correcting(
    alloc: Global,
    candidates: &mut Vec<Candidate>,
    settler: &Settler,
    picture: &[u8; 64],
    reading: &Option<Reading>,
) -> Result<(), AllocError>
    ensures last { (ply : PlyOf) (earlier : List PlyOf) → settler.now.last ≡ Some picture.now → settler.now.score.plies ≡ ply ∷ earlier
        → Valid (reached settler.now.start (moves_of earlier))
        → OnOk result (AreAdded true (reached settler.now.start
        (moves_of earlier)) picture.now reading.now candidates.old.items candidates.new.items) }
    ensures none { settler.now.score.plies ≡ [] → OnOk result (candidates.new.items ≡ candidates.old.items) }
{
    if !settler.may_hide_two_before() {
        return Ok(());
    }
    let Some((before, _)) = settler.last_ply() else {
        return Ok(());
    };
    add_pairs(alloc, candidates, true, &before, picture, reading)
}

/// Whether the squares that the sides have left tell that no pair explains the last picture, where it waits. A pair
/// leaves a square of each side. Where it corrects the last ply, the side that is not to move has left the square to
/// which this ply went.
#[inline(always)]
pub fn hides_none(settler: &Settler) -> bool
    ensures { IsTrue result → HidesNone settler.now }
{
    // For its clause: the start is valid.
    settler.start().parts();
    if !settler.theirs_lost() {
        return true;
    }
    if settler.may_hide_two() {
        return false;
    }
    !settler.may_hide_two_before()
}

/// Adds all pairs that explain a picture which waits: those from the settler's position, and those from the position
/// before its last ply.
pub fn add_all(
    alloc: Global,
    candidates: &mut Vec<Candidate>,
    settler: &Settler,
    picture: &[u8; 64],
    reading: &Option<Reading>,
) -> Result<(), AllocError>
    ensures { settler.now.last ≡ Some picture.now
        → Played settler.now.start (moves_of settler.now.score.plies)
        → SeenAs settler.now.start (moves_of settler.now.score.plies) picture.now SeenOf.Waits
        → OnOk result (AreAllAdded settler.now.start settler.now.score.plies picture.now reading.now
        candidates.old.items candidates.new.items) }
{
    // For its clause: the start is valid.
    settler.start().parts();
    // No ply changes more than four squares. Where the last ply is taken back and two others are made, that is twelve
    // at most.
    if has_more(settler.differs(), 12) {
        return Ok(());
    }
    if hides_none(settler) {
        return Ok(());
    }
    add_next(alloc, candidates, settler, picture, reading)?;
    add_correcting(alloc, candidates, settler, picture, reading)
}
