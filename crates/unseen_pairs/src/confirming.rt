//! Which pair a picture confirms.
ghost use Rattle.std.specs.Prelude.{◌≡◌, ◌<◌, ◌↔◌, [], ℕ, List, All, IfOk, IfSome, IfNone, IsTrue};
ghost use Rattle.chess_rules.specs.declared.parts.Parts.{Parts as PartsOf};
ghost use Rattle.settle_core.specs.declared.plies.Seen.{Seen as SeenOf};
ghost use Rattle.chess_rules.specs.Picture.{picture as picture_of};
ghost use Rattle.chess_rules.specs.Valid.{Valid};
ghost use Rattle.settle_core.specs.Folding.{SeenAs};
ghost use Rattle.unseen_pairs.specs.Pairs.{BringsNew, GoesOn, ShowsNew};
ghost use Rattle.unseen_pairs.specs.declared.confirming.Confirmed.{Confirmed as ConfirmedOf};
ghost use Rattle.unseen_pairs.specs.Inside.Waiting.{AreShown, Follows, IsOlder, IsOnlyOne, ShowsKing};

use crate::evidence::shows_new;
use crate::pair::Pair;
use crate::settled::settled_in;
use chess_clock::Reading;
use chess_rules::Position;
use settle_core::codes::WHITE_KING;
use settle_core::{Seen, Settler};
use std::alloc::{AllocError, Global};

/// The number of the square d5.
const D5: usize = 27;

/// The number of the square e5.
const E5: usize = 28;

/// The number of the square d4.
const D4: usize = 35;

/// The number of the square e4.
const E4: usize = 36;

/// A pair that explains a picture that waits.
#[derive(Clone, Copy)]
pub struct Candidate {
    pub pair: Pair,
    /// The position in which the pair begins.
    pub before: Position,
    /// The position after its first ply.
    pub middle: Position,
    /// The position after both.
    pub after: Position,
    /// The picture of that position.
    pub shown: [u8; 64],
    /// The clocks' reading of that picture.
    pub reading: Option<Reading>,
    /// How many pictures have come to wait after that one.
    pub age: u8,
}

/// The one candidate that a picture confirms, and what goes on from it.
#[derive(Clone, Copy)]
pub struct Confirmed {
    pub candidate: Candidate,
    pub sequel: Seen,
}

/// What the picture shows where no move was made.
fn shown_alone(alloc: Global, p: &Position, picture: &[u8; 64]) -> Result<Seen, AllocError>
    requires { All (λ code. code < 16) picture.now }
    ensures { IfOk result (SeenAs p.now [] picture.now) }
{
    let mut settler = Settler::new(alloc, *p);
    settler.see(picture, None)
}

/// Whether the position after a pair, or this picture, shows a piece where none, or another one, stood.
fn brings_new(now: &Position, after: &Position, picture: &[u8; 64]) -> bool
    ensures { IsTrue result ↔ BringsNew now.now after.now picture.now }
{
    shows_new(now, &after.picture()) || shows_new(now, picture)
}

/// What of this goes on from the position, to which a pair leads: a move, where the pair or this put a piece on a new
/// square, or a sign, where the pair did.
fn going_on(seen: Seen, brings: bool, puts: bool) -> Option<Seen>
    ensures some { (now p : PartsOf) (picture : List ℕ) → IsTrue brings ↔ BringsNew now p picture
        → IsTrue puts ↔ ShowsNew now (picture_of p) → SeenAs p [] picture seen → IfSome result (GoesOn now p picture) }
    ensures none { (now p : PartsOf) (picture : List ℕ) → Valid p → IsTrue brings ↔ BringsNew now p picture
        → IsTrue puts ↔ ShowsNew now (picture_of p) → SeenAs p [] picture seen
        → IfNone result ((a : SeenOf) → ¬ GoesOn now p picture a) }
{
    match seen {
        Seen::Moved(m) if brings => Some(Seen::Moved(m)),
        Seen::Moved(_) => None,
        Seen::Sign(outcome) if puts => Some(Seen::Sign(outcome)),
        Seen::Sign(_) => None,
        Seen::Replaced(_) => None,
        Seen::Same => None,
        Seen::Waits => None,
    }
}

/// Whether the code of White's king stands in the centre: a sign has it there.
fn shows_king(picture: &[u8; 64]) -> bool
    ensures { IsTrue result ↔ ShowsKing picture.now }
{
    picture[D5] == WHITE_KING
        || picture[E5] == WHITE_KING
        || picture[D4] == WHITE_KING
        || picture[E4] == WHITE_KING
}

/// What goes on from the candidate, if anything: the move that the picture settles behind its pair, where either put a
/// piece on a new square, or the sign over that position, where the pair did.
fn sequel(
    alloc: Global,
    now: &Position,
    candidate: &Candidate,
    picture: &[u8; 64],
) -> Result<Option<Seen>, AllocError>
    requires { All (λ code. code < 16) picture.now }
    ensures some { IfOk result (λ found. IfSome found (GoesOn now.now candidate.now.after picture.now)) }
    ensures none { IfOk result (λ found. IfNone found ((a : SeenOf) → ¬ Follows now.now candidate.now picture.now a)) }
{
    let after = &candidate.after;
    // For its clause: the position is valid.
    after.parts();
    if shows_king(picture) {
        let seen = shown_alone(alloc, after, picture)?;
        let puts = shows_new(now, &after.picture());
        return Ok(going_on(seen, brings_new(now, after, picture), puts));
    }
    let Some(m) = settled_in(after, &candidate.shown, picture) else {
        return Ok(None);
    };
    if brings_new(now, after, picture) {
        Ok(Some(Seen::Moved(m)))
    } else {
        Ok(None)
    }
}

fn is_same(a: &Pair, b: &Pair) -> bool
    ensures { IsTrue result ↔ (a.now ≡ b.now) }
{
    *a == *b
}

/// The older of two.
fn older(a: &Confirmed, b: &Confirmed) -> Confirmed
    ensures { IsOlder a.now b.now result }
{
    if a.candidate.age < b.candidate.age {
        *b
    } else {
        *a
    }
}

/// What `only_one` returns, however many candidates there are: apart, since a picture seldom meets any.
#[inline(never)]
fn only_one_of(
    alloc: Global,
    now: &Position,
    candidates: &[Candidate],
    picture: &[u8; 64],
) -> Result<Option<Confirmed>, AllocError>
    requires { All (λ code. code < 16) picture.now }
    ensures some { IfOk result (λ found. IfSome found (IsOnlyOne now.now candidates.now picture.now)) }
    ensures none { IfOk result (λ found. IfNone found ((one : ConfirmedOf) → AreShown candidates.now
        → ¬ IsOnlyOne now.now candidates.now picture.now one)) }
{
    let mut found = None;
    for candidate in candidates {
        let Some(sequel) = sequel(alloc, now, candidate, picture)? else {
            continue;
        };
        let one = Confirmed {
            candidate: *candidate,
            sequel,
        };
        found = match found {
            None => Some(one),
            Some(before) => {
                if !is_same(&before.candidate.pair, &candidate.pair) {
                    return Ok(None);
                }
                Some(older(&before, &one))
            }
        };
    }
    Ok(found)
}

/// The oldest candidate of the one pair from which the picture goes on, if there is exactly one such pair. The position
/// is the one that is reached.
pub fn only_one(
    alloc: Global,
    now: &Position,
    candidates: &[Candidate],
    picture: &[u8; 64],
) -> Result<Option<Confirmed>, AllocError>
    requires { All (λ code. code < 16) picture.now }
    ensures some { IfOk result (λ found. IfSome found (IsOnlyOne now.now candidates.now picture.now)) }
    ensures none { IfOk result (λ found. IfNone found ((one : ConfirmedOf) → AreShown candidates.now
        → ¬ IsOnlyOne now.now candidates.now picture.now one)) }
{
    if candidates.is_empty() {
        return Ok(None);
    }
    only_one_of(alloc, now, candidates, picture)
}
