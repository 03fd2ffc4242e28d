//! Which changes of a game explain a picture of its board: none, one or two of its last plies go, and none, one or two come.
ghost use Rattle.std.specs.Prelude.{◌≡◌, ◌≤◌, ◌↔◌, Contains, IfNone, IfOk, IfSome, IsTrue, OnOk, Some, length, slice_get};
ghost use Rattle.chess_rules.specs.Picture.{picture};
ghost use Rattle.settle_core.specs.Folding.{moves_of};
ghost use Rattle.settle_core.specs.Settling.{Line};
ghost use Rattle.going_back.specs.declared.fit.Fit.{Fit as FitOf};
ghost use Rattle.going_back.specs.Fitting.{Fits, IsOnlyFit};
ghost use Rattle.going_back.specs.Inside.Fitting.{Adds, FitsByNone, FitsByOne, FitsByTwo, FitsFrom, IsOnlyOf, IsTwo};

use crate::fit::{Coming, Fit};
use crate::going::{is_same_move, position_behind};
use chess_rules::{Move, Position};
use settle_core::Ply;
use std::alloc::{AllocError, Global};
use unseen_pairs::{TwoPlies, pairs_that_explain, settled_in};

/// Whether this move went.
fn is_gone(went: &Option<Move>, m: &Move) -> bool
    ensures { IsTrue result ↔ (went.now ≡ Some m.now) }
{
    match went {
        Some(gone) => is_same_move(gone, m),
        None => false,
    }
}

fn copy(two: &TwoPlies) -> TwoPlies
    ensures { result ≡ two.now }
{
    *two
}

/// Adds the fit with this pair, where its first move isn't the one that went.
fn add_two(
    fits: &mut Vec<Fit>,
    gone: u8,
    went: &Option<Move>,
    two: &TwoPlies,
) -> Result<(), AllocError>
    ensures { OnOk result (Adds (IsTwo gone went.now two.now) fits.old.items fits.new.items) }
{
    if is_gone(went, &two.first) {
        return Ok(());
    }
    fits.push(Fit {
        gone,
        coming: Coming::Two(copy(two)),
    })?;
    Ok(())
}

/// Adds those with two plies.
fn add_pairs(
    alloc: Global,
    fits: &mut Vec<Fit>,
    p: &Position,
    gone: u8,
    went: &Option<Move>,
    seen: &[u8; 64],
) -> Result<(), AllocError>
    ensures { OnOk result (Adds (FitsByTwo p.now gone went.now seen.now) fits.old.items fits.new.items) }
{
    let pairs = pairs_that_explain(alloc, p, seen)?;
    'pairs: for two in pairs.as_slice() {
        add_two(fits, gone, went, two)?;
    }
    Ok(())
}

/// Adds the one with one ply.
fn add_one(
    fits: &mut Vec<Fit>,
    p: &Position,
    before: &[u8; 64],
    gone: u8,
    went: &Option<Move>,
    seen: &[u8; 64],
) -> Result<(), AllocError>
    requires { before.now ≡ picture p.now }
    ensures { OnOk result (Adds (FitsByOne p.now gone went.now seen.now) fits.old.items fits.new.items) }
{
    let Some(m) = settled_in(p, before, seen) else {
        return Ok(());
    };
    if is_gone(went, &m) {
        return Ok(());
    }
    fits.push(Fit {
        gone,
        coming: Coming::One(m),
    })?;
    Ok(())
}

fn are_same(before: &[u8; 64], seen: &[u8; 64]) -> bool
    ensures { IsTrue result ↔ (before.now ≡ seen.now) }
{
    *before == *seen
}

/// Adds the one without a ply.
fn add_none(
    fits: &mut Vec<Fit>,
    p: &Position,
    before: &[u8; 64],
    gone: u8,
    seen: &[u8; 64],
) -> Result<(), AllocError>
    requires { before.now ≡ picture p.now }
    ensures { OnOk result (Adds (FitsByNone p.now gone seen.now) fits.old.items fits.new.items) }
{
    if !are_same(before, seen) {
        return Ok(());
    }
    fits.push(Fit {
        gone,
        coming: Coming::Nothing,
    })?;
    Ok(())
}

/// Adds the fits in which so many plies go, of which this is the first, and which go on from this position.
fn add_from(
    alloc: Global,
    fits: &mut Vec<Fit>,
    p: &Position,
    gone: u8,
    went: &Option<Move>,
    seen: &[u8; 64],
) -> Result<(), AllocError>
    ensures { OnOk result (Adds (FitsFrom p.now gone went.now seen.now) fits.old.items fits.new.items) }
{
    // For its clause: the position is valid.
    p.parts();
    let before = p.picture();
    add_none(fits, p, &before, gone, seen)?;
    add_one(fits, p, &before, gone, went, seen)?;
    add_pairs(alloc, fits, p, gone, went, seen)?;
    Ok(())
}

/// The move at this place.
fn move_at(plies: &[Ply], at: usize) -> Option<Move>
    ensures { result ≡ slice_get (moves_of plies.now) at }
{
    if at < plies.len() {
        Some(plies[at].mv)
    } else {
        None
    }
}

/// Adds the fits in which so many of the plies go.
fn add_going(
    alloc: Global,
    fits: &mut Vec<Fit>,
    start: &Position,
    plies: &[Ply],
    gone: u8,
    seen: &[u8; 64],
) -> Result<(), AllocError>
    requires line { Line start.now (moves_of plies.now) }
    requires few { gone ≤ 2 }
    ensures { OnOk result (Adds (λ fit. (fit.gone ≡ gone) × Fits start.now (moves_of plies.now) seen.now fit) fits.old.items fits.new.items) }
{
    if plies.len() < gone as usize {
        return Ok(());
    }
    let stays = plies.len() - gone as usize;
    let position = position_behind(start, &plies[..stays]);
    let went = move_at(plies, stays);
    add_from(alloc, fits, &position, gone, &went, seen)?;
    Ok(())
}

/// All changes that explain the picture where these plies were made from the start.
fn fits_of(
    alloc: Global,
    start: &Position,
    plies: &[Ply],
    seen: &[u8; 64],
) -> Result<Vec<Fit>, AllocError>
    requires { Line start.now (moves_of plies.now) }
    ensures { IfOk result (λ found. (fit : FitOf) → Contains found.items fit ↔ Fits start.now (moves_of plies.now) seen.now fit) }
{
    let mut found = Vec::new(alloc);
    add_going(alloc, &mut found, start, plies, 0, seen)?;
    add_going(alloc, &mut found, start, plies, 1, seen)?;
    add_going(alloc, &mut found, start, plies, 2, seen)?;
    Ok(found)
}

fn is_same_fit(a: &Fit, b: &Fit) -> bool
    ensures { IsTrue result ↔ (a.now ≡ b.now) }
{
    *a == *b
}

/// The one that all of these are.
fn only_of(fits: &[Fit]) -> Option<Fit>
    ensures some { IfSome result (IsOnlyOf fits.now) }
    ensures none { IfNone result ((fit : FitOf) → IsOnlyOf fits.now fit → ⊥) }
{
    if fits.is_empty() {
        return None;
    }
    let first = &fits[0];
    'fits: for fit in fits {
        if !is_same_fit(fit, first) {
            return None;
        }
    }
    Some(*first)
}

/// The change that alone explains the picture where these plies were made from the start; none where none does, or more than
/// one.
///
/// # Errors
///
/// Where there is no memory.
pub fn only_fit(
    alloc: Global,
    start: &Position,
    plies: &[Ply],
    seen: &[u8; 64],
) -> Result<Option<Fit>, AllocError>
    requires { Line start.now (moves_of plies.now) }
    ensures some { IfOk result (λ found. IfSome found (IsOnlyFit start.now (moves_of plies.now) seen.now)) }
    ensures none { IfOk result (λ found. IfNone found ((fit : FitOf) → IsOnlyFit start.now (moves_of plies.now) seen.now fit → ⊥)) }
{
    let fits = fits_of(alloc, start, plies, seen)?;
    Ok(only_of(fits.as_slice()))
}
