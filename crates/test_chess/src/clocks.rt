//! The clock that a ply keeps.

use crate::games::with_pawn_on;
use crate::told::{Told, WAITS, told_of};
use crate::ways::{E2_E3, E2_E4};
use chess_clock::Hms;
use chess_rules::{Position, Square};
use dgt_frame::{First, read_time};
use settle_core::Settler;
use std::alloc::{AllocError, Global};

/// The hours, minutes and seconds of a clock.
type Clock = Option<(u8, u8, u8)>;

/// Whether the last ply's clock shows this.
fn is_last_clock(settler: &Settler, clock: Clock) -> bool {
    match settler.moves().last() {
        Some(ply) => is_clock(ply.clock, clock),
        None => clock.is_none(),
    }
}

fn is_clock(shown: Option<Hms>, clock: Clock) -> bool {
    match (shown, clock) {
        (Some(shown), Some((hours, minutes, seconds))) => shown.hours == hours
            && shown.minutes == minutes
            && shown.seconds == seconds,
        (None, None) => true,
        _ => false,
    }
}

/// Whether the settler started from the initial position, and holds one ply and no sign.
fn holds_one_ply(settler: Settler) -> bool {
    let (start, plies, sign) = settler.into_parts();
    start.picture() == Position::initial().picture() && plies.len() == 1 && sign.is_none()
}

/// The data of two time messages, the first of which is the earlier.
const EARLIER: [u8; 7] = [1, 0x30, 0, 1, 0x29, 0x59, 0];

const LATER: [u8; 7] = [1, 0x29, 0x50, 1, 0x29, 0x59, 0];

/// Where the pawn of e2 is shown, in hand where there is no number, the time message before it, what is returned, and
/// the last ply's clock.
static CORRECTED: [(Option<u8>, [u8; 7], Told, Clock); 5] = [
    (None, EARLIER, WAITS, None),
    (Some(36), EARLIER, Told::Moved(E2_E4), Some((1, 30, 0))),
    // The same picture again leaves the ply its clock.
    (Some(36), LATER, Told::Same, Some((1, 30, 0))),
    (None, LATER, WAITS, Some((1, 30, 0))),
    (Some(44), LATER, Told::Replaced(E2_E3), Some((1, 29, 50))),
];

/// Shows the pictures in turn: the number of the first that gets another answer or clock.
fn first_with_another_clock(settler: &mut Settler) -> Result<Option<usize>, AllocError> {
    let mut reading = None;
    for (i, (number, data, answer, clock)) in CORRECTED.iter().enumerate() {
        let square = number.and_then(Square::new);
        reading = read_time(data, First::White, reading);
        let given = told_of(&settler.see(&with_pawn_on(square), reading)?);
        if given != *answer || !is_last_clock(settler, *clock) {
            return Ok(Some(i));
        }
    }
    Ok(None)
}

/// Whether a new settler gives each its answer and its clock, and then holds one ply.
fn clocks_are_kept(alloc: Global) -> Result<bool, AllocError> {
    let mut settler = Settler::new(alloc, Position::initial());
    let first = first_with_another_clock(&mut settler)?;
    Ok(first.is_none() && holds_one_ply(settler))
}

#[test]
fn a_repeat_leaves_the_clock_and_a_replacement_takes_its_own(rt: HostRuntime) {
    assert!(rt; clocks_are_kept(rt.alloc()) == Ok(true));
}
