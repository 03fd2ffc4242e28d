//! Pictures that wait, in great number.

use crate::games::with_pawn_on;
use crate::told::{WAITS, told_of};
use chess_rules::{Position, Square};
use settle_core::Settler;
use std::alloc::{AllocError, Global};

/// Shows the pawn of e2 in hand and on e5 in turn, so many times: whether the settler always waits.
fn waits_always(settler: &mut Settler, times: u32) -> Result<bool, AllocError> {
    let lifted = with_pawn_on(None);
    let too_far = with_pawn_on(Square::new(28));
    for _ in 0..times {
        let at_one = settler.see(&lifted, None)?;
        let at_other = settler.see(&too_far, None)?;
        if told_of(&at_one) != WAITS || told_of(&at_other) != WAITS {
            return Ok(false);
        }
    }
    Ok(true)
}

/// Whether a new settler always waits, and then holds no move.
fn waits_and_holds_none(alloc: Global) -> Result<bool, AllocError> {
    let mut settler = Settler::new(alloc, Position::initial());
    let waits = waits_always(&mut settler, 100_000)?;
    Ok(waits && settler.moves().is_empty())
}

#[test]
fn many_waits(rt: HostRuntime) {
    assert!(rt; waits_and_holds_none(rt.alloc()) == Ok(true));
}
