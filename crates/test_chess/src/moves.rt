//! Steps, captures, promotions, castling and en passant, in each order of their updates.

use crate::games::{Game, goes, play_all};
use crate::known_positions::expect_none;
use crate::starts::{
    KING_FIRST, before_capture, before_castling, before_en_passant, before_promotion,
};
use crate::told::{Told, WAITS, Way};
use crate::ways::{E1_G1, E2_E4, E4_D5, E5_D6, E7_E8_KNIGHT, E7_E8_QUEEN, H1_F1};
use chess_rules::{Position, Status};
use std::alloc::Global;

/// From the initial position.
static STEP_GAMES: [Game<'static>; 4] = [
    Game {
        updates: &[(52, 0), (36, 1)],
        answers: Some(&[WAITS, Told::Moved(E2_E4)]),
        moves: &[E2_E4],
        sign: None,
        status: Status::Running,
    },
    Game {
        updates: &[(36, 1), (52, 0)],
        answers: Some(&[WAITS, Told::Moved(E2_E4)]),
        moves: &[E2_E4],
        sign: None,
        status: Status::Running,
    },
    // The pawn is put back, which a dump shows again.
    Game {
        updates: &[(52, 0), (52, 1), (52, 1), (52, 0), (36, 1)],
        answers: Some(&[WAITS, WAITS, Told::Same, WAITS, Told::Moved(E2_E4)]),
        moves: &[E2_E4],
        sign: None,
        status: Status::Running,
    },
    // A code that stands for no piece.
    Game {
        updates: &[(52, 0), (36, 1), (36, 1), (36, 13), (36, 1)],
        answers: Some(&[WAITS, Told::Moved(E2_E4), Told::Same, WAITS, WAITS]),
        moves: &[E2_E4],
        sign: None,
        status: Status::Running,
    },
];

/// The captured pawn is lifted first.
static CAPTURE_GAMES: [Game<'static>; 1] = [Game {
    updates: &[(27, 0), (36, 0), (27, 1)],
    answers: Some(&[WAITS, WAITS, Told::Moved(E4_D5)]),
    moves: &[E4_D5],
    sign: None,
    status: Status::Running,
}];

#[test]
fn steps_and_repeats(rt: HostRuntime) {
    play_all(&rt, rt.alloc(), Some(Position::initial()), &STEP_GAMES);
    play_all(&rt, rt.alloc(), before_capture(), &CAPTURE_GAMES);
}

static PROMOTION_GAMES: [Game<'static>; 2] = [
    // A pawn on its last square is no queen yet.
    Game {
        updates: &[(12, 0), (4, 1), (4, 3)],
        answers: Some(&[WAITS, WAITS, Told::Moved(E7_E8_KNIGHT)]),
        moves: &[E7_E8_KNIGHT],
        sign: None,
        status: Status::Running,
    },
    Game {
        updates: &[(12, 0), (4, 3), (4, 6)],
        answers: Some(&[
            WAITS,
            Told::Moved(E7_E8_KNIGHT),
            Told::Replaced(E7_E8_QUEEN),
        ]),
        moves: &[E7_E8_QUEEN],
        sign: None,
        status: Status::Running,
    },
];

#[test]
fn promotions(rt: HostRuntime) {
    play_all(&rt, rt.alloc(), before_promotion(), &PROMOTION_GAMES);
}

/// Brings the updates into one of their orders: each number below the factorial of their count names another one.
fn reorder(updates: &mut [(u8, u8)], order: usize) {
    let mut order = order;
    for i in 0..updates.len() {
        let left = updates.len() - i;
        updates.swap(i, i + order % left);
        order /= left;
    }
}

static CASTLING_GAMES: [Game<'static>; 2] = [
    Game {
        updates: &KING_FIRST,
        answers: Some(&[WAITS, WAITS, WAITS, Told::Moved(E1_G1)]),
        moves: &[E1_G1],
        sign: None,
        status: Status::Running,
    },
    Game {
        updates: &[(63, 0), (61, 2), (60, 0), (62, 5)],
        answers: Some(&[WAITS, Told::Moved(H1_F1), WAITS, Told::Replaced(E1_G1)]),
        moves: &[E1_G1],
        sign: None,
        status: Status::Running,
    },
];

/// Whether the updates, in the order with this number, are this move.
fn is_made(
    alloc: Global,
    start: Position,
    updates: &mut [(u8, u8)],
    order: usize,
    answers: Option<&[Told]>,
    way: Way,
) -> bool {
    reorder(updates, order);
    let game = Game {
        updates: &*updates,
        answers,
        moves: &[way],
        sign: None,
        status: Status::Running,
    };
    goes(alloc, start, &game) == Ok(true)
}

/// The number of the first order of king and rook that doesn't end with castling.
fn first_order_without_castling(alloc: Global) -> Option<usize> {
    let Some(start) = before_castling() else {
        return Some(0);
    };
    for order in 0..24usize {
        let mut updates = KING_FIRST;
        if !is_made(alloc, start, &mut updates, order, None, E1_G1) {
            return Some(order);
        }
    }
    None
}

/// The number of the first order of an en passant capture that goes otherwise.
fn first_order_without_capture(alloc: Global) -> Option<usize> {
    let Some(start) = before_en_passant() else {
        return Some(0);
    };
    let answers = [WAITS, WAITS, Told::Moved(E5_D6)];
    for order in 0..6usize {
        let mut updates = [(28, 0), (19, 1), (27, 0)];
        if !is_made(alloc, start, &mut updates, order, Some(&answers), E5_D6) {
            return Some(order);
        }
    }
    None
}

#[test]
fn castling_and_en_passant_in_each_order(rt: HostRuntime) {
    play_all(&rt, rt.alloc(), before_castling(), &CASTLING_GAMES);
    expect_none(&rt, first_order_without_castling(rt.alloc()));
    expect_none(&rt, first_order_without_capture(rt.alloc()));
}
