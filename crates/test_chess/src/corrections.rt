//! Moves that are corrected.

use crate::games::{Game, play_all};
use crate::starts::with_rooks;
use crate::told::{Told, WAITS};
use crate::ways::{A1_A4, A1_A8, D2_D3, D2_D4, E2_E3, E2_E4, E7_E5};
use chess_rules::{Position, Status};
use settle_core::Outcome;

/// From the initial position.
static OPEN_GAMES: [Game<'static>; 3] = [
    Game {
        updates: &[(52, 0), (36, 1), (36, 0), (44, 1)],
        answers: Some(&[WAITS, Told::Moved(E2_E4), WAITS, Told::Replaced(E2_E3)]),
        moves: &[E2_E3],
        sign: None,
        status: Status::Running,
    },
    // After a reply it stays.
    Game {
        updates: &[(52, 0), (36, 1), (12, 0), (28, 7), (36, 0), (44, 1)],
        answers: Some(&[
            WAITS,
            Told::Moved(E2_E4),
            WAITS,
            Told::Moved(E7_E5),
            WAITS,
            WAITS,
        ]),
        moves: &[E2_E4, E7_E5],
        sign: None,
        status: Status::Running,
    },
    // A sign goes with the move after which it was given.
    Game {
        updates: &[
            (51, 0),
            (43, 1),
            (60, 0),
            (4, 0),
            (36, 5),
            (27, 11),
            (36, 0),
            (27, 0),
            (60, 5),
            (4, 11),
            (43, 0),
            (35, 1),
        ],
        answers: Some(&[
            WAITS,
            Told::Moved(D2_D3),
            WAITS,
            WAITS,
            WAITS,
            Told::Sign(Outcome::WhiteWins),
            WAITS,
            WAITS,
            WAITS,
            WAITS,
            WAITS,
            Told::Replaced(D2_D4),
        ]),
        moves: &[D2_D4],
        sign: None,
        status: Status::Running,
    },
];

/// A square tried first, and then a capture.
static TRIED_GAMES: [Game<'static>; 1] = [Game {
    updates: &[(56, 0), (32, 2), (32, 0), (0, 2)],
    answers: Some(&[WAITS, Told::Moved(A1_A4), WAITS, Told::Replaced(A1_A8)]),
    moves: &[A1_A8],
    sign: None,
    status: Status::Running,
}];

#[test]
fn the_last_move_stays_open(rt: HostRuntime) {
    play_all(&rt, rt.alloc(), Some(Position::initial()), &OPEN_GAMES);
    play_all(&rt, rt.alloc(), with_rooks(), &TRIED_GAMES);
}
