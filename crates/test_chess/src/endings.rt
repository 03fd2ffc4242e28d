//! Signs of a result, and mates.

use crate::games::{Game, play_all};
use crate::told::{Told, WAITS};
use crate::ways::{D8_G5, D8_H4, E2_E4, E7_E5, F2_F3, G2_G4};
use chess_rules::{Position, Status};
use settle_core::Outcome;

static SIGN_GAMES: [Game<'static>; 4] = [
    Game {
        updates: &[(60, 0), (4, 0), (36, 5), (27, 11)],
        answers: Some(&[WAITS, WAITS, WAITS, Told::Sign(Outcome::WhiteWins)]),
        moves: &[],
        sign: Some(Outcome::WhiteWins),
        status: Status::Running,
    },
    // The kings go back, and the game goes on.
    Game {
        updates: &[
            (60, 0),
            (4, 0),
            (36, 5),
            (27, 11),
            (36, 0),
            (27, 0),
            (60, 5),
            (4, 11),
            (52, 0),
            (36, 1),
        ],
        answers: Some(&[
            WAITS,
            WAITS,
            WAITS,
            Told::Sign(Outcome::WhiteWins),
            WAITS,
            WAITS,
            WAITS,
            WAITS,
            WAITS,
            Told::Moved(E2_E4),
        ]),
        moves: &[E2_E4],
        sign: None,
        status: Status::Running,
    },
    // On dark squares; then on one of each colour, also beside a code of no piece.
    Game {
        updates: &[
            (60, 0),
            (4, 0),
            (35, 5),
            (28, 11),
            (28, 0),
            (36, 11),
            (27, 13),
        ],
        answers: Some(&[
            WAITS,
            WAITS,
            WAITS,
            Told::Sign(Outcome::BlackWins),
            WAITS,
            Told::Sign(Outcome::Drawn),
            Told::Sign(Outcome::Drawn),
        ]),
        moves: &[],
        sign: Some(Outcome::Drawn),
        status: Status::Running,
    },
    // Three kings in the centre are no sign.
    Game {
        updates: &[(60, 0), (4, 0), (36, 5), (35, 5), (27, 11)],
        answers: Some(&[WAITS, WAITS, WAITS, WAITS, WAITS]),
        moves: &[],
        sign: None,
        status: Status::Running,
    },
];

#[test]
fn signs(rt: HostRuntime) {
    play_all(&rt, rt.alloc(), Some(Position::initial()), &SIGN_GAMES);
}

static MATE_GAMES: [Game<'static>; 3] = [
    Game {
        updates: &[
            (53, 0),
            (45, 1),
            (12, 0),
            (28, 7),
            (54, 0),
            (38, 1),
            (3, 0),
            (39, 12),
        ],
        answers: None,
        moves: &[F2_F3, E7_E5, G2_G4, D8_H4],
        sign: None,
        status: Status::Checkmate,
    },
    // The kings say another result.
    Game {
        updates: &[
            (53, 0),
            (45, 1),
            (12, 0),
            (28, 7),
            (54, 0),
            (38, 1),
            (3, 0),
            (39, 12),
            (60, 0),
            (4, 0),
            (36, 5),
            (27, 11),
        ],
        answers: None,
        moves: &[F2_F3, E7_E5, G2_G4, D8_H4],
        sign: Some(Outcome::WhiteWins),
        status: Status::Checkmate,
    },
    // The queen stops earlier, and it is no mate.
    Game {
        updates: &[
            (53, 0),
            (45, 1),
            (12, 0),
            (28, 7),
            (54, 0),
            (38, 1),
            (3, 0),
            (39, 12),
            (39, 0),
            (30, 12),
        ],
        answers: Some(&[
            WAITS,
            Told::Moved(F2_F3),
            WAITS,
            Told::Moved(E7_E5),
            WAITS,
            Told::Moved(G2_G4),
            WAITS,
            Told::Moved(D8_H4),
            WAITS,
            Told::Replaced(D8_G5),
        ]),
        moves: &[F2_F3, E7_E5, G2_G4, D8_G5],
        sign: None,
        status: Status::Running,
    },
];

#[test]
fn a_mate_takes_a_sign_and_can_be_replaced(rt: HostRuntime) {
    play_all(&rt, rt.alloc(), Some(Position::initial()), &MATE_GAMES);
}
