//! Pairs of plies that no picture shows ply by ply.

use crate::answers::{Answer, Shown, WAITS};
use crate::pair_starts::{before_capture, before_castling, before_promotion};
use crate::shown_games::{Game, play_all};
use chess_rules::Position;
use settle_core::Outcome;

static OPEN_GAMES: [Game<'static>; 3] = [
    // 1. e4 e5, the pawn of e7 lifted before that of e2 is set down; then Nf3.
    Game {
        updates: &[(52, 0), (12, 0), (36, 1), (28, 7), (62, 0), (45, 3)],
        answers: &[
            WAITS,
            WAITS,
            WAITS,
            WAITS,
            WAITS,
            Answer::Recovered(false, (52, 36), (12, 28), Shown::Moved((62, 45))),
        ],
        moves: &[(52, 36), (12, 28), (62, 45)],
        sign: None,
    },
    // Nothing comes after the two plies.
    Game {
        updates: &[(52, 0), (12, 0), (36, 1), (28, 7)],
        answers: &[WAITS, WAITS, WAITS, WAITS],
        moves: &[],
        sign: None,
    },
    // 1. a3 h6, and the kings in the centre.
    Game {
        updates: &[
            (48, 0),
            (15, 0),
            (40, 1),
            (23, 7),
            (60, 0),
            (4, 0),
            (36, 5),
            (27, 11),
        ],
        answers: &[
            WAITS,
            WAITS,
            WAITS,
            WAITS,
            WAITS,
            WAITS,
            WAITS,
            Answer::Recovered(false, (48, 40), (15, 23), Shown::Sign(Outcome::WhiteWins)),
        ],
        moves: &[(48, 40), (15, 23)],
        sign: Some(Outcome::WhiteWins),
    },
];

/// 1. O-O a6, the rook last; then Re1.
static CASTLING_GAMES: [Game<'static>; 1] = [Game {
    updates: &[
        (60, 0),
        (62, 5),
        (8, 0),
        (16, 7),
        (63, 0),
        (61, 2),
        (61, 0),
        (60, 2),
    ],
    answers: &[
        WAITS,
        WAITS,
        WAITS,
        WAITS,
        WAITS,
        WAITS,
        WAITS,
        Answer::Recovered(false, (60, 62), (8, 16), Shown::Moved((61, 60))),
    ],
    moves: &[(60, 62), (8, 16), (61, 60)],
    sign: None,
}];

/// 1... Nxe4 with both pieces lifted is the board after 1... Nxd5 2. exd5 too, which was not played.
static CAPTURE_GAMES: [Game<'static>; 1] = [Game {
    updates: &[(36, 0), (21, 0), (36, 9), (60, 0), (59, 5)],
    answers: &[
        WAITS,
        WAITS,
        Answer::Shown(Shown::Moved((21, 36))),
        WAITS,
        Answer::Shown(Shown::Moved((60, 59))),
    ],
    moves: &[(21, 36), (60, 59)],
    sign: None,
}];

/// 1. e8 and Rxe8, whatever the pawn became: four pairs.
static PROMOTION_GAMES: [Game<'static>; 1] = [Game {
    updates: &[(12, 0), (0, 0), (4, 8), (62, 0), (63, 5)],
    answers: &[WAITS, WAITS, WAITS, WAITS, WAITS],
    moves: &[],
    sign: None,
}];

#[test]
fn pairs_are_recovered_with_the_next_move_or_the_kings(rt: HostRuntime) {
    play_all(&rt, rt.alloc(), Some(Position::initial()), &OPEN_GAMES);
    play_all(&rt, rt.alloc(), before_castling(), &CASTLING_GAMES);
}

#[test]
fn an_exchange_that_was_not_played_is_not_recovered(rt: HostRuntime) {
    play_all(&rt, rt.alloc(), before_capture(), &CAPTURE_GAMES);
}

#[test]
fn four_pairs_are_none(rt: HostRuntime) {
    play_all(&rt, rt.alloc(), before_promotion(), &PROMOTION_GAMES);
}
