//! Pairs of which the first ply takes the place of the last one.

use crate::answers::{Answer, Shown, WAITS};
use crate::shown_games::{Game, play_all};
use chess_rules::Position;

static GAMES: [Game<'static>; 2] = [
    // 1. e4, and then e3 in its place, while the pawn of e7 is lifted; 1... e5 2. Nf3.
    Game {
        updates: &[
            (52, 0),
            (36, 1),
            (36, 0),
            (12, 0),
            (44, 1),
            (28, 7),
            (62, 0),
            (45, 3),
        ],
        answers: &[
            WAITS,
            Answer::Shown(Shown::Moved((52, 36))),
            WAITS,
            WAITS,
            WAITS,
            WAITS,
            WAITS,
            Answer::Recovered(true, (52, 44), (12, 28), Shown::Moved((62, 45))),
        ],
        moves: &[(52, 44), (12, 28), (62, 45)],
        sign: None,
    },
    // After 1. e4 the board shows e5 2. Nf3, and then goes back: what waited is forgotten, and Nc6 confirms nothing.
    Game {
        updates: &[
            (52, 0),
            (36, 1),
            (12, 0),
            (62, 0),
            (28, 7),
            (45, 3),
            (28, 0),
            (12, 7),
            (45, 0),
            (62, 3),
            (12, 0),
            (62, 0),
            (1, 0),
            (28, 7),
            (18, 9),
            (45, 3),
        ],
        answers: &[
            WAITS,
            Answer::Shown(Shown::Moved((52, 36))),
            WAITS,
            WAITS,
            WAITS,
            WAITS,
            WAITS,
            WAITS,
            WAITS,
            WAITS,
            WAITS,
            WAITS,
            WAITS,
            WAITS,
            WAITS,
            WAITS,
        ],
        moves: &[(52, 36)],
        sign: None,
    },
];

#[test]
fn the_last_move_is_corrected_with_its_reply(rt: HostRuntime) {
    play_all(&rt, rt.alloc(), Some(Position::initial()), &GAMES);
}
