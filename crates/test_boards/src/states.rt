//! What is heard of a board, and what is read of it at which time, worked by hand.

use crate::coded_frames::{expect_none, first_false};
use crate::words::Word::{
    Agrees, Answers, Begins, Differs, Ends, Moves, Plugs, Reopens, Repeats, Stops, Unplugs,
};
use crate::words::{Word, mask_of, standing_at};
use board_standing::Kind::{
    self, Ended, InHand, NoStart, SettingUp, Silent, Unplugged, Waits, Wrong,
};

/// A time; what is read then, since when, and which squares are named.
type Reading<'a> = (u64, Kind, Option<u64>, &'a str);

struct Case<'a> {
    name: &'a str,
    heard: &'a [(u64, Word<'a>)],
    read: &'a [Reading<'a>],
}

/// All squares of the pieces at the start.
const PIECES: &str =
    "a8 b8 c8 d8 e8 f8 g8 h8 a7 b7 c7 d7 e7 f7 g7 h7 a2 b2 c2 d2 e2 f2 g2 h2 a1 b1 c1 d1 e1 f1 g1 h1";

static HANDS: [Case<'static>; 8] = [
    Case {
        name: "nothing yet",
        heard: &[],
        read: &[(0, Waits, None, ""), (60_000, Waits, None, "")],
    },
    Case {
        name: "set up right",
        heard: &[(1_000, Agrees)],
        read: &[
            (1_000, Kind::Agrees, Some(1_000), ""),
            (99_000, Kind::Agrees, Some(1_000), ""),
        ],
    },
    Case {
        name: "a hand, and then a move",
        heard: &[(0, Agrees), (5_000, Differs("e2")), (9_000, Moves)],
        read: &[
            (4_999, Kind::Agrees, Some(0), ""),
            (6_000, InHand, Some(5_000), "e2"),
            (8_900, InHand, Some(5_000), "e2"),
            (10_000, Kind::Agrees, Some(9_000), ""),
        ],
    },
    Case {
        name: "a hand that takes long",
        heard: &[
            (0, Agrees),
            (5_000, Differs("g1")),
            (6_000, Differs("g1 f3")),
        ],
        read: &[
            (6_500, InHand, Some(5_000), "g1 f3"),
            (14_999, InHand, Some(5_000), "g1 f3"),
            (15_000, Wrong, Some(5_000), "g1"),
            (16_000, Wrong, Some(5_000), "g1 f3"),
            (45_000, Wrong, Some(5_000), "g1 f3"),
        ],
    },
    Case {
        name: "one square stays wrong while others are played on",
        heard: &[
            (0, Agrees),
            (1_000, Differs("d1")),
            (6_000, Differs("e2 d1")),
            (8_000, Differs("e2 e4 d1")),
            (13_000, Differs("e4 d1")),
        ],
        read: &[
            (10_900, InHand, Some(1_000), "e2 e4 d1"),
            (11_000, Wrong, Some(1_000), "d1"),
            (13_500, Wrong, Some(1_000), "d1"),
            (18_000, Wrong, Some(1_000), "e4 d1"),
        ],
    },
    Case {
        name: "it is put right, and another goes wrong",
        heard: &[
            (0, Agrees),
            (1_000, Differs("d1")),
            (20_000, Agrees),
            (30_000, Differs("d1")),
        ],
        read: &[
            (19_999, Wrong, Some(1_000), "d1"),
            (21_000, Kind::Agrees, Some(20_000), ""),
            (31_000, InHand, Some(30_000), "d1"),
            (40_000, Wrong, Some(30_000), "d1"),
        ],
    },
    Case {
        name: "a correction",
        heard: &[
            (0, Agrees),
            (5_000, Moves),
            (6_000, Differs("e4")),
            (7_000, Moves),
        ],
        read: &[
            (6_500, InHand, Some(6_000), "e4"),
            (8_000, Kind::Agrees, Some(7_000), ""),
        ],
    },
    Case {
        name: "two plies are hidden, and the game goes on",
        heard: &[
            (0, Agrees),
            (5_000, Moves),
            (9_000, Differs("e4 e5")),
            (12_000, Differs("e4 e5 g1 f3")),
            (15_000, Differs("e4 e5 g1 f3 b8 c6")),
            (18_000, Differs("e4 e5 g1 f3 b8 c6 f1 b5")),
            (25_000, Differs("g1 f3 b8 c6 f1 b5 a7")),
        ],
        read: &[
            (13_000, InHand, Some(9_000), "e4 e5 g1 f3"),
            (17_900, InHand, Some(9_000), "e4 e5 g1 f3 b8 c6"),
            (20_000, SettingUp, Some(9_000), ""),
            (24_000, Wrong, Some(9_000), "e4 e5 g1 f3"),
            (60_000, Wrong, Some(9_000), "g1 f3 b8 c6 f1 b5 a7"),
        ],
    },
];

static SET_UPS: [Case<'static>; 3] = [
    Case {
        name: "the first set-up",
        heard: &[
            (0, Differs(PIECES)),
            (300_000, Differs("a1 b1 c1 d1 e1 f1 g1")),
            (305_000, Differs("d1")),
            (400_000, Agrees),
        ],
        read: &[
            (299_000, SettingUp, Some(0), ""),
            (304_000, SettingUp, Some(0), ""),
            (306_000, SettingUp, Some(0), ""),
            (315_000, Wrong, Some(305_000), "d1"),
            (400_000, Kind::Agrees, Some(400_000), ""),
        ],
    },
    Case {
        name: "pieces are knocked over in a game",
        heard: &[
            (0, Agrees),
            (5_000, Moves),
            (20_000, Differs("a1 b1 c1 d1 e1 f1 g1")),
            (27_000, Differs("a1 b1 c1 d1 e1 f1 g1 h1 h2")),
        ],
        read: &[
            (21_000, SettingUp, Some(20_000), ""),
            (34_900, SettingUp, Some(20_000), ""),
            (35_000, Wrong, Some(20_000), "a1 b1 c1 d1 e1 f1 g1"),
            (37_000, Wrong, Some(20_000), "a1 b1 c1 d1 e1 f1 g1 h1 h2"),
        ],
    },
    Case {
        name: "a start that was never shown, and moves",
        heard: &[
            (0, Differs("a1 b1 c1 d1 e1 f1 g1 h1")),
            (8_000, Differs("a1 b1 c1 d1 e1 f1 g1 h1 h2")),
            (9_000, Differs("a1 b1 c1 d1 e1 f1 g1 h1 h2 h3")),
        ],
        read: &[
            (22_900, SettingUp, Some(0), ""),
            (
                23_000,
                NoStart,
                Some(8_000),
                "a1 b1 c1 d1 e1 f1 g1 h1 h2 h3",
            ),
            (
                40_000,
                NoStart,
                Some(8_000),
                "a1 b1 c1 d1 e1 f1 g1 h1 h2 h3",
            ),
        ],
    },
];

static RESULTS: [Case<'static>; 3] = [
    Case {
        name: "a result by the kings, and the pieces are put away",
        heard: &[
            (0, Agrees),
            (5_000, Differs("e1")),
            (6_000, Ends),
            (9_000, Differs("d1")),
            (50_000, Reopens),
        ],
        read: &[
            (5_500, InHand, Some(5_000), "e1"),
            (7_000, Ended, Some(6_000), ""),
            (30_000, Ended, Some(6_000), ""),
            (50_500, Kind::Agrees, Some(50_000), ""),
        ],
    },
    Case {
        name: "a typed result, while the kings stand elsewhere",
        heard: &[
            (0, Agrees),
            (5_000, Ends),
            (6_000, Differs("a1 b1 c1 d1 e1 f1 g1")),
            (7_000, Differs("e1 e8")),
            (11_000, Agrees),
            (13_000, Reopens),
        ],
        read: &[
            (6_500, Ended, Some(5_000), ""),
            (11_000, Ended, Some(5_000), ""),
            (13_000, Kind::Agrees, Some(13_000), ""),
        ],
    },
    Case {
        name: "mate",
        heard: &[(0, Agrees), (5_000, Moves), (5_000, Ends)],
        read: &[(6_000, Ended, Some(5_000), "")],
    },
];

static LINES: [Case<'static>; 5] = [
    Case {
        name: "silent, and it answers again",
        heard: &[
            (0, Agrees),
            (9_000, Stops),
            (10_000, Stops),
            (20_000, Answers),
        ],
        read: &[
            (8_999, Kind::Agrees, Some(0), ""),
            (9_500, Silent, Some(9_000), ""),
            (19_000, Silent, Some(9_000), ""),
            (21_000, Kind::Agrees, Some(0), ""),
        ],
    },
    Case {
        name: "silent while a hand is over the board",
        heard: &[
            (0, Agrees),
            (5_000, Moves),
            (8_000, Differs("e7")),
            (9_000, Stops),
        ],
        read: &[
            (7_000, Kind::Agrees, Some(5_000), ""),
            (8_500, InHand, Some(8_000), "e7"),
            (12_000, Silent, Some(9_000), ""),
        ],
    },
    Case {
        name: "unplugged, and there again",
        heard: &[
            (0, Agrees),
            (3_000, Stops),
            (9_000, Unplugs),
            (10_000, Unplugs),
            (200_000, Plugs),
        ],
        read: &[
            (10_500, Unplugged, Some(9_000), ""),
            (190_000, Unplugged, Some(9_000), ""),
            (201_000, Kind::Agrees, Some(0), ""),
        ],
    },
    Case {
        name: "a game goes on: what was shown before doesn't count until the board shows itself",
        heard: &[
            (0, Agrees),
            (200, Differs("e2")),
            (250, Begins),
            (3_000, Repeats),
            (6_000, Moves),
        ],
        read: &[
            (300, Waits, None, ""),
            (2_000, Waits, None, ""),
            (4_000, InHand, Some(200), "e2"),
            (7_000, Kind::Agrees, Some(6_000), ""),
        ],
    },
    Case {
        name: "a game goes on, and the board doesn't answer, or is gone",
        heard: &[
            (100, Agrees),
            (200, Begins),
            (5_000, Stops),
            (9_000, Unplugs),
            (12_000, Plugs),
            (14_000, Repeats),
        ],
        read: &[
            (1_000, Waits, None, ""),
            (6_000, Silent, Some(5_000), ""),
            (11_000, Unplugged, Some(9_000), ""),
            (13_000, Waits, None, ""),
            (15_000, Kind::Agrees, Some(100), ""),
        ],
    },
];

fn is_read(heard: &[(u64, Word<'_>)], reading: &Reading<'_>) -> bool {
    let (now, kind, since, squares) = *reading;
    let state = standing_at(heard, now).state(now);
    state.kind == kind
        && state.since == since
        && state.squares == mask_of(squares)
        && state.hint.is_none()
}

/// Whether at each time that is read.
fn are_read(case: &Case<'_>) -> bool {
    for reading in case.read {
        if !is_read(case.heard, reading) {
            return false;
        }
    }
    true
}

/// The number of the first case of which something else is read.
fn first_wrong(cases: &[Case<'_>]) -> Option<usize> {
    for (i, case) in cases.iter().enumerate() {
        if !are_read(case) {
            return Some(i);
        }
    }
    None
}

/// A time, and when the state becomes another one if nothing is heard.
static DUE: [(u64, Option<u64>); 5] = [
    (4_000, None),
    (7_000, Some(15_000)),
    (15_000, Some(17_000)),
    (17_000, Some(20_000)),
    (20_000, None),
];

static LIFTED: [(u64, Word<'static>); 3] = [
    (0, Agrees),
    (5_000, Differs("g1")),
    (7_000, Differs("g1 f3")),
];

fn is_due(row: (u64, Option<u64>)) -> bool {
    let (now, due) = row;
    standing_at(&LIFTED, now).due(now) == due
}

/// A time and the one before it; whether the state is news then, and an alarm.
static NEWS: [(u64, u64, bool, bool); 5] = [
    (7_000, 8_000, false, false),
    (8_000, 15_000, true, true),
    (15_000, 16_000, false, true),
    (16_000, 17_000, true, true),
    (17_000, 90_000, false, true),
];

fn is_told(row: (u64, u64, bool, bool)) -> bool {
    let (then, now, is_news, is_alarm) = row;
    let before = standing_at(&LIFTED, then).state(then);
    let state = standing_at(&LIFTED, now).state(now);
    state.is_news(before) == is_news && state.is_alarm() == is_alarm
}

/// The number of the first row at whose time the state becomes another one at another time.
fn first_other_due() -> Option<usize> {
    for (i, row) in DUE.iter().enumerate() {
        if !is_due(*row) {
            return Some(i);
        }
    }
    None
}

/// The number of the first row that is told otherwise.
fn first_other_news() -> Option<usize> {
    for (i, row) in NEWS.iter().enumerate() {
        if !is_told(*row) {
            return Some(i);
        }
    }
    None
}

#[test]
fn states_are_as_an_arbiter_reads_them(rt: HostRuntime) {
    let holds = [
        first_wrong(&HANDS).is_none(),
        first_wrong(&SET_UPS).is_none(),
        first_wrong(&RESULTS).is_none(),
        first_wrong(&LINES).is_none(),
        first_other_due().is_none(),
        // what only lasts is no news
        first_other_news().is_none(),
    ];
    expect_none(&rt, first_false(&holds));
}
