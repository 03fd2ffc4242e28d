//! Moves that are made while the clock is stopped, worked by hand.

use crate::coded_frames::{expect_none, first_false};
use board_doubts::{Event, Gap, Heard, StoppedClock, Tried, runs};

/// What is heard: seven bytes of the clock, that the board was gone, that somebody has looked, or a ply.
#[derive(Clone, Copy)]
enum Step {
    Time([u8; 7]),
    Gone,
    Looked,
    Typed,
    Moves,
    Corrects,
}

use Step::{Corrects, Gone, Looked, Moves, Time, Typed};

struct Case<'a> {
    name: &'a str,
    steps: &'a [(u64, Step)],
    /// How many moves were made while the clock was stopped, and how many plies ago the last one before them.
    tried: &'a [(u64, u64)],
}

const RUNS: Step = Time([0x01, 0x30, 0x00, 0x01, 0x29, 0x59, 0x01]);

const STOPS: Step = Time([0x01, 0x30, 0x00, 0x01, 0x29, 0x59, 0x00]);

/// The seven bytes of a time message, and whether the clock runs.
static MESSAGES: [([u8; 7], Option<bool>); 9] = [
    ([0x01, 0x30, 0x00, 0x01, 0x29, 0x59, 0x01], Some(true)),
    ([0x01, 0x30, 0x00, 0x01, 0x29, 0x59, 0x00], Some(false)),
    ([0x01, 0x30, 0x00, 0x01, 0x29, 0x59, 0x09], Some(true)),
    ([0x01, 0x30, 0x00, 0x01, 0x29, 0x59, 0x08], Some(false)),
    ([0x00, 0x00, 0x00, 0x00, 0x00, 0x00, 0x20], None),
    ([0x01, 0x30, 0x00, 0x01, 0x29, 0x59, 0x21], None),
    ([0x0a, 0x00, 0x00, 0x00, 0x00, 0x00, 0x01], None),
    ([0x01, 0x30, 0x00, 0x7a, 0x00, 0x00, 0x01], None),
    ([0x11, 0x30, 0x00, 0x21, 0x00, 0x00, 0x01], Some(true)),
];

static CASES: [Case<'static>; 26] = [
    Case {
        name: "no clock",
        steps: &[
            (1_000, Time([0x00, 0x00, 0x00, 0x00, 0x00, 0x00, 0x20])),
            (9_000, Moves),
            (19_000, Moves),
        ],
        tried: &[],
    },
    Case {
        name: "a clock that is never started",
        steps: &[(1_000, STOPS), (9_000, Moves), (19_000, Moves)],
        tried: &[],
    },
    Case {
        name: "it runs",
        steps: &[
            (1_000, RUNS),
            (9_000, Moves),
            (20_000, Moves),
            (30_000, Moves),
        ],
        tried: &[],
    },
    Case {
        name: "the last move is seen 2.9 s after it was stopped",
        steps: &[
            (1_000, RUNS),
            (9_000, Moves),
            (20_000, Moves),
            (40_000, STOPS),
            (42_900, Moves),
        ],
        tried: &[],
    },
    Case {
        name: "a move later",
        steps: &[
            (1_000, RUNS),
            (9_000, Moves),
            (20_000, Moves),
            (40_000, STOPS),
            (43_000, Moves),
        ],
        tried: &[(1, 1)],
    },
    Case {
        name: "four moves",
        steps: &[
            (1_000, RUNS),
            (9_000, Moves),
            (20_000, Moves),
            (40_000, STOPS),
            (45_000, Moves),
            (50_000, Moves),
            (55_000, Moves),
            (60_000, Moves),
        ],
        tried: &[(1, 1), (2, 2), (3, 3), (4, 4)],
    },
    Case {
        name: "the first one is tried at once: the last move before the stop is named, and all since it are counted",
        steps: &[
            (1_000, RUNS),
            (9_000, Moves),
            (20_000, Moves),
            (40_000, STOPS),
            (41_000, Moves),
            (42_000, Corrects),
            (43_000, Moves),
            (44_000, Moves),
        ],
        tried: &[(2, 2), (3, 3)],
    },
    Case {
        name: "two are tried at once: only one may be seen late",
        steps: &[
            (1_000, RUNS),
            (9_000, Moves),
            (20_000, Moves),
            (40_000, STOPS),
            (40_500, Moves),
            (42_000, STOPS),
            (42_500, Moves),
            (50_000, Moves),
        ],
        tried: &[(2, 2), (3, 3)],
    },
    Case {
        name: "a move that is seen late, and then it goes on",
        steps: &[
            (1_000, RUNS),
            (9_000, Moves),
            (20_000, Moves),
            (40_000, STOPS),
            (41_000, Moves),
            (50_000, RUNS),
            (60_000, STOPS),
            (70_000, Moves),
        ],
        tried: &[(1, 1)],
    },
    Case {
        name: "a move is seen late after each of two stops",
        steps: &[
            (1_000, RUNS),
            (9_000, Moves),
            (40_000, STOPS),
            (41_000, Moves),
            (50_000, RUNS),
            (60_000, STOPS),
            (62_000, Moves),
        ],
        tried: &[],
    },
    Case {
        name: "the last move is put right after the stop",
        steps: &[
            (1_000, RUNS),
            (9_000, Moves),
            (20_000, Moves),
            (40_000, STOPS),
            (41_000, Corrects),
            (50_000, Moves),
        ],
        tried: &[(1, 1)],
    },
    Case {
        name: "moves that were typed are none that were tried",
        steps: &[
            (1_000, RUNS),
            (9_000, Moves),
            (20_000, Typed),
            (40_000, STOPS),
            (45_000, Typed),
            (46_000, Typed),
            (50_000, Moves),
        ],
        tried: &[(1, 1)],
    },
    Case {
        name: "it goes on",
        steps: &[
            (1_000, RUNS),
            (9_000, Moves),
            (20_000, Moves),
            (40_000, STOPS),
            (45_000, RUNS),
            (50_000, Moves),
        ],
        tried: &[],
    },
    Case {
        name: "a move, and then it goes on",
        steps: &[
            (1_000, RUNS),
            (9_000, Moves),
            (20_000, Moves),
            (40_000, STOPS),
            (45_000, Moves),
            (60_000, RUNS),
            (70_000, Moves),
        ],
        tried: &[(1, 1)],
    },
    Case {
        name: "the last move is put right",
        steps: &[
            (1_000, RUNS),
            (9_000, Moves),
            (20_000, Moves),
            (40_000, STOPS),
            (50_000, Corrects),
        ],
        tried: &[],
    },
    Case {
        name: "a move that is counted is put right",
        steps: &[
            (1_000, RUNS),
            (9_000, Moves),
            (20_000, Moves),
            (40_000, STOPS),
            (45_000, Moves),
            (50_000, Corrects),
        ],
        tried: &[(1, 1)],
    },
    Case {
        name: "it goes on, and stands again later",
        steps: &[
            (1_000, RUNS),
            (9_000, Moves),
            (20_000, Moves),
            (40_000, STOPS),
            (45_000, Moves),
            (60_000, RUNS),
            (70_000, Moves),
            (80_000, STOPS),
            (90_000, Moves),
        ],
        tried: &[(1, 1), (1, 1)],
    },
    Case {
        name: "acknowledged: later moves are counted anew",
        steps: &[
            (1_000, RUNS),
            (9_000, Moves),
            (20_000, Moves),
            (40_000, STOPS),
            (45_000, Moves),
            (50_000, Looked),
            (60_000, Moves),
        ],
        tried: &[(1, 1), (1, 1)],
    },
    Case {
        name: "an acknowledgement says nothing",
        steps: &[
            (1_000, RUNS),
            (9_000, Moves),
            (20_000, Moves),
            (40_000, Time([0x0a, 0x00, 0x00, 0x00, 0x00, 0x00, 0x00])),
            (50_000, Moves),
        ],
        tried: &[],
    },
    Case {
        name: "the board was gone",
        steps: &[
            (1_000, RUNS),
            (9_000, Moves),
            (20_000, Moves),
            (40_000, STOPS),
            (60_000, Gone),
            (70_000, Moves),
        ],
        tried: &[],
    },
    Case {
        name: "it stands, and says so again",
        steps: &[
            (1_000, RUNS),
            (9_000, Moves),
            (20_000, Moves),
            (40_000, STOPS),
            (44_000, STOPS),
            (45_000, Moves),
        ],
        tried: &[(1, 1)],
    },
    Case {
        name: "the clock was stopped at 2 s and runs again at 9 s, and both moves were made while it stood",
        steps: &[
            (1_000, RUNS),
            (2_000, STOPS),
            (3_000, STOPS),
            (6_000, Moves),
            (8_000, Moves),
            (9_000, RUNS),
        ],
        tried: &[(1, 1), (2, 2)],
    },
    Case {
        name: "one was",
        steps: &[
            (1_000, RUNS),
            (1_500, Moves),
            (2_000, STOPS),
            (3_000, STOPS),
            (8_000, Moves),
            (9_000, RUNS),
        ],
        tried: &[(1, 1)],
    },
    Case {
        name: "none was",
        steps: &[
            (1_000, RUNS),
            (1_500, Moves),
            (2_000, STOPS),
            (3_000, STOPS),
            (9_000, RUNS),
            (12_000, Moves),
        ],
        tried: &[],
    },
    Case {
        name: "the board was gone before the first move was reported",
        steps: &[
            (1_000, RUNS),
            (2_000, STOPS),
            (20_000, Gone),
            (21_000, Moves),
            (30_000, Moves),
        ],
        tried: &[],
    },
    Case {
        name: "it stands as before when it is heard again",
        steps: &[
            (1_000, RUNS),
            (9_000, Moves),
            (10_000, STOPS),
            (20_000, Gone),
            (20_500, STOPS),
            (21_000, Moves),
        ],
        tried: &[(1, 1)],
    },
];

/// What is heard of a step, if anything.
fn heard(step: Step) -> Option<Heard> {
    match step {
        Time(data) => {
            let runs = runs(&data)?;
            Some(Heard::Clock { runs })
        }
        Gone => Some(Heard::Away(Gap {
            lasted: 0,
            is_restart: false,
        })),
        Looked => Some(Heard::Looked),
        Typed | Moves => Some(Heard::Moves { repeats: false }),
        Corrects => Some(Heard::Corrects { repeats: false }),
    }
}

fn tried(clock: &mut StoppedClock, at: u64, step: Step) -> Option<Tried> {
    let what = heard(step)?;
    let is_added = match step {
        Typed => true,
        _ => false,
    };
    clock.take(Event { at, is_added, what })
}

/// Whether just these moves were made.
fn is_right(case: &Case<'_>) -> bool {
    let mut clock = StoppedClock::new();
    let mut found = 0usize;
    for (at, step) in case.steps {
        if let Some(tried) = tried(&mut clock, *at, *step) {
            if case.tried.get(found).copied() != Some((tried.moves, tried.plies)) {
                return false;
            }
            found = found.saturating_add(1);
        }
    }
    found == case.tried.len()
}

fn are_right() -> bool {
    for case in &CASES {
        if !is_right(case) {
            return false;
        }
    }
    true
}

fn are_read() -> bool {
    for (data, expected) in &MESSAGES {
        if runs(data) != *expected {
            return false;
        }
    }
    true
}

#[test]
fn moves_are_counted(rt: HostRuntime) {
    expect_none(&rt, first_false(&[are_right(), are_read()]));
}
