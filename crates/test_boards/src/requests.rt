//! What a board is sent when, if the recorder wakes whenever something may be due. A recorder wakes here each 50 ms.

use crate::coded_frames::expect_none;
use board_cable::Happening::{Begins, Comes, Dumps, Faults, Numbers, Opens, Owns, Updates};
use board_cable::{Asking, Event, Happening};

const EMPTY: [u8; 64] = [0; 64];

const PAWN: [u8; 64] = [1; 64];

const NUMBER: [u8; 5] = *b"01234";

/// What comes at which times, until when, and what is sent at which times. The line is opened at 0. Times are milliseconds;
/// `E`, `B` and `K` are the bytes 45, 42 and 4B.
struct Row<'a> {
    name: &'a str,
    comes: &'a [(u64, Happening)],
    until: u64,
    sent: &'a [(u64, &'a str)],
}

static ROWS: [Row<'static>; 25] = [
    Row {
        name: "at the connection",
        comes: &[],
        until: 500,
        sent: &[(0, "EBK")],
    },
    Row {
        name: "a dump each second, and no more",
        comes: &[(100, Dumps(EMPTY)), (1100, Dumps(EMPTY))],
        until: 1900,
        sent: &[(0, "EBK"), (1000, "B")],
    },
    Row {
        name: "the second from the request on",
        comes: &[(100, Dumps(EMPTY)), (1300, Dumps(EMPTY))],
        until: 2000,
        sent: &[(0, "EBK"), (1000, "B"), (2000, "B")],
    },
    Row {
        name: "with a clock that runs",
        comes: &[(100, Dumps(EMPTY)), (500, Comes(false))],
        until: 1000,
        sent: &[(0, "EBK"), (1000, "B")],
    },
    Row {
        name: "a time is no update",
        comes: &[(100, Dumps(EMPTY)), (900, Comes(false))],
        until: 1100,
        sent: &[(0, "EBK"), (1000, "B")],
    },
    Row {
        name: "an update 0.5 s before: in quiet",
        comes: &[(100, Dumps(EMPTY)), (400, Updates), (500, Updates)],
        until: 1000,
        sent: &[(0, "EBK"), (1000, "B")],
    },
    Row {
        name: "0.5 s after the last update",
        comes: &[(100, Dumps(EMPTY)), (500, Updates), (900, Updates)],
        until: 1400,
        sent: &[(0, "EBK"), (1400, "B")],
    },
    Row {
        name: "and after one that comes then",
        comes: &[(100, Dumps(EMPTY)), (900, Updates), (1300, Updates)],
        until: 1800,
        sent: &[(0, "EBK"), (1800, "B")],
    },
    Row {
        name: "updates without an end",
        comes: &[
            (100, Dumps(EMPTY)),
            (400, Updates),
            (800, Updates),
            (1200, Updates),
            (1600, Updates),
            (2000, Updates),
            (2400, Updates),
            (2800, Updates),
            (3200, Updates),
            (3600, Updates),
            (4000, Updates),
            (4400, Updates),
        ],
        until: 4400,
        sent: &[(0, "EBK"), (4000, "B")],
    },
    Row {
        name: "a fault asks at once",
        comes: &[(100, Dumps(EMPTY)), (900, Updates), (950, Faults)],
        until: 1100,
        sent: &[(0, "EBK"), (950, "B")],
    },
    Row {
        name: "a lost request waits for quiet too",
        comes: &[(100, Dumps(EMPTY)), (1800, Updates)],
        until: 2400,
        sent: &[(0, "EBK"), (1000, "B"), (2300, "EBK")],
    },
    Row {
        name: "a dump that nobody asked for",
        comes: &[(100, Dumps(EMPTY)), (900, Dumps(EMPTY))],
        until: 1900,
        sent: &[(0, "EBK"), (1900, "B")],
    },
    Row {
        name: "a fault, 0.2 s after the last request",
        comes: &[(100, Dumps(EMPTY)), (150, Faults)],
        until: 300,
        sent: &[(0, "EBK"), (200, "B")],
    },
    Row {
        name: "a fault later: at once",
        comes: &[(100, Dumps(EMPTY)), (300, Faults)],
        until: 400,
        sent: &[(0, "EBK"), (300, "B")],
    },
    Row {
        name: "a cut frame",
        comes: &[(100, Dumps(EMPTY)), (600, Faults), (600, Updates)],
        until: 700,
        sent: &[(0, "EBK"), (600, "B")],
    },
    Row {
        name: "a fault that a dump has healed",
        comes: &[(100, Dumps(EMPTY)), (150, Faults), (150, Dumps(EMPTY))],
        until: 1000,
        sent: &[(0, "EBK")],
    },
    Row {
        name: "unfinished for 0.2 s",
        comes: &[(100, Dumps(EMPTY)), (600, Comes(true))],
        until: 900,
        sent: &[(0, "EBK"), (800, "B")],
    },
    Row {
        name: "finished in time",
        comes: &[
            (100, Dumps(EMPTY)),
            (600, Comes(true)),
            (750, Comes(false)),
            (750, Updates),
        ],
        until: 950,
        sent: &[(0, "EBK")],
    },
    Row {
        name: "0.2 s from its last byte on",
        comes: &[(100, Dumps(EMPTY)), (600, Comes(true)), (700, Comes(true))],
        until: 900,
        sent: &[(0, "EBK"), (900, "B")],
    },
    Row {
        name: "a lost request",
        comes: &[],
        until: 1000,
        sent: &[(0, "EBK"), (1000, "EBK")],
    },
    Row {
        name: "a lost request, the answer late",
        comes: &[(1500, Dumps(EMPTY))],
        until: 2000,
        sent: &[(0, "EBK"), (1000, "EBK"), (2000, "B")],
    },
    Row {
        name: "one open at a time",
        comes: &[(100, Faults), (600, Faults), (600, Comes(true))],
        until: 900,
        sent: &[(0, "EBK")],
    },
    Row {
        name: "off for a moment: a lost request, then updates too",
        comes: &[(100, Dumps(EMPTY))],
        until: 2000,
        sent: &[(0, "EBK"), (1000, "B"), (2000, "EBK")],
    },
    Row {
        name: "it shows something new, and no update came",
        comes: &[(100, Dumps(EMPTY)), (1200, Dumps(PAWN))],
        until: 2000,
        sent: &[(0, "EBK"), (1000, "B"), (2000, "EBK")],
    },
    Row {
        name: "something new after an update",
        comes: &[(100, Dumps(EMPTY)), (500, Updates), (1200, Dumps(PAWN))],
        until: 2000,
        sent: &[(0, "EBK"), (1000, "B"), (2000, "B")],
    },
];

/// The same for a game whose board has a number.
static NUMBERED: [Row<'static>; 5] = [
    Row {
        name: "given at once",
        comes: &[(50, Numbers(NUMBER)), (100, Dumps(EMPTY))],
        until: 1500,
        sent: &[(0, "EBK"), (1000, "B")],
    },
    Row {
        name: "behind the dump",
        comes: &[(100, Dumps(EMPTY)), (100, Numbers(NUMBER))],
        until: 1500,
        sent: &[(0, "EBK"), (1000, "B")],
    },
    Row {
        name: "asked for twice more",
        comes: &[
            (100, Dumps(EMPTY)),
            (1100, Dumps(EMPTY)),
            (2100, Dumps(EMPTY)),
            (3100, Dumps(EMPTY)),
        ],
        until: 3500,
        sent: &[(0, "EBK"), (1000, "EB"), (2000, "EB"), (3000, "B")],
    },
    Row {
        name: "late",
        comes: &[
            (100, Dumps(EMPTY)),
            (1200, Dumps(EMPTY)),
            (1200, Numbers(NUMBER)),
        ],
        until: 2500,
        sent: &[(0, "EBK"), (1000, "EB"), (2000, "B")],
    },
    Row {
        name: "with each new request for updates",
        comes: &[
            (100, Numbers(NUMBER)),
            (100, Dumps(EMPTY)),
            (1200, Dumps(PAWN)),
            (2100, Dumps(PAWN)),
        ],
        until: 3000,
        sent: &[(0, "EBK"), (1000, "B"), (2000, "EBK"), (3000, "EB")],
    },
];

/// How many requests have been sent after a wake, or none where another one was sent than the row says.
fn wake(asking: &mut Asking, now: u64, row: &Row<'_>, sent: usize) -> Option<usize> {
    let Some(request) = asking.wake(now) else {
        return Some(sent);
    };
    let Some((at, text)) = row.sent.get(sent) else {
        return None;
    };
    if *at == now && *request.bytes() == *text.as_bytes() {
        Some(sent.saturating_add(1))
    } else {
        None
    }
}

fn come(asking: &mut Asking, now: u64, comes: &[(u64, Happening)]) {
    for (at, what) in comes {
        if *at == now {
            asking.take(Event {
                at: now,
                what: *what,
            });
        }
    }
}

/// What comes at this time, with a wake before and behind it.
fn pass(asking: &mut Asking, now: u64, row: &Row<'_>, sent: usize) -> Option<usize> {
    let Some(before) = wake(asking, now, row, sent) else {
        return None;
    };
    come(asking, now, row.comes);
    wake(asking, now, row, before)
}

/// A board whose line is opened at 0.
fn opened(number: Option<[u8; 5]>) -> Asking {
    let mut asking = Asking::new();
    come(&mut asking, 0, &[(0, Begins)]);
    if let Some(number) = number {
        come(&mut asking, 0, &[(0, Owns(number))]);
    }
    come(&mut asking, 0, &[(0, Opens)]);
    asking
}

/// Whether the board is sent what the row says.
fn is_sent(row: &Row<'_>, number: Option<[u8; 5]>) -> bool {
    let mut asking = opened(number);
    let mut sent: usize = 0;
    for tick in 0..100u64 {
        let now = 50 * tick;
        if now <= row.until {
            let Some(more) = pass(&mut asking, now, row, sent) else {
                return false;
            };
            sent = more;
        }
    }
    sent == row.sent.len()
}

/// The number of the first row that is sent something else.
fn first_unlike(rows: &[Row<'_>], number: Option<[u8; 5]>) -> Option<usize> {
    for (i, row) in rows.iter().enumerate() {
        if !is_sent(row, number) {
            return Some(i);
        }
    }
    None
}

#[test]
fn requests_have_their_times(rt: HostRuntime) {
    expect_none(&rt, first_unlike(&ROWS, None));
    expect_none(&rt, first_unlike(&NUMBERED, Some(NUMBER)));
}
