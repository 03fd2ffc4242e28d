//! What happens one after the other, and what is seen then: when a board is silent, what an addition changes, and whose board
//! it is.

use crate::coded_frames::expect_none;
use board_cable::Happening::{
    Answers, Asks, Begins, Closes, Comes, Dumps, Faults, HangsUp, Interrupts, Numbers, Opens, Owns,
    Updates,
};
use board_cable::{Asking, Event, Handling, Happening, Request, serial_in};

const EMPTY: [u8; 64] = [0; 64];

const OWN: [u8; 5] = *b"01234";

const ANOTHER: [u8; 5] = *b"01235";

/// What happens, or is seen, at a time in milliseconds.
#[derive(Clone, Copy)]
enum Step<'a> {
    /// This happens.
    Takes(u64, Happening),
    /// The recorder wakes, and this is sent; nothing where it is empty.
    Wakes(u64, &'a str),
    /// The board is silent or isn't.
    Silent(bool),
    /// What it sends is kept, held, or another board's.
    Handles(u64, &'a str),
}

use Step::{Handles, Silent, Takes, Wakes};

/// What is seen first that isn't as a step says, by the step's number, which is 1 for the first; 0 if all is.
fn first_wrong(steps: &[Step<'_>]) -> usize {
    let mut asking = Asking::new();
    let mut number: usize = 0;
    for step in steps {
        number = number.saturating_add(1);
        if !is_so(&mut asking, step) {
            return number;
        }
    }
    0
}

fn is_so(asking: &mut Asking, step: &Step<'_>) -> bool {
    match *step {
        Step::Takes(at, what) => {
            asking.take(Event { at, what });
            true
        }
        Step::Wakes(now, text) => match asking.wake(now) {
            None => text.is_empty(),
            Some(request) => *request.bytes() == *text.as_bytes(),
        },
        Step::Silent(silent) => asking.is_silent() == silent,
        Step::Handles(now, text) => handling_text(asking.handling(now)) == text,
    }
}

fn handling_text(handling: Handling) -> &'static str {
    match handling {
        Handling::Keep => "keep",
        Handling::Hold => "hold",
        Handling::Other(number) => {
            if number == ANOTHER {
                "other"
            } else {
                "unknown"
            }
        }
    }
}

/// A board that never answers; then one; then the line is gone and comes back.
static NEVER_ANSWERS: [Step<'static>; 25] = [
    Wakes(9000, ""),
    Takes(0, Begins),
    Takes(0, Opens),
    Wakes(0, "EBK"),
    Wakes(1000, "EBK"),
    Wakes(2000, "EBK"),
    Wakes(3000, "EBK"),
    Wakes(4000, "EBK"),
    Silent(false),
    Wakes(5000, "EBK"),
    Silent(true),
    Takes(5500, Updates),
    Silent(true),
    Wakes(6000, "EBK"),
    Takes(6100, Dumps(EMPTY)),
    Silent(false),
    Wakes(6950, ""),
    Wakes(7000, "B"),
    Takes(7100, Dumps(EMPTY)),
    Takes(7200, Closes),
    Wakes(20000, ""),
    Takes(30000, Opens),
    Wakes(30000, "EBK"),
    Silent(false),
    Handles(30000, "keep"),
];

/// A serial server that is called again stays silent until its board answers; one that goes away doesn't.
static CALLED_AGAIN: [Step<'static>; 18] = [
    Takes(0, Begins),
    Takes(0, Opens),
    Wakes(0, "EBK"),
    Wakes(2000, "EBK"),
    Wakes(4000, "EBK"),
    Wakes(5000, "EBK"),
    Silent(true),
    Takes(15000, HangsUp),
    Wakes(16000, ""),
    Silent(true),
    Takes(17000, Opens),
    Wakes(17000, "EBK"),
    Silent(true),
    Takes(17100, Dumps(EMPTY)),
    Silent(false),
    Takes(18000, Closes),
    Silent(false),
    Wakes(19000, ""),
];

/// A recorder that was stopped for a minute asks anew, and the board isn't silent.
static STOPPED: [Step<'static>; 11] = [
    Takes(0, Begins),
    Takes(0, Opens),
    Wakes(0, "EBK"),
    Takes(100, Dumps(EMPTY)),
    Wakes(1000, "B"),
    Wakes(60000, "EBK"),
    Silent(false),
    Takes(60050, Interrupts),
    Wakes(60200, "B"),
    Takes(60250, Dumps(EMPTY)),
    Silent(false),
];

/// Bytes are added within a frame: a dump is asked for at once, and then a lost request is waited for.
static ADDED: [Step<'static>; 12] = [
    Takes(0, Begins),
    Takes(0, Opens),
    Wakes(0, "EBK"),
    Takes(100, Dumps(EMPTY)),
    Takes(700, Comes(true)),
    Takes(700, Interrupts),
    Wakes(700, "B"),
    Takes(700, Faults),
    Takes(700, Comes(false)),
    Wakes(1600, ""),
    Takes(1610, Dumps(EMPTY)),
    Wakes(1650, ""),
];

/// Bytes are added within the dump that was asked for, which is cut and doesn't count.
static ADDED_IN_A_DUMP: [Step<'static>; 9] = [
    Takes(0, Begins),
    Takes(0, Opens),
    Wakes(0, "EBK"),
    Takes(50, Comes(true)),
    Takes(50, Interrupts),
    Takes(100, Faults),
    Takes(100, Comes(false)),
    Wakes(150, ""),
    Wakes(200, "B"),
];

/// History asks nothing, and its number is known.
static HISTORY: [Step<'static>; 12] = [
    Takes(0, Begins),
    Takes(0, Opens),
    Takes(0, Asks(Request::Start)),
    Takes(100, Numbers(OWN)),
    Handles(100, "keep"),
    Takes(150, Dumps(EMPTY)),
    Takes(0, Begins),
    Wakes(60000, ""),
    Takes(10, Opens),
    Handles(10, "hold"),
    Takes(60, Numbers(OWN)),
    Handles(60, "keep"),
];

static NO_NUMBER: [Step<'static>; 4] = [
    Takes(0, Opens),
    Handles(0, "keep"),
    Takes(100, Numbers(OWN)),
    Handles(100, "keep"),
];

static NO_ANSWER: [Step<'static>; 5] = [
    Takes(0, Owns(OWN)),
    Takes(0, Opens),
    Handles(0, "hold"),
    Handles(4900, "hold"),
    Handles(5000, "keep"),
];

static ITS_OWN: [Step<'static>; 10] = [
    Takes(0, Owns(OWN)),
    Takes(0, Opens),
    Takes(100, Numbers(OWN)),
    Handles(100, "keep"),
    Takes(200, Numbers(OWN)),
    Handles(200, "keep"),
    Takes(9000, Asks(Request::Start)),
    Handles(9000, "hold"),
    Takes(13000, Asks(Request::Start)),
    Handles(14000, "keep"),
];

static ANOTHER_BOARD: [Step<'static>; 13] = [
    Takes(0, Owns(OWN)),
    Takes(0, Opens),
    Takes(100, Numbers(ANOTHER)),
    Handles(100, "other"),
    Handles(99000, "other"),
    Takes(9000, Asks(Request::Start)),
    Handles(9000, "hold"),
    Handles(14000, "other"),
    Takes(15000, Opens),
    Handles(15000, "hold"),
    Handles(20000, "keep"),
    Takes(20100, Numbers(ANOTHER)),
    Handles(20100, "other"),
];

/// Another board, and then another one on the same cable: the game's own, or one that gives no number.
static THEN_ITS_OWN: [Step<'static>; 6] = [
    Takes(0, Owns(OWN)),
    Takes(0, Opens),
    Takes(100, Numbers(ANOTHER)),
    Takes(9000, Opens),
    Takes(9100, Numbers(OWN)),
    Handles(9100, "keep"),
];

static THEN_NONE: [Step<'static>; 6] = [
    Takes(0, Owns(OWN)),
    Takes(0, Opens),
    Takes(100, Numbers(ANOTHER)),
    Takes(9000, Opens),
    Handles(9000, "hold"),
    Handles(14000, "keep"),
];

/// The number comes behind two dumps, and it is another board's.
static BEHIND_TWO_DUMPS: [Step<'static>; 6] = [
    Takes(0, Owns(OWN)),
    Takes(0, Opens),
    Takes(100, Dumps(EMPTY)),
    Takes(1100, Dumps(EMPTY)),
    Takes(1200, Numbers(ANOTHER)),
    Handles(1200, "other"),
];

/// The arbiter takes the board on the cable.
static TAKEN: [Step<'static>; 7] = [
    Takes(0, Owns(OWN)),
    Takes(0, Opens),
    Takes(100, Numbers(ANOTHER)),
    Takes(500, Owns(ANOTHER)),
    Handles(500, "keep"),
    Takes(900, Numbers(ANOTHER)),
    Handles(900, "keep"),
];

/// A board that has no number is taken for the game's after three dumps.
static THREE_DUMPS: [Step<'static>; 9] = [
    Takes(0, Owns(OWN)),
    Takes(0, Opens),
    Takes(100, Dumps(EMPTY)),
    Takes(1100, Dumps(EMPTY)),
    Handles(1100, "hold"),
    Takes(2100, Dumps(EMPTY)),
    Handles(2100, "keep"),
    Takes(2200, Numbers(ANOTHER)),
    Handles(2200, "other"),
];

/// A board behind a serial server that answers late: its number is awaited from then on.
static SERVER: [Step<'static>; 6] = [
    Takes(0, Owns(OWN)),
    Takes(0, Opens),
    Handles(60000, "keep"),
    Takes(60000, Answers),
    Handles(64900, "hold"),
    Handles(65000, "keep"),
];

/// A message with this identifier and these data has this number; none where it is empty.
static SERIALS: [(u8, &[u8], &str); 6] = [
    (0x91, b"01234", "01234"),
    (0x91, b"AB-12", "AB-12"),
    (0x91, b"0123", ""),
    (0x91, b"012345", ""),
    (0x91, b"01 34", ""),
    (0x93, b"01234", ""),
];

fn is_serial(row: &(u8, &[u8], &str)) -> bool {
    match serial_in(row.0, row.1) {
        None => row.2.is_empty(),
        Some(number) => *number.as_slice() == *row.2.as_bytes(),
    }
}

/// The number of the first steps that aren't as they say.
fn first_unlike(all: &[&[Step<'_>]]) -> Option<usize> {
    for (i, steps) in all.iter().enumerate() {
        if first_wrong(steps) != 0 {
            return Some(i);
        }
    }
    None
}

/// The number of the first message whose number is another one.
fn first_other_serial() -> Option<usize> {
    for (i, row) in SERIALS.iter().enumerate() {
        if !is_serial(row) {
            return Some(i);
        }
    }
    None
}

#[test]
fn each_step_and_number_is_as_it_says(rt: HostRuntime) {
    let all: [&[Step<'_>]; 16] = [
        &NEVER_ANSWERS,
        &CALLED_AGAIN,
        &STOPPED,
        &ADDED,
        &ADDED_IN_A_DUMP,
        &HISTORY,
        &THEN_ITS_OWN,
        &THEN_NONE,
        &BEHIND_TWO_DUMPS,
        &NO_NUMBER,
        &NO_ANSWER,
        &ITS_OWN,
        &ANOTHER_BOARD,
        &TAKEN,
        &THREE_DUMPS,
        &SERVER,
    ];
    expect_none(&rt, first_unlike(&all));
    expect_none(&rt, first_other_serial());
}
