//! What happens at a board's cable, with its bytes: what the board is sent, and which bytes the game gets.

use crate::coded_frames::expect_none;
use board_cable::What::{Begins, Closes, Hears, Interrupts, Lends, Opens, Owns, Takes, Wakes};
use board_cable::{Answer, Cable, Handling, Happened, What};
use std::alloc::{AllocError, Global};

const OWN: [u8; 5] = *b"01234";

const ANOTHER: [u8; 5] = *b"01235";

/// Pieces of what boards send, by a letter.
fn piece(letter: u8) -> &'static [u8] {
    match letter {
        // The numbers of the game's own board, of another one and of a third: message 0x91 of eight bytes.
        b'N' => b"\x91\x00\x0801234",
        b'O' => b"\x91\x00\x0801235",
        b'T' => b"\x91\x00\x0801236",
        // Field 52 is empty.
        b'U' => b"\x8E\x00\x05\x34\x00",
        // A dump: an empty board.
        b'D' =>
            b"\x86\x00\x43\0\0\0\0\0\0\0\0\0\0\0\0\0\0\0\0\0\0\0\0\0\0\0\0\0\0\0\0\0\0\0\0\0\0\0\0\0\0\0\0\0\0\0\0\0\0\0\0\0\0\0\0\0\0\0\0\0\0\0\0\0\0\0\0",
        // The number of the game's own board in two parts, and an update in two.
        b'n' => b"\x91\x00\x0801",
        b'm' => b"234",
        b'u' => b"\x8E\x00\x05",
        b'v' => b"\x34\x00",
        // A byte that begins no frame.
        _ => b"\x55",
    }
}

/// What happens at a time in milliseconds, with these bytes; what the board is sent then, what is done with the bytes, and what
/// the game gets.
type Row<'a> = (u64, What, &'a str, &'a str, &'a str, &'a str);

fn bytes_of(alloc: Global, letters: &str) -> Result<Vec<u8>, AllocError> {
    let mut all = Vec::new(alloc);
    for letter in letters.as_bytes() {
        all.extend_from_slice(piece(*letter))?;
    }
    Ok(all)
}

fn handling_text(handling: Handling) -> &'static str {
    match handling {
        Handling::Keep => "keep",
        Handling::Hold => "hold",
        Handling::Other(_) => "other",
    }
}

/// What the game gets now.
fn got(alloc: Global, cable: &Cable, answer: &Answer, bytes: &[u8]) -> Result<Vec<u8>, AllocError> {
    let mut all = Vec::from_slice(alloc, cable.released())?;
    if handling_text(answer.handling) == "keep" {
        all.extend_from_slice(bytes)?;
    }
    Ok(all)
}

fn is_sent(answer: &Answer, text: &str) -> bool {
    match answer.request {
        None => text.is_empty(),
        Some(request) => *request.bytes() == *text.as_bytes(),
    }
}

fn is_so(alloc: Global, cable: &mut Cable, row: &Row<'_>) -> Result<bool, AllocError> {
    let (at, what, letters, text, handling, gets) = *row;
    let bytes = bytes_of(alloc, letters)?;
    let answer = cable.take(Happened { at, what }, bytes.as_slice())?;
    let all = got(alloc, cable, &answer, bytes.as_slice())?;
    let wanted = bytes_of(alloc, gets)?;
    Ok(
        is_sent(&answer, text)
            && handling_text(answer.handling) == handling
            && all.as_slice() == wanted.as_slice(),
    )
}

/// The first row that isn't so, by its number, which is 1 for the first; 0 if all are.
fn first_wrong(alloc: Global, rows: &[Row<'_>]) -> Result<usize, AllocError> {
    let mut cable = Cable::new(alloc);
    let mut number: usize = 0;
    for row in rows {
        number = number.saturating_add(1);
        if !is_so(alloc, &mut cable, row)? {
            return Ok(number);
        }
    }
    Ok(0)
}

/// The game's own board: its number comes in two reads.
static ITS_OWN: [Row<'static>; 7] = [
    (0, Begins, "", "", "keep", ""),
    (0, Owns(OWN), "", "", "keep", ""),
    (0, Opens, "", "EBK", "hold", ""),
    (55, Hears, "n", "", "hold", ""),
    (60, Hears, "m", "", "keep", "nm"),
    (90, Hears, "D", "", "keep", "D"),
    (1000, Wakes, "", "B", "keep", ""),
];

/// A game that has no number yet keeps all, and has the first that comes.
static ITS_FIRST: [Row<'static>; 5] = [
    (0, Begins, "", "", "keep", ""),
    (0, Opens, "", "EBK", "keep", ""),
    (40, Hears, "U", "", "keep", "U"),
    (60, Hears, "N", "", "keep", "N"),
    (70, Hears, "O", "", "other", ""),
];

/// Another board, which the arbiter takes.
static TAKEN: [Row<'static>; 8] = [
    (0, Owns(OWN), "", "", "keep", ""),
    (0, Opens, "", "EBK", "hold", ""),
    (40, Hears, "D", "", "hold", ""),
    (60, Hears, "O", "", "other", ""),
    (1000, Wakes, "", "B", "other", ""),
    (1050, Hears, "U", "", "other", ""),
    (2000, Takes, "", "EBK", "keep", "DOU"),
    (2050, Hears, "O", "", "keep", "O"),
];

/// Nothing is taken if no board has sent a number.
static NONE_TAKEN: [Row<'static>; 3] = [
    (0, Owns(OWN), "", "", "keep", ""),
    (0, Opens, "", "EBK", "hold", ""),
    (100, Takes, "", "", "hold", ""),
];

/// Another board, whose own game takes what it has sent so far.
static LENT: [Row<'static>; 6] = [
    (0, Owns(OWN), "", "", "keep", ""),
    (0, Opens, "", "EBK", "hold", ""),
    (60, Hears, "O", "", "other", ""),
    (100, Lends, "", "", "other", ""),
    (120, Hears, "U", "", "other", ""),
    (150, Takes, "", "", "keep", "U"),
];

/// Another board, and then a third one: of the first nothing is left.
static THIRD: [Row<'static>; 8] = [
    (0, Owns(OWN), "", "", "keep", ""),
    (0, Opens, "", "EBK", "hold", ""),
    (60, Hears, "O", "", "other", ""),
    (100, Closes, "", "", "other", ""),
    (200, Opens, "", "EBK", "hold", ""),
    (240, Hears, "U", "", "hold", ""),
    (260, Hears, "T", "", "other", ""),
    (300, Takes, "", "", "keep", "UT"),
];

/// Another board, and then the game's own.
static ITS_OWN_AGAIN: [Row<'static>; 6] = [
    (0, Owns(OWN), "", "", "keep", ""),
    (0, Opens, "", "EBK", "hold", ""),
    (60, Hears, "O", "", "other", ""),
    (200, Opens, "", "EBK", "hold", ""),
    (260, Hears, "N", "", "keep", "N"),
    (300, Takes, "", "", "keep", ""),
];

/// A board that gives no number within 5 s is taken for the game's.
static NO_NUMBER: [Row<'static>; 6] = [
    (0, Owns(OWN), "", "", "keep", ""),
    (0, Opens, "", "EBK", "hold", ""),
    (1000, Wakes, "", "EBK", "hold", ""),
    (3000, Hears, "U", "EBK", "hold", ""),
    (5000, Wakes, "", "EBK", "keep", "U"),
    (5100, Hears, "U", "", "keep", "U"),
];

/// What is held is dropped if the line goes away.
static UNPLUGGED: [Row<'static>; 5] = [
    (0, Owns(OWN), "", "", "keep", ""),
    (0, Opens, "", "EBK", "hold", ""),
    (50, Hears, "D", "", "hold", ""),
    (100, Closes, "", "", "hold", ""),
    (5000, Wakes, "", "", "keep", ""),
];

/// An unfinished frame, and then a fault.
static FAULTS: [Row<'static>; 8] = [
    (0, Opens, "", "EBK", "keep", ""),
    (50, Hears, "D", "", "keep", "D"),
    (300, Hears, "u", "", "keep", "u"),
    (499, Wakes, "", "", "keep", ""),
    (500, Wakes, "", "B", "keep", ""),
    (550, Hears, "v", "", "keep", "v"),
    (700, Hears, "s", "", "keep", "s"),
    (1500, Wakes, "", "EBK", "keep", ""),
];

/// Bytes are added within a frame: what is left of it is a fault.
static ADDED: [Row<'static>; 6] = [
    (0, Opens, "", "EBK", "keep", ""),
    (50, Hears, "D", "", "keep", "D"),
    (300, Hears, "u", "", "keep", "u"),
    (310, Interrupts, "", "B", "keep", ""),
    (320, Hears, "v", "", "keep", "v"),
    (340, Hears, "D", "", "keep", "D"),
];

/// A storm of updates: a dump is asked for 4 s after the last one.
static STORM: [Row<'static>; 4] = [
    (0, Opens, "", "EBK", "keep", ""),
    (50, Hears, "D", "", "keep", "D"),
    (3900, Hears, "U", "", "keep", "U"),
    (4000, Hears, "U", "B", "keep", "U"),
];

/// The next call asks nothing until it has opened the line.
static HISTORY: [Row<'static>; 4] = [
    (0, Opens, "", "EBK", "keep", ""),
    (0, Begins, "", "", "keep", ""),
    (60000, Wakes, "", "", "keep", ""),
    (61000, Opens, "", "EBK", "keep", ""),
];

/// How many bytes the game gets, if a board that gives no number sends so many.
fn released_of(alloc: Global, size: usize) -> Result<usize, AllocError> {
    let mut cable = Cable::new(alloc);
    let many = vec![in alloc; 0u8; size]?;
    cable.take(
        Happened {
            at: 0,
            what: Owns(ANOTHER),
        },
        &[],
    )?;
    cable.take(Happened { at: 0, what: Opens }, &[])?;
    cable.take(
        Happened {
            at: 10,
            what: Hears,
        },
        many.as_slice(),
    )?;
    cable.take(
        Happened {
            at: 5000,
            what: Wakes,
        },
        &[],
    )?;
    Ok(cable.released().len())
}

/// The number of the first rows that aren't as they say.
fn first_unlike(alloc: Global, all: &[&[Row<'_>]]) -> Option<usize> {
    for (i, rows) in all.iter().enumerate() {
        if first_wrong(alloc, rows) != Ok(0) {
            return Some(i);
        }
    }
    None
}

#[test]
fn each_answer_is_as_it_says(rt: HostRuntime) {
    let all: [&[Row<'_>]; 13] = [
        &ITS_OWN,
        &ITS_FIRST,
        &TAKEN,
        &NONE_TAKEN,
        &LENT,
        &THIRD,
        &ITS_OWN_AGAIN,
        &NO_NUMBER,
        &UNPLUGGED,
        &FAULTS,
        &ADDED,
        &STORM,
        &HISTORY,
    ];
    expect_none(&rt, first_unlike(rt.alloc(), &all));
    // more than a mebibyte is dropped
    let held = released_of(rt.alloc(), 1_048_576) == Ok(1_048_576);
    assert!(rt; held && released_of(rt.alloc(), 1_048_577) == Ok(0));
}
