//! What a host tells a recorder line by line, and what it is answered, worked by hand.

ghost use Rattle.std.specs.Prelude.{OnOk};
ghost use Rattle.live_lines.specs.Recorder.{HasBegun};

use crate::coded_frames::expect_none;
use board_events::Setup;
use chess_game::{Tag, Tags};
use chess_rules::Position;
use dgt_frame::First;
use dgt_vectors::captures::Signal::{Dump, Raw};
use dgt_vectors::captures::{INITIAL, Signal, bytes_of};
use live_lines::{Next, Recorder, next_entry};
use std::alloc::{AllocError, Global};

/// What a host writes, and what is written to it. What a board sends stands between as a signal.
type Row<'a> = (
    &'a str,
    &'a [Signal<'a>],
    &'a str,
    &'a [Signal<'a>],
    &'a str,
);

const NUMBER: Signal<'static> = Raw(b"\x91\x00\x0801234");

/// A call, and a second one 35 s later, in which another board is on the cable until the arbiter takes it.
static ROWS: [Row<'static>; 15] = [
    ("0 begin 0\n", &[], "", &[], "keep\nstate WAITS -\ndone -\n"),
    ("5 opened\n", &[], "", &[], "keep\nask EBK\ndone 1000\n"),
    (
        "95 heard 8\n",
        &[NUMBER],
        "kept 8\n",
        &[NUMBER],
        "keep\nnumber 01234\ndone 910\n",
    ),
    (
        "120 heard 67\n",
        &[Dump(INITIAL)],
        "kept 67\n",
        &[Dump(INITIAL)],
        "74 picture rnbqkbnr/pppppppp/8/8/8/8/PPPPPPPP/RNBQKBNR\n74 agrees\nkeep\nstate AGREES 0\ndone 885\n",
    ),
    ("1005 wake\n", &[], "", &[], "keep\nask B\ndone 1000\n"),
    (
        "1100 heard 5\n",
        &[Raw(b"\x8E\x00\x05\x34\x00")],
        "kept 5\n",
        &[Raw(b"\x8E\x00\x05\x34\x00")],
        "79 picture rnbqkbnr/pppppppp/8/8/8/8/PPPP1PPP/RNBQKBNR\n79 differs e2\nkeep\nstate IN-HAND 0 e2\ndone 905\n",
    ),
    (
        "1500 gone\n",
        &[],
        "",
        &[],
        "keep\nstate UNPLUGGED 0\ndone -\n",
    ),
    // a second call, on the same clock: the first one ended at 1500, without a line
    (
        "0 begin 80\n",
        &[],
        "",
        &[],
        "keep\nstate UNPLUGGED 0\ndone -\n",
    ),
    ("0 away 35000\n", &[], "", &[], "keep\ndone -\n"),
    ("0 number 5\n", &[Raw(b"01234")], "", &[], "keep\ndone -\n"),
    (
        "10 opened\n",
        &[],
        "",
        &[],
        "hold\nask EBK\nstate WAITS -\ndone 1000\n",
    ),
    (
        "60 heard 8\n",
        &[Raw(b"\x91\x00\x0801235")],
        "",
        &[],
        "other 01235\ndone 950\n",
    ),
    ("300 lent\n", &[], "", &[], "other 01235\ndone 710\n"),
    ("400 took\n", &[], "", &[], "keep\nnumber 01235\ndone 610\n"),
    (
        "500 text\n",
        &[],
        "",
        &[],
        "game 99\n[Event \"?\"]\n[Site \"?\"]\n[Date \"????.??.??\"]\n[Round \"?\"]\n[White \"Anna\"]\n[Black \"?\"]\n[Result \"*\"]\n\n*\n\nkeep\ndone 510\n",
    ),
];

/// A board whose White is Anna.
fn setup(alloc: Global) -> Result<Setup, AllocError> {
    let mut tags = Tags::new(alloc);
    let Ok(()) = tags.set(Tag::White, "Anna") else {
        return Err(AllocError);
    };
    Ok(Setup {
        start: Position::initial(),
        first: First::White,
        rotated: false,
        tags,
    })
}

fn text_of(
    alloc: Global,
    line: &str,
    signals: &[Signal<'_>],
    more: &str,
) -> Result<Vec<u8>, AllocError> {
    let mut text = Vec::new(alloc);
    text.extend_from_slice(line.as_bytes())?;
    text.extend_from_slice(bytes_of(signals).get())?;
    text.extend_from_slice(more.as_bytes())?;
    Ok(text)
}

/// Tells what stands in a text. Whether it is one entry.
fn tell(recorder: &mut Recorder, text: &[u8], out: &mut Vec<u8>) -> Result<bool, AllocError>
    requires { HasBegun recorder.old }
    ensures { OnOk result (HasBegun recorder.new) }
{
    match next_entry(text) {
        Next::Told(told) => {
            recorder.take(told.entry, told.bytes, out)?;
            Ok(told.rest.is_empty())
        }
        _ => Ok(false),
    }
}

/// Tells a row. Whether it is answered so.
fn is_answered(alloc: Global, recorder: &mut Recorder, row: &Row<'_>) -> Result<bool, AllocError>
    requires { HasBegun recorder.old }
    ensures { OnOk result (HasBegun recorder.new) }
{
    let text = text_of(alloc, row.0, row.1, "")?;
    let answer = text_of(alloc, row.2, row.3, row.4)?;
    let mut out = Vec::new(alloc);
    let is_told = tell(recorder, text.as_slice(), &mut out)?;
    Ok(is_told && *out.as_slice() == *answer.as_slice())
}

/// The number of the first row that is answered otherwise, which is 1 for the first, or 0.
fn first_unlike(alloc: Global, rows: &[Row<'_>]) -> Result<usize, AllocError> {
    let mut recorder = Recorder::new(alloc, setup(alloc)?, false);
    let mut first: usize = 0;
    let mut number: usize = 0;
    'each: for row in rows {
        number = number.saturating_add(1);
        let is_so = is_answered(alloc, &mut recorder, row)?;
        if !is_so && first == 0 {
            first = number;
        }
    }
    Ok(first)
}

/// A text, and how many bytes of it are an entry: 0 if more is wanted, none if nothing helps.
static TEXTS: [(&str, Option<usize>); 11] = [
    ("", Some(0)),
    ("12 heard 3\nab", Some(0)),
    ("12 heard 3\nabc", Some(14)),
    ("12 heard 3\nabcd", Some(14)),
    ("1600 brought 3\nabcd", Some(18)),
    ("5 opened\n9 gone\n", Some(9)),
    ("5 opened", Some(0)),
    ("5 opens\n", None),
    // a number with a zero before it
    ("05 opened\n", None),
    // more than a capture can have
    ("5 heard 67108865\n", None),
    (
        "1234567890123456789012345678901234567890123456789012345678901234",
        None,
    ),
];

fn is_read(text: &str, size: Option<usize>) -> bool {
    match next_entry(text.as_bytes()) {
        Next::Told(told) => size == Some(text.len().saturating_sub(told.rest.len())),
        Next::Waits => size == Some(0),
        Next::Wrong => size.is_none(),
    }
}

/// The number of the first text that is read otherwise.
fn first_other_text() -> Option<usize> {
    for (i, (text, size)) in TEXTS.iter().enumerate() {
        if !is_read(text, *size) {
            return Some(i);
        }
    }
    None
}

#[test]
fn what_is_told_is_answered(rt: HostRuntime) {
    expect_none(&rt, first_other_text());
    let first = match first_unlike(rt.alloc(), &ROWS) {
        Ok(0) => None,
        Ok(number) => Some(number),
        Err(_) => Some(100),
    };
    expect_none(&rt, first);
}
