//! Captures: what a board sends, built from placements and the names of squares.

use crate::boards::{code_of, codes_of};
use crate::bytes::Bytes;

/// The initial position.
pub const INITIAL: &str = "rnbqkbnr/pppppppp/8/8/8/8/PPPPPPPP/RNBQKBNR";

/// What the board sends.
#[derive(Clone, Copy)]
pub enum Signal<'a> {
    /// The dump of a placement, White with the connector on the left.
    Dump(&'a str),
    /// The dump of a placement, Black with the connector on the left.
    TurnedDump(&'a str),
    /// This square is empty now.
    Lift(&'a str),
    /// This square shows this piece now: a letter of the placement, or `*` for a code that no piece has.
    Put(&'a str, &'a str),
    /// This square is empty now, on a board that stands the other way round.
    TurnedLift(&'a str),
    /// This square shows this piece now, on a board that stands the other way round.
    TurnedPut(&'a str, &'a str),
    /// The seven data bytes of a time message.
    Time([u8; 7]),
    /// Bytes of no whole frame, or of a frame of another kind.
    Raw(&'a [u8]),
}

/// The field of a square, as `e4`; that of a8 where there is no such square.
fn field_of(square: &str) -> u8 {
    let (Some(file), Some(rank)) = (square.as_bytes().get(0), square.as_bytes().get(1)) else {
        return 0;
    };
    let column = file.saturating_sub(b'a').min(7);
    let row = b'8'.saturating_sub(*rank).min(7);
    row * 8 + column
}

fn code_of_text(piece: &str) -> u8 {
    match piece.as_bytes().get(0) {
        Some(letter) => code_of(*letter),
        None => 0,
    }
}

fn turned(field: u8) -> u8 {
    63u8.saturating_sub(field)
}

fn update(field: u8, code: u8) -> [u8; 5] {
    [0x8E, 0x00, 0x05, field, code]
}

/// Adds the bytes of a signal.
pub fn add_signal(bytes: &mut Bytes, signal: Signal<'_>) {
    match signal {
        Signal::Dump(placement) => {
            bytes.add(&[0x86, 0x00, 0x43]);
            bytes.add(&codes_of(placement.as_bytes()));
        }
        Signal::TurnedDump(placement) => {
            let mut codes = codes_of(placement.as_bytes());
            codes.reverse();
            bytes.add(&[0x86, 0x00, 0x43]);
            bytes.add(&codes);
        }
        Signal::Lift(square) => bytes.add(&update(field_of(square), 0)),
        Signal::Put(square, piece) => bytes.add(&update(field_of(square), code_of_text(piece))),
        Signal::TurnedLift(square) => bytes.add(&update(turned(field_of(square)), 0)),
        Signal::TurnedPut(square, piece) => {
            bytes.add(&update(turned(field_of(square)), code_of_text(piece)));
        }
        Signal::Time(data) => {
            bytes.add(&[0x8D, 0x00, 0x0A]);
            bytes.add(&data);
        }
        Signal::Raw(raw) => bytes.add(raw),
    }
}

/// The bytes of a capture.
pub fn bytes_of(capture: &[Signal<'_>]) -> Bytes {
    let mut bytes = Bytes::new();
    for signal in capture {
        add_signal(&mut bytes, *signal);
    }
    bytes
}
