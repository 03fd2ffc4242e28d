//! What a time message says of the clock. The protocol gives the frame, and this project what its bytes mean.
ghost use Rattle.std.specs.Prelude.{◌≡◌, ◌≤◌, ◌+◌, ◌↔◌, IsTrue};
ghost use Rattle.chess_clock.specs.Clock.{Clock};
ghost use Rattle.dgt_frame.specs.Times.{tens, units, number_of, are_digits, reading_after};
ghost use Rattle.dgt_frame.specs.Inside.Groups.{group_read};

use chess_clock::{Hms, Reading};

/// Whose time the first group of a time message is.
#[derive(Clone, Copy, Debug, PartialEq, Eq)]
pub enum First {
    White,
    Black,
}

/// In the place of a group's hours: the message acknowledges a command to the clock, and is no time.
const ACKNOWLEDGES: u8 = 10;

fn tens(byte: u8) -> u8
    ensures { result ≡ tens byte }
{
    byte / 16 % 8
}

fn are_digits(byte: u8) -> bool
    ensures { result ≡ are_digits byte }
{
    tens(byte) < 6 && byte % 16 < 10
}

fn number(byte: u8) -> u8
    ensures { result ≡ number_of byte }
{
    tens(byte) * 10 + byte % 16
}

/// The group from `start` on, where it is a time.
fn group(bytes: &[u8; 7], start: usize) -> Option<Hms>
    requires { start ≤ 4 }
    ensures { result ≡ group_read bytes.now start }
{
    let hours = bytes[start] % 16;
    let minutes = bytes[start + 1];
    let seconds = bytes[start + 2];
    if hours < 10 && are_digits(minutes) && are_digits(seconds) {
        Some(Hms {
            hours,
            minutes: number(minutes),
            seconds: number(seconds),
        })
    } else {
        None
    }
}

/// The reading after a time message with these data bytes, where it was `old` before. By the first rule that applies:
/// an acknowledgement of a command to the clock leaves it; without a clock it is `None`; digits or hours that are no
/// time leave it; else it is the two groups, the first that of the side `first`.
pub fn read_time(bytes: &[u8; 7], first: First, old: Option<Reading>) -> Option<Reading>
    ensures { result ≡ reading_after first bytes.now old }
{
    if bytes[0] % 16 == ACKNOWLEDGES || bytes[3] % 16 == ACKNOWLEDGES {
        return old;
    }
    if bytes[6] / 32 % 2 == 1 {
        return None;
    }
    let (Some(one), Some(other)) = (group(bytes, 0), group(bytes, 3)) else {
        return old;
    };
    Some(match first {
        First::White => Reading {
            white: one,
            black: other,
        },
        First::Black => Reading {
            white: other,
            black: one,
        },
    })
}
