//! Readings by their numbers.

use chess_clock::{Hms, Reading};

/// Hours, minutes and seconds of White's clock, and of Black's; no clock is connected where there are none.
pub type Clocks = Option<[u8; 6]>;

fn hms(hours: u8, minutes: u8, seconds: u8) -> Option<Hms> {
    if hours > 9 || minutes > 59 || seconds > 59 {
        return None;
    }
    Some(Hms {
        hours,
        minutes,
        seconds,
    })
}

/// The reading with these clocks.
pub fn reading_of(clocks: Clocks) -> Option<Reading> {
    let [h, m, s, hours, minutes, seconds] = clocks?;
    Some(Reading {
        white: hms(h, m, s)?,
        black: hms(hours, minutes, seconds)?,
    })
}
