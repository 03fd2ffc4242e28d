//! The example on the page of `chess_clock`.

use chess_clock::{Hms, Reading};

/// The times of two hours for each side.
fn two_hours() -> Reading {
    let time = Hms {
        hours: 2,
        minutes: 0,
        seconds: 0,
    };
    Reading {
        white: time,
        black: time,
    }
}
