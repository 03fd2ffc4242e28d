//! The times that a chess clock shows.

use std::marker::Model;

/// A clock's time, 0:00:00 to 9:59:59.
#[derive(Clone, Copy, Debug, PartialEq, Eq)]
pub struct Hms {
    /// 0 to 9.
    pub hours: u8,
    /// 0 to 59.
    pub minutes: u8,
    /// 0 to 59.
    pub seconds: u8,
}

impl Model for Hms {
    ghost use Rattle.std.specs.Prelude.{◌≤◌};
    ghost use Rattle.chess_clock.specs.Clock.{Clock};

    ghost Value = { Clock };

    ghost view = { λ h. record { hours = h.hours; minutes = h.minutes; seconds = h.seconds } };

    ghost invariant = { λ h. (h.hours ≤ 9) × (h.minutes ≤ 59) × (h.seconds ≤ 59) };

    ghost inverse = { λ c. record { hours = c.hours; minutes = c.minutes; seconds = c.seconds } };
}

/// The times of both clocks.
#[derive(Clone, Copy, Debug, PartialEq, Eq)]
pub struct Reading {
    /// What White's clock shows.
    pub white: Hms,
    /// What Black's clock shows.
    pub black: Hms,
}
