//! The squares of the board.
ghost use Rattle.std.specs.Prelude.{◌≡◌, ℕ, ◌+◌, ◌/◌, ◌%◌, ◌<◌, ◌≤◌, IfSome, IsSome, ◌↔◌};

use std::marker::Model;

/// One of the 64 squares, by its number 0 to 63 in reading order: a8 is 0, h8 is 7, a1 is 56, h1 is 63.
#[derive(Clone, Copy, PartialEq, Eq, Debug)]
pub struct Square {
    number: u8,
}

impl Model for Square {
    ghost use Rattle.std.specs.Prelude.{ℕ, ◌<◌};

    ghost Value = { ℕ };

    ghost view = { λ s. s.number };

    ghost invariant = { λ s. s.number < 64 };

    ghost inverse = { λ n. record { number = n } };
}

impl Square {
    /// The square of this number, or `None` above 63.
    pub fn new(n: u8) -> Option<Square>
        ensures some { IsSome result ↔ (n < 64) }
        ensures number { IfSome result (λ s. s ≡ n) }
    {
        if n < 64 {
            Some(Square { number: n })
        } else {
            None
        }
    }

    /// The number, 0 to 63.
    pub fn number(self) -> u8
        ensures number { result ≡ self }
        ensures in_range { result < 64 }
    {
        let Square { number } = self;
        number
    }

    /// The file, 0 for the a-file to 7 for the h-file.
    pub fn file(self) -> u8
        ensures file { result ≡ self % 8 }
        ensures in_range { result < 8 }
    {
        self.number % 8
    }

    /// The rank, 1 to 8.
    pub fn rank(self) -> u8
        ensures rank { result + self / 8 ≡ 8 }
        ensures in_range { result ≤ 8 }
        ensures positive { 0 < result }
    {
        8 - self.number / 8
    }
}
