//! Squares by number, and their text.
ghost use Rattle.std.specs.Prelude.{◌≡◌, ◌<◌};
ghost use Rattle.chess_text.specs.Squares.{file_byte as file_byte_lem, rank_byte as rank_byte_lem};

use chess_rules::Square;

/// The square of a number that is known to be one.
pub fn square_at(number: u8) -> Square
    requires { number < 64 }
    ensures { result ≡ number }
{
    let Some(square) = Square::new(number) else {
        unreachable!()
    };
    square
}

/// The letter of its file, `a` to `h`.
pub fn file_byte(square: Square) -> u8
    ensures value { result ≡ file_byte_lem square }
    ensures ascii { result < 128 }
{
    b'a' + square.number() % 8
}

/// The digit of its rank, `1` to `8`.
pub fn rank_byte(square: Square) -> u8
    ensures value { result ≡ rank_byte_lem square }
    ensures ascii { result < 128 }
{
    b'8' - square.number() / 8
}
