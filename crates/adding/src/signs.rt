//! The kings' sign of a result.
ghost use Rattle.std.specs.Prelude.{◌≡◌, ◌<◌, All, map};
ghost use Rattle.adding.specs.Signs.{black_square as black_square_of, sign_picture as sign_picture_of, white_square as white_square_of, without_king as without_king_of};

use settle_core::Outcome;

const WHITE_KING: u8 = 5;

const BLACK_KING: u8 = 11;

fn without_king(code: u8) -> u8
    requires { code < 16 }
    ensures same { result ≡ without_king_of code }
    ensures low { result < 16 }
{
    if code == WHITE_KING || code == BLACK_KING {
        0
    } else {
        code
    }
}

fn white_square(outcome: Outcome) -> usize
    ensures same { result ≡ white_square_of outcome }
    ensures low { result < 64 }
{
    match outcome {
        Outcome::WhiteWins | Outcome::Drawn => 36,
        Outcome::BlackWins => 35,
    }
}

fn black_square(outcome: Outcome) -> usize
    ensures same { result ≡ black_square_of outcome }
    ensures low { result < 64 }
{
    match outcome {
        Outcome::WhiteWins => 27,
        Outcome::BlackWins | Outcome::Drawn => 28,
    }
}

fn without_kings(picture: &[u8; 64]) -> [u8; 64]
    requires { All (λ code. code < 16) picture.now }
    ensures same { result ≡ map without_king_of picture.now }
    ensures low { All (λ code. code < 16) result }
{
    let mut bare = [0; 64];
    for square in 0..64usize {
        bare[square] = without_king(picture[square]);
    }
    bare
}

/// The picture with both kings in the centre.
pub fn sign_picture(outcome: Outcome, picture: &[u8; 64]) -> [u8; 64]
    requires { All (λ code. code < 16) picture.now }
    ensures same { result ≡ sign_picture_of outcome picture.now }
    ensures low { All (λ code. code < 16) result }
{
    let mut shown = without_kings(picture);
    shown[white_square(outcome)] = WHITE_KING;
    shown[black_square(outcome)] = BLACK_KING;
    shown
}
