//! The example on the page of `pair_frames`.
ghost use Rattle.std.specs.Prelude.{◌<◌, All};

use arrayvec::ArrayVec;
use dgt_frame::First;
use pair_frames::{MOST, put_in};
use unseen_pairs::Recovery;

/// How many bytes the frames of a recovered pair have on a board without a clock.
fn size_of(picture: &[u8; 64], found: &Recovery) -> usize
    requires { All (λ code. code < 16) picture.now }
{
    let mut frames: ArrayVec<u8, MOST> = ArrayVec::new();
    put_in(First::White, false, picture, &None, found, &mut frames);
    frames.len()
}
