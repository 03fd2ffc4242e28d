//! The squares on which two pictures differ. A mask has bit n for square n.
ghost use Rattle.square_runs.specs.Squares.{Marks};
ghost use Rattle.board_doubts.specs.Elsewhere.{differs};

use std::simd::prelude::*;

/// The squares on which a picture differs from a position.
pub fn differing(position: &[u8; 64], picture: &[u8; 64]) -> u64
    ensures { Marks result (differs position.now picture.now) }
{
    u8x64::from_array(*picture)
        .simd_ne(u8x64::from_array(*position))
        .to_bitmask()
}
