//! Masks of squares: bit n is square n.
ghost use Rattle.std.specs.Prelude.{◌≡◌, ◌≢◌, ◌<◌, ◌↔◌, ℕ, List, IsTrue};
ghost use Rattle.std.specs.Int.{bit_at};
ghost use Rattle.settle_core.specs.Masks.{IsDiff, IsLanded, IsShown};

use std::simd::prelude::*;

/// The squares on which two pictures differ: bit n is square n.
pub fn diff_mask(a: &[u8; 64], b: &[u8; 64]) -> u64
    ensures { IsDiff result a.now b.now }
{
    u8x64::from_array(*a)
        .simd_ne(u8x64::from_array(*b))
        .to_bitmask()
}

/// The squares on which a picture shows pieces: bit n is square n.
pub fn shown_in(picture: &[u8; 64]) -> u64
    ensures { IsShown result picture.now }
{
    diff_mask(&[0; 64], picture)
}

/// The squares on which a piece landed: those that differ, and show one.
pub fn landed(mask: u64, shown: u64) -> u64
    ensures { (before after : List ℕ) → IsDiff mask before after → IsShown shown after → IsLanded result before after }
{
    mask & shown
}

/// One of the squares of a mask, 0 to 63. The mask must have one. The contract doesn't say which it is; it is the
/// lowest.
pub fn first_square(mask: u64) -> u8
    requires { 0 < mask }
    ensures range { result < 64 }
    ensures set { bit_at mask result ≡ 1 }
{
    mask.trailing_zeros() as u8
}

/// The mask without one of its squares.
pub fn without(mask: u64, square: u8) -> u64
    requires range { square < 64 }
    requires set { bit_at mask square ≡ 1 }
    ensures smaller { result < mask }
    ensures cleared { bit_at result square ≡ 0 }
    ensures others { (s : ℕ) → s < 64 → s ≢ square → bit_at result s ≡ bit_at mask s }
{
    mask & !(1 << square)
}

/// The mask with one square more.
pub fn with(mask: u64, square: u8) -> u64
    requires { square < 64 }
    ensures set { bit_at result square ≡ 1 }
    ensures others { (s : ℕ) → s < 64 → s ≢ square → bit_at result s ≡ bit_at mask s }
{
    mask | (1 << square)
}

/// Whether two masks have a square in common.
pub fn meets(a: u64, b: u64) -> bool
    ensures { IsTrue result ↔ ((s : ℕ) × (s < 64) × (bit_at a s ≡ 1) × (bit_at b s ≡ 1)) }
{
    let both = a & b;
    both > 0
}

/// Whether the first mask has a square that the second one lacks.
pub fn exceeds(a: u64, b: u64) -> bool
    ensures { IsTrue result ↔ ((s : ℕ) × (s < 64) × (bit_at a s ≡ 1) × (bit_at b s ≡ 0)) }
{
    let more = a & !b;
    more > 0
}
