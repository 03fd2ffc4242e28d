//! Masks of squares: bit n is square n, 0 to 63.
ghost use Rattle.std.specs.Prelude.{◌≡◌, ◌≢◌, ◌<◌, ◌==◌, ◌&&◌, not, ℕ, Bool};
ghost use Rattle.std.specs.Int.{bit_at};
ghost use Rattle.square_runs.specs.Squares.{Marks, some_square};

/// One of the squares of a mask, which has one.
pub fn first_square(mask: u64) -> u8
    requires { 0 < mask }
    ensures range { result < 64 }
    ensures set { bit_at mask result ≡ 1 }
{
    mask.trailing_zeros() as u8
}

/// The mask without one of its squares.
pub fn without(mask: u64, square: u8) -> u64
    requires range { square < 64 }
    requires set { bit_at mask square ≡ 1 }
    ensures smaller { result < mask }
    ensures cleared { bit_at result square ≡ 0 }
    ensures others { (s : ℕ) → s < 64 → s ≢ square → bit_at result s ≡ bit_at mask s }
{
    mask & !(1 << square)
}

/// The mask with this square.
fn with(mask: u64, square: u8) -> u64
    requires { square < 64 }
    ensures set { bit_at result square ≡ 1 }
    ensures others { (s : ℕ) → s < 64 → s ≢ square → bit_at result s ≡ bit_at mask s }
{
    mask | (1 << square)
}

/// The mask with this square, which it lacks, if this says so.
pub fn with_if(mask: u64, square: u8, is: bool) -> u64
    requires inside { square < 64 }
    requires lacks { bit_at mask square ≡ 0 }
    ensures set { (bit_at result square == 1) ≡ is }
    ensures others { (s : ℕ) → s < 64 → s ≢ square → bit_at result s ≡ bit_at mask s }
{
    if is { with(mask, square) } else { mask }
}

/// The squares of a mask that another one lacks.
pub fn lacking(mask: u64, other: u64) -> u64
    ensures { (s : ℕ) → s < 64 → (bit_at result s == 1) ≡ ((bit_at mask s == 1) && not (bit_at other s == 1)) }
{
    mask & !other
}

/// Whether a mask has a square: some square meets the test that the mask marks.
pub fn has_any(mask: u64) -> bool
    ensures { (test : ℕ → Bool) → Marks mask test → result ≡ some_square test }
{
    mask != 0
}
