//! Two tests, as a contract says them; and counting up to a limit.
ghost use Rattle.std.specs.Prelude.{◌≡◌, ◌<◌, ◌+◌, ◌&&◌, ◌||◌, min};

pub fn both(one: bool, other: bool) -> bool
    ensures { result ≡ (one && other) }
{
    one && other
}

pub fn either(one: bool, other: bool) -> bool
    ensures { result ≡ (one || other) }
{
    one || other
}

/// One more, but no more than are counted.
pub fn one_more(most: u64, before: u64) -> u64
    requires { 0 < most }
    ensures { result ≡ min most (before + 1) }
{
    before.min(most - 1) + 1
}
