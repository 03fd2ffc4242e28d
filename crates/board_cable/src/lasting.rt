//! How long ago something was.
ghost use Rattle.std.specs.Prelude.{◌≡◌, ◌<◌, ◌≤◌, ◌^◌, ◌&&◌, ◌||◌, ℕ, IfSome, false, true};
ghost use Rattle.board_cable.specs.Lasting.{has_come, has_lasted, is_past, IsBefore, IsOneOf};

/// Whether this time has passed since then.
pub fn lasted(span: u64, now: u64, since: Option<u64>) -> bool
    requires { 0 < span }
    ensures { result ≡ has_lasted span now since }
{
    match since {
        None => false,
        Some(since) => span <= now.saturating_sub(since),
    }
}

/// Whether a time has come. None never does.
pub fn has_come(now: u64, time: Option<u64>) -> bool
    ensures { result ≡ has_come now time }
{
    match time {
        None => false,
        Some(time) => time <= now,
    }
}

/// When this time will have passed since then.
pub fn after(span: u64, since: Option<u64>) -> Option<u64>
    ensures { (now : ℕ) → now < 2 ^ 64 → has_come now result ≡ has_lasted span now since }
{
    match since {
        None => None,
        Some(since) => since.checked_add(span),
    }
}

/// The same, or at once if there is no such time.
pub fn at_once_or_after(span: u64, since: Option<u64>) -> Option<u64>
    ensures { (now : ℕ) → now < 2 ^ 64 → has_come now result ≡ is_past span now since }
{
    match since {
        None => Some(0),
        Some(since) => after(span, Some(since)),
    }
}

/// The later of two times.
pub fn later(one: Option<u64>, other: Option<u64>) -> Option<u64>
    ensures { (now : ℕ) → has_come now result ≡ (has_come now one && has_come now other) }
{
    match (one, other) {
        (None, _) | (_, None) => None,
        (Some(one), Some(other)) => Some(one.max(other)),
    }
}

/// The sooner of two times.
pub fn sooner(one: Option<u64>, other: Option<u64>) -> Option<u64>
    ensures come { (now : ℕ) → has_come now result ≡ (has_come now one || has_come now other) }
    ensures before { (now : ℕ) → IsBefore now result → IsBefore now one × IsBefore now other }
    ensures is { IsOneOf one other result }
{
    match (one, other) {
        (None, other) => other,
        (Some(one), None) => Some(one),
        (Some(one), Some(other)) => if one <= other { Some(one) } else { Some(other) },
    }
}

/// A time, if it is still to come.
pub fn to_come(now: u64, time: Option<u64>) -> Option<u64>
    ensures come { IfSome result (λ due. (has_come now time ≡ false) × (has_come due time ≡ true)) }
    ensures later { IfSome result (λ due. now < due) }
    ensures same { (later : ℕ) → now ≤ later → IsBefore later result → has_come later time ≡ has_come now time }
{
    match time {
        Some(time) if now < time => Some(time),
        _ => None,
    }
}
