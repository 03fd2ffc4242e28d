//! How long one thing has held. Times and spans are in milliseconds; a time that is `None` never comes.
ghost use Rattle.std.specs.Prelude.{◌≡◌, ◌<◌, ◌≤◌, ◌^◌, ℕ, IfSome};
ghost use Rattle.square_runs.specs.Lasting.{IsBefore, carry, earlier, has_lasted, will_have_lasted};

/// Since when something holds without a break, if before it held since `since`, and from `at` on it holds or doesn't.
pub fn carried(holds: bool, at: u64, since: Option<u64>) -> Option<u64>
    ensures { result ≡ carry holds at since }
{
    match (holds, since) {
        (false, _) => None,
        (true, None) => Some(at),
        (true, Some(since)) => Some(since),
    }
}

/// Whether at `now` what holds since `since` has held for `span` or longer.
pub fn lasted(span: u64, now: u64, since: Option<u64>) -> bool
    ensures { result ≡ has_lasted span now since }
{
    match since {
        None => false,
        Some(since) => since <= now && span <= now - since,
    }
}

/// The earlier of two times.
pub fn earlier(one: Option<u64>, other: Option<u64>) -> Option<u64>
    ensures { result ≡ earlier one other }
{
    match (one, other) {
        (None, other) => other,
        (Some(one), None) => Some(one),
        (Some(one), Some(other)) => Some(one.min(other)),
    }
}

/// The earlier of `due` and the time at which what holds since `since` will have held for `span`. That time counts only
/// where it is after `now` and below 2^64.
pub fn sooner(due: Option<u64>, span: u64, now: u64, since: Option<u64>) -> Option<u64>
    ensures is { result ≡ earlier due (will_have_lasted span now since) }
    ensures later { IfSome due (λ d. now < d) → IfSome result (λ d. now < d) }
    ensures before { (later : ℕ) → later < 2 ^ 64 → IsBefore later result → IsBefore later due }
    ensures same { (later : ℕ) → later < 2 ^ 64 → now ≤ later → IsBefore later result
        → has_lasted span later since ≡ has_lasted span now since }
{
    let Some(since) = since else {
        return due;
    };
    let Some(then) = since.checked_add(span) else {
        return due;
    };
    if then <= now {
        return due;
    }
    match due {
        None => Some(then),
        Some(due) => Some(due.min(then)),
    }
}
