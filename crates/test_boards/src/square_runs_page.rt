//! The example on the page of `square_runs`.

use square_runs::Runs;

/// The squares on which a board has differed for ten seconds or longer, of pictures with their times, in order.
fn long_different(pictures: &[(u64, u64)], now: u64) -> u64 {
    let mut runs = Runs::new();
    for (at, squares) in pictures {
        runs.take(*at, *squares);
    }
    runs.lasting(10_000, now)
}
