//! The example on the page of `board_standing`.

use board_standing::{Event, Kind, Standing};

/// Whether pieces stand wrongly on a board at a time, by what was heard of it.
fn is_wrong(heard: &[Event], now: u64) -> bool {
    let mut standing = Standing::new();
    for event in heard {
        standing.take(*event);
    }
    standing.state(now).kind == Kind::Wrong
}
