//! The example on the page of `board_cable`.

use board_cable::{Cable, Handling, Happened, What};
use std::alloc::{AllocError, Global};

/// How many bytes the game gets of a read of three, in which a fault comes, from a board whose number isn't known: what was
/// kept back, and the bytes themselves.
fn bytes_got(alloc: Global) -> Result<usize, AllocError> {
    let mut cable = Cable::new(alloc);
    let opens = Happened {
        at: 0,
        what: What::Opens,
    };
    cable.take(opens, &[])?;
    let hears = Happened {
        at: 90,
        what: What::Hears,
    };
    let answer = cable.take(hears, b"\x8E\x00\x07")?;
    let now: usize = match answer.handling {
        Handling::Keep => 3,
        Handling::Hold | Handling::Other(_) => 0,
    };
    Ok(cable.released().len().saturating_add(now))
}

#[test]
fn a_game_without_a_number_gets_all(rt: HostRuntime) {
    assert!(rt; matches!(bytes_got(rt.alloc()), Ok(3)));
}
