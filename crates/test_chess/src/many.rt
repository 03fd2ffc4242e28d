//! How long a pair waits for what confirms it.
ghost use Rattle.std.specs.Prelude.{All, ◌<◌};

use crate::shown_games::{after_two, has_moves, show};
use chess_rules::Position;
use std::alloc::{AllocError, Global};
use unseen_pairs::Recoverer;

/// The initial position's picture with the knight of g1 in hand, and this code on b1.
fn in_hand(b1: u8) -> [u8; 64]
    requires { b1 < 16 }
    ensures { All (λ code. code < 16) result }
{
    let mut picture = Position::initial().picture();
    picture[57] = b1;
    picture[62] = 0;
    picture
}

/// So many pictures with knights in hand, which no pair explains.
fn show_hands(alloc: Global, recoverer: &mut Recoverer, count: u16) -> Result<(), AllocError> {
    for i in 0..count {
        let b1 = if i % 2 == 0 { 0 } else { 3 };
        show(alloc, recoverer, &in_hand(b1), None)?;
    }
    Ok(())
}

/// 1. e4 e5 in one picture, so many pictures with knights in hand, and 2. Nf3.
fn show_all(alloc: Global, recoverer: &mut Recoverer, count: u16) -> Result<(), AllocError> {
    show(alloc, recoverer, &after_two(3, 0), None)?;
    show_hands(alloc, recoverer, count)?;
    show(alloc, recoverer, &after_two(0, 3), None)?;
    Ok(())
}

/// Whether the line is then the three plies, where there is memory.
fn is_recovered_after(alloc: Global, count: u16) -> Option<bool> {
    let mut recoverer = Recoverer::new(alloc, Position::initial());
    if show_all(alloc, &mut recoverer, count).is_err() {
        return None;
    }
    Some(has_moves(recoverer.settler(), &[(52, 36), (12, 28), (62, 45)]))
}

#[test]
fn the_last_256_pictures_are_kept(rt: HostRuntime) {
    let answers = [
        is_recovered_after(rt.alloc(), 255),
        is_recovered_after(rt.alloc(), 256),
    ];
    assert!(rt; answers == [Some(true), Some(false)]);
}
