//! The clocks that the plies of a pair keep.
ghost use Rattle.std.specs.Prelude.{All, ◌<◌};

use crate::games::changed;
use crate::shown_games::{has_moves, show};
use chess_clock::Hms;
use chess_rules::{Position, Square};
use dgt_frame::{First, read_time};
use settle_core::Settler;
use std::alloc::{AllocError, Global};
use unseen_pairs::Recoverer;

/// The hours, minutes and seconds of a clock.
type Clock = (u8, u8, u8);

/// The data of three time messages, one after the other: White 1:30:00, 1:29:50, 1:29:40; Black 1:30:00, 1:29:59,
/// 1:29:10.
const FIRST: [u8; 7] = [1, 0x30, 0, 1, 0x30, 0, 0];

const SECOND: [u8; 7] = [1, 0x29, 0x50, 1, 0x29, 0x59, 0];

const THIRD: [u8; 7] = [1, 0x29, 0x40, 1, 0x29, 0x10, 0];

/// The updates between the pictures of the initial position, after 1. e4 e5, and after 2. Nf3, with the time message
/// before each.
static SHOWN: [([u8; 7], &[(u8, u8)]); 3] = [
    (FIRST, &[]),
    (SECOND, &[(52, 0), (36, 1), (12, 0), (28, 7)]),
    (THIRD, &[(62, 0), (45, 3)]),
];

/// The picture with these codes on these squares; the same where the numbers are those of no square or no code.
fn with_updates(picture: &[u8; 64], updates: &[(u8, u8)]) -> [u8; 64]
    requires { All (λ code. code < 16) picture.now }
    ensures { All (λ code. code < 16) result }
{
    let mut picture = *picture;
    for (field, code) in updates {
        if let Some(at) = Square::new(*field)
            && *code < 16
        {
            picture = changed(&picture, at, *code);
        }
    }
    picture
}

/// Shows the three pictures, and no other.
fn show_three(alloc: Global, recoverer: &mut Recoverer) -> Result<(), AllocError> {
    let mut picture = Position::initial().picture();
    for (data, updates) in SHOWN.iter() {
        picture = with_updates(&picture, updates);
        let reading = read_time(data, First::White, None);
        show(alloc, recoverer, &picture, reading)?;
    }
    Ok(())
}

fn is_clock(shown: Option<Hms>, clock: Clock) -> bool {
    match shown {
        Some(shown) => {
            shown.hours == clock.0 && shown.minutes == clock.1 && shown.seconds == clock.2
        }
        None => false,
    }
}

/// Whether the plies have these clocks.
fn has_clocks(settler: &Settler, clocks: &[Clock]) -> bool {
    for (i, ply) in settler.moves().iter().enumerate() {
        let Some(clock) = clocks.get(i) else {
            return false;
        };
        if !is_clock(ply.clock, *clock) {
            return false;
        }
    }
    true
}

/// Whether e4 and e5 have the clocks of the picture that shows both, and Nf3 that of its own.
fn pair_keeps_its_reading(alloc: Global) -> Result<bool, AllocError> {
    let mut recoverer = Recoverer::new(alloc, Position::initial());
    show_three(alloc, &mut recoverer)?;
    let settler = recoverer.settler();
    Ok(
        has_moves(settler, &[(52, 36), (12, 28), (62, 45)])
            && has_clocks(settler, &[(1, 29, 50), (1, 29, 59), (1, 29, 40)]),
    )
}

#[test]
fn the_plies_have_the_clocks_of_the_picture_that_they_explain(rt: HostRuntime) {
    assert!(rt; pair_keeps_its_reading(rt.alloc()) == Ok(true));
}
