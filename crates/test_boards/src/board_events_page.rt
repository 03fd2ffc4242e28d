//! The example on the page of `board_events`.
ghost use Rattle.std.specs.Prelude.{◌<◌, All};

use board_events::{Session, Taken};
use chess_rules::Position;
use dgt_frame::{Event, First, Message};
use std::alloc::{AllocError, Global};

/// What a session from the initial position says of a first dump.
fn first_dump(alloc: Global, codes: [u8; 64]) -> Result<Taken, AllocError>
    requires { All (λ code. code < 16) codes }
{
    let mut session = Session::new(alloc, Position::initial(), First::White, false);
    session.take(Event::Message(Message::Dump(codes)))
}
