//! The placement of the picture that a board shows now.
ghost use Rattle.std.specs.Prelude.{◌≡◌};
ghost use Rattle.dgt_frame.specs.Streams.{HasFrame};
ghost use Rattle.board_events.specs.History.{codes_by_field};
ghost use Rattle.chess_text.specs.KeptRanks.{picture_in};
ghost use Rattle.board_listing.specs.Inside.Drawing.{drawn};

use chess_text::PlacementText;
use dgt_frame::{Event, Message};

/// The codes by square.
fn turned(rotated: bool, codes: &[u8; 64]) -> [u8; 64]
    ensures { result ≡ codes_by_field rotated codes.now }
{
    let mut picture = *codes;
    if rotated {
        picture.reverse();
    }
    picture
}

/// Draws the picture that an event shows.
pub fn draw(placement: &mut PlacementText, rotated: bool, event: &Event)
    requires { HasFrame event.now }
    ensures { picture_in placement.new ≡ drawn rotated event.now (picture_in placement.old) }
{
    match event {
        Event::Message(Message::Dump(codes)) => placement.show(&turned(rotated, codes)),
        Event::Message(Message::Update { field, code }) => {
            let square = if rotated { 63 - *field } else { *field };
            placement.change(square, *code);
        }
        _ => {}
    }
}
