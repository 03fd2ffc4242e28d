//! The example on the page of `dgt_frame`.

use dgt_frame::{Decoder, Event};

/// The last event of these bytes. Of 8E 00 05 34 8E 00 05 34 00 it is the update of field 52 to the code 0, and before
/// it comes a fault, since the first update is cut off.
fn last_event(bytes: &[u8]) -> Option<Event> {
    let mut decoder = Decoder::new();
    let mut last = None;
    for byte in bytes.iter() {
        if let Some(event) = decoder.push(*byte) {
            last = Some(event);
        }
    }
    last
}

#[test]
fn the_last_event_is_an_update(rt: HostRuntime) {
    let last = last_event(b"\x8E\x00\x05\x34\x8E\x00\x05\x34\x00");
    let update = dgt_frame::Message::Update { field: 52, code: 0 };
    assert!(rt; last == Some(Event::Message(update)));
}
