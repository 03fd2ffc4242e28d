//! The decoder against a slow reading of the protocol.

use crate::slow::last_event;
use dgt_frame::Decoder;

/// The bytes of the short lists: those that bound something in the protocol.
const EDGES: [u8; 10] = [0x00, 0x03, 0x05, 0x43, 0x7F, 0x80, 0x86, 0x8D, 0x8E, 0xFF];

/// At each byte `push` returns what the slow reading of all bytes up to there says, and so does `pending`; before any
/// it is 0.
pub fn agrees(bytes: &[u8]) -> bool {
    let mut decoder = Decoder::new();
    if decoder.pending() != 0 {
        return false;
    }
    let mut len: usize = 0;
    for byte in bytes {
        len = len.saturating_add(1);
        let pushed = decoder.push(*byte);
        let front = match bytes.get(..len) {
            Some(front) => front,
            None => &[],
        };
        let (event, rest) = last_event(front);
        if pushed != event || decoder.pending() as usize != rest {
            return false;
        }
    }
    true
}

/// The first list of four such bytes that doesn't agree. `agrees` looks at each front too, so these are all lists of at
/// most four bytes.
fn first_short_list() -> Option<[u8; 4]> {
    for a in EDGES {
        for b in EDGES {
            for c in EDGES {
                for d in EDGES {
                    if !agrees(&[a, b, c, d]) {
                        return Some([a, b, c, d]);
                    }
                }
            }
        }
    }
    None
}

#[test]
fn short_lists_are_decoded_as_the_protocol_says(rt: HostRuntime) {
    assert!(rt; agrees(&[]) && first_short_list().is_none());
}
