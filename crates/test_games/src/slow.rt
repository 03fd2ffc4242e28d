//! The events of a byte list, slowly: each frame is judged as a whole, by the rules of the protocol. From byte to byte
//! it is kept only where the frame began, or that bytes are skipped.

use dgt_frame::{Event, FaultKind, Message};

const DUMP: u8 = 0x86;

const UPDATE: u8 = 0x8E;

const TIME: u8 = 0x8D;

fn byte_at(bytes: &[u8], at: usize) -> u8 {
    match bytes.get(at) {
        Some(byte) => *byte,
        None => 0,
    }
}

fn begins_frame(byte: u8) -> bool {
    byte >= 0x80
}

/// The whole length that the second and third byte tell.
fn length_told(frame: &[u8]) -> usize {
    byte_at(frame, 1) as usize * 128 + byte_at(frame, 2) as usize
}

/// Whether a frame of this identifier may have this length.
fn may_have_length(identifier: u8, length: usize) -> bool {
    match identifier {
        DUMP => length == 67,
        UPDATE => length == 5,
        TIME => length == 10,
        _ => length >= 3 && length <= 16_383,
    }
}

/// Whether this may be the data byte at a place of the frame.
fn may_be_data(identifier: u8, place: usize, byte: u8) -> bool {
    if byte >= 0x80 {
        return false;
    }
    match identifier {
        DUMP => byte <= 15,
        UPDATE if place == 3 => byte <= 63,
        UPDATE => byte <= 15,
        _ => true,
    }
}

fn is_known(identifier: u8) -> bool {
    identifier == DUMP || identifier == UPDATE || identifier == TIME
}

/// Whether some well-formed frame begins with these bytes, of which there is at least one.
fn begins_well_formed(front: &[u8]) -> bool {
    let identifier = byte_at(front, 0);
    if !begins_frame(identifier) {
        return false;
    }
    if front.len() >= 2 {
        let second = byte_at(front, 1);
        if second >= 0x80 || (is_known(identifier) && second != 0) {
            return false;
        }
    }
    if front.len() >= 3 {
        let length = length_told(front);
        if byte_at(front, 2) >= 0x80 || !may_have_length(identifier, length) {
            return false;
        }
        if front.len() > length {
            return false;
        }
    }
    for place in 3..front.len() {
        if !may_be_data(identifier, place, byte_at(front, place)) {
            return false;
        }
    }
    true
}

fn is_well_formed(frame: &[u8]) -> bool {
    begins_well_formed(frame) && frame.len() >= 3 && frame.len() == length_told(frame)
}

/// The message of a well-formed frame.
fn message_of(frame: &[u8]) -> Message {
    match byte_at(frame, 0) {
        DUMP => {
            let mut codes = [0; 64];
            let mut place: usize = 3;
            for code in codes.iter_mut() {
                *code = byte_at(frame, place);
                place = place.saturating_add(1);
            }
            Message::Dump(codes)
        }
        UPDATE => Message::Update {
            field: byte_at(frame, 3),
            code: byte_at(frame, 4),
        },
        TIME => {
            let mut data = [0; 7];
            let mut place: usize = 3;
            for byte in data.iter_mut() {
                *byte = byte_at(frame, place);
                place = place.saturating_add(1);
            }
            Message::Time(data)
        }
        id => Message::Other {
            id,
            size: byte_at(frame, 1) as u16 * 128 + byte_at(frame, 2) as u16,
        },
    }
}

/// The fault at the last of these bytes, the front of no well-formed frame though all shorter fronts are.
fn fault_of(front: &[u8]) -> FaultKind {
    let last = front.len().saturating_sub(1);
    if begins_frame(byte_at(front, last)) {
        FaultKind::Cut
    } else if last <= 2 {
        FaultKind::Size
    } else {
        FaultKind::Data
    }
}

/// Where a byte list stands at its end.
#[derive(Clone, Copy, PartialEq)]
enum Stand {
    /// Before a frame, after a whole one or at the start.
    Between,
    /// After a fault, up to the next byte with its top bit set.
    Skipping,
    /// Inside the frame that begins at this place.
    Inside(usize),
}

/// The event at the last of these bytes, where one comes there, and the bytes of the unfinished frame.
pub fn last_event(bytes: &[u8]) -> (Option<Event>, usize) {
    let mut stand = Stand::Between;
    let mut event = None;
    let mut rest = 0;
    for end in 1..bytes.len().saturating_add(1) {
        let last = end.saturating_sub(1);
        let byte = byte_at(bytes, last);
        event = None;
        match stand {
            Stand::Between if !begins_frame(byte) => {
                event = Some(Event::Fault(FaultKind::Stray));
                stand = Stand::Skipping;
            }
            Stand::Skipping if !begins_frame(byte) => {}
            Stand::Between | Stand::Skipping => stand = Stand::Inside(last),
            Stand::Inside(start) => {
                let front = match bytes.get(start..end) {
                    Some(front) => front,
                    None => &[],
                };
                if is_well_formed(front) {
                    event = Some(Event::Message(message_of(front)));
                    stand = Stand::Between;
                } else if !begins_well_formed(front) {
                    let kind = fault_of(front);
                    event = Some(Event::Fault(kind));
                    stand = match kind {
                        FaultKind::Cut => Stand::Inside(last),
                        _ => Stand::Skipping,
                    };
                }
            }
        }
        rest = match stand {
            Stand::Inside(start) => end.saturating_sub(start),
            _ => 0,
        };
    }
    (event, rest)
}
