//! Streams and frames, worked by hand from the protocol.
ghost use Rattle.dgt_frame.specs.Encoding.{IsEncodable};

use arrayvec::ArrayVec;
use dgt_frame::{BLANK, Decoder, Event, FaultKind, Message, encode};
use std::process::Abort;

/// The number of the first that doesn't hold.
pub fn first_false(holds: &[bool]) -> Option<usize> {
    for (i, holds) in holds.iter().enumerate() {
        if !*holds {
            return Some(i);
        }
    }
    None
}

/// Fails with the number of the first row that isn't as it says, if there is one.
pub fn expect_none(rt: &impl Abort, first: Option<usize>) {
    assert_eq!(rt; first, None);
}

/// The dump of the position that a game starts from.
static INITIAL: [u8; 67] = [
    0x86, 0x00, 0x43, 8, 9, 10, 12, 11, 10, 9, 8, 7, 7, 7, 7, 7, 7, 7, 7, 0, 0, 0, 0, 0, 0, 0, 0,
    0, 0, 0, 0, 0, 0, 0, 0, 0, 0, 0, 0, 0, 0, 0, 0, 0, 0, 0, 0, 0, 0, 0, 0, 1, 1, 1, 1, 1, 1, 1, 1,
    2, 3, 4, 6, 5, 4, 3, 2,
];

/// Its codes.
static CODES: [u8; 64] = [
    8, 9, 10, 12, 11, 10, 9, 8, 7, 7, 7, 7, 7, 7, 7, 7, 0, 0, 0, 0, 0, 0, 0, 0, 0, 0, 0, 0, 0, 0,
    0, 0, 0, 0, 0, 0, 0, 0, 0, 0, 0, 0, 0, 0, 0, 0, 0, 0, 1, 1, 1, 1, 1, 1, 1, 1, 2, 3, 4, 6, 5, 4,
    3, 2,
];

const CUT: Event = Event::Fault(FaultKind::Cut);

const STRAY: Event = Event::Fault(FaultKind::Stray);

const SIZE: Event = Event::Fault(FaultKind::Size);

const DATA: Event = Event::Fault(FaultKind::Data);

/// Bytes, the events that come in them, each with the offset of its byte, and how many bytes of a frame are left.
type Stream<'a> = (&'a [u8], &'a [(usize, Event)], u16);

/// Whether `push` returns these events at these offsets and no other, and `pending` is the rest.
fn push_shows(bytes: &[u8], events: &[(usize, Event)], rest: u16) -> bool {
    let mut decoder = Decoder::new();
    let mut seen = 0usize;
    for (offset, byte) in bytes.iter().enumerate() {
        if let Some(event) = decoder.push(*byte) {
            if !comes_at(events.get(seen), offset, event) {
                return false;
            }
            seen = seen.saturating_add(1);
        }
    }
    seen == events.len() && decoder.pending() == rest
}

/// Whether there is an event, it is this one, and it comes at this offset.
fn comes_at(expected: Option<&(usize, Event)>, offset: usize, event: Event) -> bool {
    match expected {
        Some((at, expected)) => *at == offset && *expected == event,
        None => false,
    }
}

/// Whether `push_into` comes to each of these events and to no other, and `pending` is the rest.
fn push_into_shows(bytes: &[u8], events: &[(usize, Event)], rest: u16) -> bool {
    let mut decoder = Decoder::new();
    let mut start = 0usize;
    for (offset, event) in events {
        let taken = offset.saturating_add(1).saturating_sub(start);
        if next_from(&mut decoder, bytes, start) != Some((taken, *event)) {
            return false;
        }
        start = offset.saturating_add(1);
    }
    start <= bytes.len()
        && next_from(&mut decoder, bytes, start).is_none()
        && decoder.pending() == rest
}

/// How many bytes the decoder takes from this offset on up to the next event, and the event.
fn next_from(decoder: &mut Decoder, bytes: &[u8], start: usize) -> Option<(usize, Event)> {
    let mut event = BLANK;
    let taken = decoder.push_into(bytes.get(start..)?, &mut event)?;
    Some((taken, event))
}

const FIRST_UPDATE: Event = Event::Message(Message::Update { field: 52, code: 0 });

const TIME: Event = Event::Message(Message::Time([0x01, 0x30, 0x00, 0x01, 0x29, 0x59, 0x00]));

const OTHER: Event = Event::Message(Message::Other { id: 0x93, size: 5 });

const EMPTY_IGNORED: Event = Event::Message(Message::Other { id: 0x80, size: 3 });

static STREAMS: [Stream<'static>; 17] = [
    (b"", &[], 0),
    (
        b"\x05\x34\x00\x8E\x00\x06\x8E\x00\x05\x40",
        &[(0, STRAY), (5, SIZE), (9, DATA)],
        0,
    ),
    (
        b"\x8E\x8E\x00\x05\x34\x00",
        &[(1, CUT), (5, FIRST_UPDATE)],
        0,
    ),
    (b"\x93\x00\x05\x01\x08", &[(4, OTHER)], 0),
    (b"\x93\x00\x02", &[(2, SIZE)], 0),
    (b"\x8E\x00\x05\x00\x10", &[(4, DATA)], 0),
    (b"\x80\x00\x03", &[(2, EMPTY_IGNORED)], 0),
    (b"\x86\x00\x42", &[(2, SIZE)], 0),
    (b"\x86\x01", &[(1, SIZE)], 0),
    (b"\x86\x00\x43\x10", &[(3, DATA)], 0),
    (b"\x8D\x00\x0A\x01\x30\x00\x01\x29\x59\x00", &[(9, TIME)], 0),
    (b"\x8D\x00\x0B", &[(2, SIZE)], 0),
    // what is passed over after a fault ends with a byte whose top bit is set
    (
        b"\x00\x00\x7F\x8E\x00\x05\x34\x00",
        &[(0, STRAY), (7, FIRST_UPDATE)],
        0,
    ),
    (b"\xFF", &[], 1),
    (b"\x93\x7F", &[], 2),
    (b"\x8E\x00\x05\x34", &[], 4),
    (b"\x86\x00\x43\x0F", &[], 4),
];

/// The number of the first stream of which `push` doesn't show the events.
fn first_not_pushed(streams: &[Stream<'_>]) -> Option<usize> {
    for (i, (bytes, events, rest)) in streams.iter().enumerate() {
        if !push_shows(bytes, events, *rest) {
            return Some(i);
        }
    }
    None
}

/// The same of `push_into`.
fn first_not_pushed_into(streams: &[Stream<'_>]) -> Option<usize> {
    for (i, (bytes, events, rest)) in streams.iter().enumerate() {
        if !push_into_shows(bytes, events, *rest) {
            return Some(i);
        }
    }
    None
}

/// Whether `push` and `push_into` show this message with the byte at this offset, which is the last, and nothing before
/// it.
fn is_message(bytes: &[u8], message: Message, last: u16) -> bool {
    let events = [(last as usize, Event::Message(message))];
    match bytes.get(..last as usize) {
        Some(short) => push_shows(bytes, &events, 0)
            && push_into_shows(bytes, &events, 0)
            && push_shows(short, &[], last)
            && push_into_shows(short, &[], last),
        None => false,
    }
}

/// Whether `encode` replaces what `out` holds by this frame.
fn encodes(message: &Message, frame: &[u8], out: &mut ArrayVec<u8, 67>) -> bool
    requires { IsEncodable message.now }
{
    encode(message, out);
    out.as_slice() == frame
}

fn dumps_show_their_codes() -> bool {
    is_message(&INITIAL, Message::Dump(CODES), 66)
}

/// The longest frame is of another message.
fn the_longest_frame_is_shown() -> bool {
    let mut bytes = [0u8; 16383];
    bytes[0] = 0x93;
    bytes[1] = 0x7F;
    bytes[2] = 0x7F;
    let longest = Message::Other {
        id: 0x93,
        size: 16383,
    };
    is_message(&bytes, longest, 16382)
}

fn frames_are_written() -> bool {
    let dump = Message::Dump(CODES);
    let update = Message::Update {
        field: 63,
        code: 15,
    };
    let time = Message::Time([0x01, 0x30, 0x00, 0x01, 0x29, 0x59, 0x7F]);
    let mut out: ArrayVec<u8, 67> = ArrayVec::new();
    encodes(&dump, &INITIAL, &mut out)
        && encodes(&update, b"\x8E\x00\x05\x3F\x0F", &mut out)
        && encodes(&time, b"\x8D\x00\x0A\x01\x30\x00\x01\x29\x59\x7F", &mut out)
}

#[test]
fn frames_are_shown_and_written(rt: HostRuntime) {
    let holds = [
        first_not_pushed(&STREAMS).is_none(),
        first_not_pushed_into(&STREAMS).is_none(),
        dumps_show_their_codes(),
        the_longest_frame_is_shown(),
        frames_are_written(),
    ];
    expect_none(&rt, first_false(&holds));
}
