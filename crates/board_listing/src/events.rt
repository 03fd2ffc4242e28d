//! Lines of `show`: one for each event, and one for the rest.
ghost use Rattle.std.specs.Prelude.{◌≡◌, ◌<◌, ◌≤◌, ◌+◌, ◌++◌, ◌∷◌, ℕ, List, length, map, All};
ghost use Rattle.std.specs.List.{flat_map};
ghost use Rattle.dgt_frame.specs.Frames.{Frame};
ghost use Rattle.dgt_frame.specs.Streams.{HasFrame};
ghost use Rattle.arrayvec.specs.ArrayVec.{array_vec_len};
ghost use Rattle.board_listing.specs.EventLines.{hex_digit, two_hex_digits, kind_text, message_text, event_text, line_of, rest_line};

use dgt_frame::{Event, FaultKind, Message};
use watched_streams::{GATHERED, LONGEST, Lines, add, add_number};

fn hex_digit(n: u8) -> u8
    requires { n < 16 }
    ensures { result ≡ hex_digit n }
{
    if n < 10 { b'0' + n } else { b'a' - 10 + n }
}

fn add_byte(lines: &mut Lines, byte: u8)
    requires { array_vec_len lines.old + 2 ≤ GATHERED }
    ensures items { lines.new.items ≡ lines.old.items ++ two_hex_digits byte }
    ensures len { array_vec_len lines.new ≡ array_vec_len lines.old + 2 }
{
    add(lines, &[hex_digit(byte / 16), hex_digit(byte % 16)]);
}

fn kind_text(kind: FaultKind) -> &'static [u8]
    ensures text { result.now ≡ kind_text kind }
    ensures len { length result.now ≤ 5 }
{
    match kind {
        FaultKind::Cut => b"cut",
        FaultKind::Stray => b"stray",
        FaultKind::Size => b"size",
        FaultKind::Data => b"data",
    }
}

fn add_codes(lines: &mut Lines, pieces: &[u8; 64])
    requires room { array_vec_len lines.old + 64 ≤ GATHERED }
    requires codes { All (λ code. code < 16) pieces.now }
    ensures items { lines.new.items ≡ lines.old.items ++ map hex_digit pieces.now }
    ensures len { array_vec_len lines.new ≡ array_vec_len lines.old + 64 }
{
    for code in pieces {
        lines.push(hex_digit(*code));
    }
}

fn add_times(lines: &mut Lines, times: &[u8; 7])
    requires room { array_vec_len lines.old + 21 ≤ GATHERED }
    ensures items { lines.new.items ≡ lines.old.items ++ flat_map (λ byte. 32 ∷ two_hex_digits byte) times.now }
    ensures len { array_vec_len lines.new ≡ array_vec_len lines.old + 21 }
{
    for byte in times {
        lines.push(b' ');
        add_byte(lines, *byte);
    }
}

fn add_message(lines: &mut Lines, message: &Message)
    requires room { array_vec_len lines.old + 80 ≤ GATHERED }
    requires frame { (frame : List ℕ) × Frame message.now frame }
    ensures items { lines.new.items ≡ lines.old.items ++ message_text message.now }
    ensures len { array_vec_len lines.new ≤ array_vec_len lines.old + 80 }
{
    match message {
        Message::Dump(pieces) => {
            add(lines, b"dump ");
            add_codes(lines, pieces);
        }
        Message::Update { field, code } => {
            add(lines, b"update ");
            add_number(lines, u32::from(*field));
            lines.push(b' ');
            add_number(lines, u32::from(*code));
        }
        Message::Time(times) => {
            add(lines, b"time");
            add_times(lines, times);
        }
        Message::Other { id, size } => {
            add(lines, b"other ");
            add_byte(lines, *id);
            add(lines, b" ");
            add_number(lines, u32::from(*size));
        }
    }
}

fn add_event(lines: &mut Lines, event: &Event)
    requires room { array_vec_len lines.old + 80 ≤ GATHERED }
    requires frame { HasFrame event.now }
    ensures items { lines.new.items ≡ lines.old.items ++ event_text event.now }
    ensures len { array_vec_len lines.new ≤ array_vec_len lines.old + 80 }
{
    match event {
        Event::Message(message) => add_message(lines, message),
        Event::Fault(kind) => {
            add(lines, b"fault ");
            add(lines, kind_text(*kind));
        }
    }
}

/// Adds the line of an event at this offset.
pub fn add_line(lines: &mut Lines, offset: u32, event: &Event)
    requires room { array_vec_len lines.old + LONGEST ≤ GATHERED }
    requires frame { HasFrame event.now }
    ensures items { lines.new.items ≡ lines.old.items ++ line_of (record { offset = offset; event = event.now }) }
    ensures len { array_vec_len lines.new ≤ array_vec_len lines.old + LONGEST }
{
    add_number(lines, offset);
    lines.push(b' ');
    add_event(lines, event);
    lines.push(b'\n');
}

/// Adds the last line.
pub fn add_rest(lines: &mut Lines, rest: u16)
    requires { array_vec_len lines.old + LONGEST ≤ GATHERED }
    ensures { lines.new.items ≡ lines.old.items ++ rest_line rest }
{
    add(lines, b"rest ");
    add_number(lines, u32::from(rest));
    add(lines, b"\n");
}
