//! Frames that lie whole at the front of bytes.
ghost use Rattle.std.specs.Prelude.{IfSome};
ghost use Rattle.dgt_frame.specs.Inside.Whole.{IsWhole};

use crate::decode::{CODES, DUMP, FIELDS, TIME, TOP_BIT, UPDATE};
use crate::events::{Event, Message};
use std::simd::prelude::*;

/// The dump whose frame the bytes begin with, and the size of that frame.
fn dump(bytes: &[u8], event: &mut Event) -> Option<usize>
    ensures { IfSome result (λ size. IsWhole bytes.now size event.new) }
{
    if bytes.len() < 67 || bytes[0] != DUMP || bytes[1] != 0 || bytes[2] != 67 {
        return None;
    }
    let codes = u8x64::from_slice(&bytes[3..]);
    if codes.simd_ge(u8x64::splat(CODES)).to_bitmask() == 0 {
        *event = Event::Message(Message::Dump(codes.to_array()));
        Some(67)
    } else {
        None
    }
}

/// The update whose frame the bytes begin with, and the size of that frame.
fn update(bytes: &[u8], event: &mut Event) -> Option<usize>
    ensures { IfSome result (λ size. IsWhole bytes.now size event.new) }
{
    if bytes.len() < 5 || bytes[0] != UPDATE || bytes[1] != 0 || bytes[2] != 5 {
        return None;
    }
    let field = bytes[3];
    let code = bytes[4];
    if field < FIELDS && code < CODES {
        *event = Event::Message(Message::Update { field, code });
        Some(5)
    } else {
        None
    }
}

/// The time message whose frame the bytes begin with, and the size of that frame.
fn time(bytes: &[u8], event: &mut Event) -> Option<usize>
    ensures { IfSome result (λ size. IsWhole bytes.now size event.new) }
{
    if bytes.len() < 10 || bytes[0] != TIME || bytes[1] != 0 || bytes[2] != 10 {
        return None;
    }
    let times = [
        bytes[3], bytes[4], bytes[5], bytes[6], bytes[7], bytes[8], bytes[9],
    ];
    if times[0] < TOP_BIT
        && times[1] < TOP_BIT
        && times[2] < TOP_BIT
        && times[3] < TOP_BIT
        && times[4] < TOP_BIT
        && times[5] < TOP_BIT
        && times[6] < TOP_BIT
    {
        *event = Event::Message(Message::Time(times));
        Some(10)
    } else {
        None
    }
}

/// The dump, update or time whose frame the bytes begin with, where all of it is there, and the size of that frame.
pub fn whole(bytes: &[u8], event: &mut Event) -> Option<usize>
    ensures { IfSome result (λ size. IsWhole bytes.now size event.new) }
{
    if bytes.is_empty() {
        return None;
    }
    match bytes[0] {
        UPDATE => update(bytes, event),
        DUMP => dump(bytes, event),
        TIME => time(bytes, event),
        _ => None,
    }
}
