//! Messages to frames.
ghost use Rattle.std.specs.Prelude.{◌≡◌, ◌++◌, length, ◌+◌, ◌≤◌};
ghost use Rattle.dgt_frame.specs.Frames.{Frame};
ghost use Rattle.dgt_frame.specs.Encoding.{IsEncodable};

use crate::decode::{DUMP, DUMP_SIZE, TIME, TIME_SIZE, UPDATE, UPDATE_SIZE};
use crate::events::Message;
use arrayvec::ArrayVec;

/// Replaces what `out` holds by the frame of the message (DGT Electronic Board Protocol). A dump has codes of at most
/// 15, an update a field of at most 63 and such a code, a time message bytes below 128; an `Other` message has no frame
/// of its own, since its data isn't known.
pub fn encode(message: &Message, out: &mut ArrayVec<u8, 67>)
    requires { IsEncodable message.now }
    ensures { Frame message.now out.new.items }
{
    out.clear();
    match message {
        Message::Dump(codes) => {
            add(out, &[DUMP, 0, DUMP_SIZE]);
            add(out, codes);
        }
        Message::Update { field, code } => add(out, &[UPDATE, 0, UPDATE_SIZE, *field, *code]),
        Message::Time(times) => {
            add(out, &[TIME, 0, TIME_SIZE]);
            add(out, times);
        }
        Message::Other { .. } => unreachable!(),
    }
}

fn add(out: &mut ArrayVec<u8, 67>, bytes: &[u8])
    requires { length out.old.items + length bytes.now ≤ 67 }
    ensures { out.new.items ≡ out.old.items ++ bytes.now }
{
    if out.try_extend_from_slice(bytes).is_err() {
        unreachable!();
    }
}
