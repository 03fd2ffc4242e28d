//! What a stream of bytes shows: the messages of the DGT Electronic Board Protocol, and this project's faults.

/// The most bytes that a stream of a board may have, 64 MiB. One more may be read, to see that a stream is too long.
pub const LIMIT: u32 = 67_108_864;

/// What a frame says (DGT Electronic Board Protocol). A decoder returns messages in these ranges alone.
#[derive(Clone, Copy, Debug, PartialEq, Eq)]
pub enum Message {
    /// A board dump: the piece codes of the 64 fields, 0 to 15 each, field 0 first.
    Dump([u8; 64]),
    /// A field update: one field, 0 to 63, and its new piece code, 0 to 15.
    Update { field: u8, code: u8 },
    /// A time message: its seven data bytes, 0 to 127 each, which `read_time` reads.
    Time([u8; 7]),
    /// Any other message: its identifier, 128 to 255, and the size of its frame, 3 to 16,383 bytes.
    Other { id: u8, size: u16 },
}

/// Why bytes are no frame. The fault stands at the first byte with which they neither are one nor begin one.
#[derive(Clone, Copy, Debug, PartialEq, Eq)]
pub enum FaultKind {
    /// A byte with its top bit set stands inside a frame. It begins the next one.
    Cut,
    /// A byte with its top bit clear stands where no frame is begun. It and those after it are skipped, without another
    /// fault, up to one with its top bit set.
    Stray,
    /// The second or third byte gives a size that the identifier can't have. What follows is skipped as after `Stray`.
    Size,
    /// A data byte is a field over 63 or a code over 15. What follows is skipped as after `Stray`.
    Data,
}

/// What comes at a byte: the message whose frame it ends, or the fault that stands at it.
#[derive(Clone, Copy, Debug, PartialEq, Eq)]
pub enum Event {
    Message(Message),
    Fault(FaultKind),
}
