//! The decoder: one byte in, at most one event out.
ghost use Rattle.std.specs.Prelude.{◌≡◌, ◌≤◌, ◌<◌, ◌+◌, ◌*◌, ◌↔◌, ℕ, List, [], ◌∷◌, ◌++◌, length, take, IsTrue, Some, IfNone, IfSome, slice_set};
ghost use Rattle.dgt_frame.specs.Frames.{Frame};
ghost use Rattle.dgt_frame.specs.Room.{has_room};
ghost use Rattle.dgt_frame.specs.Streams.{HasFrame, Timed, Shows};
ghost use Rattle.dgt_frame.specs.Inside.Stored.{message_stored};
ghost use Rattle.dgt_frame.specs.Layout.{fixed_size, byte_limit, FitsData, FitsSize, IsHeader};

use crate::events::{Event, FaultKind, Message};
use crate::whole::whole;

/// The top bit of a byte, which the first byte of a frame alone has set.
pub(crate) const TOP_BIT: u8 = 0x80;

/// The identifier of a dump.
pub(crate) const DUMP: u8 = 0x86;

/// The identifier of a field update.
pub(crate) const UPDATE: u8 = 0x8E;

/// The identifier of a time message.
pub(crate) const TIME: u8 = 0x8D;

/// The size of a dump's frame.
pub(crate) const DUMP_SIZE: u8 = 67;

/// The size of an update's frame.
pub(crate) const UPDATE_SIZE: u8 = 5;

/// The size of a time message's frame.
pub(crate) const TIME_SIZE: u8 = 10;

/// How many fields a board has. Each field's number is below it.
pub(crate) const FIELDS: u8 = 64;

/// Each piece code is below it.
pub(crate) const CODES: u8 = 16;

/// The size of a frame without data.
const NO_DATA: u16 = 3;

/// The most data bytes of a frame whose data matters.
const STORED: u16 = 64;

#[derive(Clone, Copy, Debug)]
enum State {
    /// No frame is begun.
    Idle,
    /// After a fault, up to the next byte with its top bit set.
    Skipping,
    /// One byte of a frame has come.
    Identified { id: u8 },
    /// Two bytes of a frame have come.
    Measured { id: u8, high: u8 },
    /// The header and `count` data bytes of a frame of `size` bytes have come.
    Filling { id: u8, size: u16, count: u16 },
}

/// What a place for events holds before one is put there.
pub const BLANK: Event = Event::Fault(FaultKind::Stray);

/// What one byte does.
#[derive(Clone, Copy, Debug)]
enum Progress {
    /// No event comes at it.
    Waits,
    /// It can't stand where it does.
    Fails(FaultKind),
    /// It is the last of a frame, whose data is stored.
    Ends { id: u8, size: u16 },
}

/// Finds the messages and faults in a stream of bytes (DGT Electronic Board Protocol), in whatever chunks they come. It
/// takes no memory and refuses nothing.
#[derive(Clone, Copy, Debug)]
pub struct Decoder {
    state: State,
    stored: [u8; 64],
    ghost room: { IsTrue (has_room state) },
}

impl Decoder {
    ghost use Rattle.dgt_frame.specs.Decoder.{Decoded, TakesAll, TakesUpTo, timed};
    ghost use Rattle.dgt_frame.specs.Inside.Steps.{TakesByte, event_at_byte};

    /// A decoder that was given no byte.
    pub fn new() -> Decoder
        ensures { Decoded result [] [] }
    {
        Decoder {
            state: State::Idle,
            stored: [0; 64],
        }
    }

    /// How many bytes of an unfinished frame have come, 0 to 16,382: 0 between frames and while bytes are skipped.
    pub fn pending(&self) -> u16
        ensures { (bytes : List ℕ) (events : List Timed) → Decoded self.now bytes events → Shows bytes events result }
    {
        match self.state {
            State::Idle => 0,
            State::Skipping => 0,
            State::Identified { .. } => 1,
            State::Measured { .. } => 2,
            State::Filling { count, .. } => count + 3,
        }
    }

    /// Takes the next byte, which may be any. Returns the event that comes at it: the message whose frame it ends, or
    /// the fault that stands at it. `None` where no event comes.
    pub fn push(&mut self, byte: u8) -> Option<Event>
        // Before, the decoder was given some bytes, and returned some events. Now it was given this byte too, and has
        // returned the event that comes at it too, if one does.
        ensures decoded { (bytes : List ℕ) (events : List Timed) → Decoded self.old bytes events
            → Decoded self.new (bytes ++ byte ∷ []) (events ++ timed (length bytes) result) }
        ensures frame { (bytes : List ℕ) (events : List Timed) → Decoded self.old bytes events → IfSome result HasFrame }
    {
        match self.step(byte) {
            Progress::Waits => None,
            Progress::Fails(kind) => Some(Event::Fault(kind)),
            Progress::Ends { id, size } => Some(Event::Message(message(id, size, &self.stored))),
        }
    }

    /// Takes bytes up to the first at which an event comes, or all of them where none comes and the result is `None`.
    /// It does what `push` does byte by byte, in less time. The event is put where the caller wants it, and the result
    /// is how many bytes were taken up to it, its own among them, and at least 1. Where none comes, `event` says
    /// nothing.
    pub fn push_into(&mut self, bytes: &[u8], event: &mut Event) -> Option<usize>
        ensures none { IfNone result (TakesAll self.old bytes.now self.new) }
        ensures some { IfSome result (λ taken. TakesUpTo self.old bytes.now taken event.new self.new) }
        ensures taken { IfSome result (λ taken. (0 < taken) × (taken ≤ length bytes.now)) }
        ensures frame { (before : List ℕ) (events : List Timed) → Decoded self.old before events
            → IfSome result (λ taken. HasFrame event.new) }
    {
        if self.is_idle() {
            if let Some(size) = whole(bytes, event) {
                return Some(size);
            }
        }
        self.push_each(bytes, event)
    }

    /// The same, byte by byte.
    fn push_each(&mut self, bytes: &[u8], event: &mut Event) -> Option<usize>
        ensures none { IfNone result (TakesAll self.old bytes.now self.new) }
        ensures some { IfSome result (λ taken. TakesUpTo self.old bytes.now taken event.new self.new) }
        ensures taken { IfSome result (λ taken. (0 < taken) × (taken ≤ length bytes.now)) }
        ensures frame { (before : List ℕ) (events : List Timed) → Decoded self.old before events
            → IfSome result (λ taken. HasFrame event.new) }
    {
        for (i, byte) in bytes.iter().enumerate() {
            let taken = i + 1;
            match self.step(*byte) {
                Progress::Waits => {}
                Progress::Fails(kind) => {
                    *event = Event::Fault(kind);
                    return Some(taken);
                }
                Progress::Ends { id, size } => {
                    *event = Event::Message(message(id, size, &self.stored));
                    return Some(taken);
                }
            }
        }
        None
    }

    /// Whether no frame is begun, and no bytes are skipped.
    fn is_idle(&self) -> bool
        ensures { IsTrue result ↔ (self.now.state ≡ State.Idle) }
    {
        matches!(self.state, State::Idle)
    }

    fn step(&mut self, byte: u8) -> Progress
        ensures { TakesByte self.old byte (event_at_byte result self.new.stored) self.new }
    {
        if byte >= TOP_BIT {
            return self.begin(byte);
        }
        match self.state {
            State::Idle => self.fail(FaultKind::Stray),
            State::Skipping => Progress::Waits,
            State::Identified { id } => {
                if byte > 0 && fixed_size(id) > 0 {
                    return self.fail(FaultKind::Size);
                }
                self.state = State::Measured { id, high: byte };
                Progress::Waits
            }
            State::Measured { id, high } => self.measure(id, high, byte),
            State::Filling { id, size, count } => self.fill(id, size, count, byte),
        }
    }

    fn fail(&mut self, kind: FaultKind) -> Progress
        ensures skips { self.new.state ≡ State.Skipping }
        ensures fault { result ≡ Progress.Fails kind }
    {
        self.state = State::Skipping;
        Progress::Fails(kind)
    }

    fn begin(&mut self, id: u8) -> Progress
        requires { 128 ≤ id }
        ensures { TakesByte self.old id (event_at_byte result self.new.stored) self.new }
    {
        let before = self.state;
        self.state = State::Identified { id };
        match before {
            State::Idle | State::Skipping => Progress::Waits,
            _ => Progress::Fails(FaultKind::Cut),
        }
    }

    fn measure(&mut self, id: u8, high: u8, low: u8) -> Progress
        requires state { self.old.state ≡ State.Measured id high }
        requires low { low < 128 }
        ensures { TakesByte self.old low (event_at_byte result self.new.stored) self.new }
    {
        let size = u16::from(high) * 128 + u16::from(low);
        if !fits_size(id, size) {
            return self.fail(FaultKind::Size);
        }
        if size == NO_DATA {
            self.state = State::Idle;
            return Progress::Ends { id, size };
        }
        self.state = State::Filling { id, size, count: 0 };
        Progress::Waits
    }

    fn fill(&mut self, id: u8, size: u16, count: u16, byte: u8) -> Progress
        requires state { self.old.state ≡ State.Filling id size count }
        requires room { count + 3 < size }
        requires byte { byte < 128 }
        ensures { TakesByte self.old byte (event_at_byte result self.new.stored) self.new }
    {
        if byte >= byte_limit(id, count) {
            return self.fail(FaultKind::Data);
        }
        store(&mut self.stored, count, byte);
        if count + 4 < size {
            self.state = State::Filling {
                id,
                size,
                count: count + 1,
            };
            return Progress::Waits;
        }
        self.state = State::Idle;
        Progress::Ends { id, size }
    }
}

fn fixed_size(id: u8) -> u8
    ensures { result ≡ fixed_size id }
{
    match id {
        DUMP => DUMP_SIZE,
        UPDATE => UPDATE_SIZE,
        TIME => TIME_SIZE,
        _ => 0,
    }
}

fn fits_size(id: u8, size: u16) -> bool
    ensures { IsTrue result ↔ FitsSize id size }
{
    let fixed = u16::from(fixed_size(id));
    size >= NO_DATA && (fixed == 0 || size == fixed)
}

fn store(stored: &mut [u8; 64], index: u16, byte: u8)
    ensures set { index < 64 → stored.new ≡ slice_set stored.old index byte }
    ensures len { length stored.new ≡ 64 }
{
    if index < STORED {
        stored[index as usize] = byte;
    }
}

fn byte_limit(id: u8, index: u16) -> u8
    ensures { result ≡ byte_limit id index }
{
    match id {
        DUMP => CODES,
        UPDATE => { if index == 0 { FIELDS } else { CODES } }
        _ => TOP_BIT,
    }
}

/// The message of a whole frame, whose data is stored.
fn message(id: u8, size: u16, stored: &[u8; 64]) -> Message
    ensures { result ≡ message_stored id size stored.now }
{
    match id {
        DUMP => Message::Dump(*stored),
        UPDATE => Message::Update {
            field: stored[0],
            code: stored[1],
        },
        TIME => Message::Time([
            stored[0], stored[1], stored[2], stored[3], stored[4], stored[5], stored[6],
        ]),
        _ => Message::Other { id, size },
    }
}
