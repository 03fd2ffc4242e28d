//! The frames of what a board sends, and what they tell of its line.
ghost use Rattle.std.specs.Prelude.{◌≡◌, ◌∷◌, ◌++◌, [], ℕ, List, drop, if◌then◌else◌};
ghost use Rattle.dgt_frame.specs.Decoder.{Decoded};
ghost use Rattle.dgt_frame.specs.Streams.{Timed};
ghost use Rattle.board_cable.specs.declared.line.Event.{Event as ToldOf};
ghost use Rattle.board_cable.specs.Asking.{StandsFor};
ghost use Rattle.board_cable.specs.Moments.{is_anew};
ghost use Rattle.board_cable.specs.Frames.{HasFrames, TellsRead, last_five, number_in, told_of, with_happening, with_shown};

use crate::asking::Asking;
use crate::happened::{What, is_anew};
use crate::line::{Event as Told, Happening};
use crate::serial::serial_in;
use dgt_frame::{BLANK, Decoder, Event, Message};

/// Reads the frames of what a board sends.
#[derive(Clone, Copy)]
pub struct Frames {
    decoder: Decoder,
    /// The last five bytes, which are the data of a frame of eight that ends with them.
    last: [u8; 5],
}

/// Puts a byte behind the last four of five.
fn push(five: &mut [u8; 5], byte: u8)
    ensures { five.new ≡ drop 1 five.old ++ byte ∷ [] }
{
    let before = *five;
    *five = [before[1], before[2], before[3], before[4], byte];
}

/// The last five bytes, if these were the last five before.
fn last_five(last: [u8; 5], bytes: &[u8]) -> [u8; 5]
    ensures { (before : List ℕ) → last ≡ last_five before → result ≡ last_five (before ++ bytes.now) }
{
    let from = bytes.len().saturating_sub(5);
    let tail = &bytes[from..];
    let mut five = last;
    for byte in tail {
        push(&mut five, *byte);
    }
    five
}

/// The serial number that a message has with these data bytes.
fn number(id: u8, size: u16, characters: [u8; 5]) -> Option<Happening>
    ensures { result ≡ number_in id size characters }
{
    if size != 8 {
        return None;
    }
    match serial_in(id, &characters) {
        None => None,
        Some(number) => Some(Happening::Numbers(number)),
    }
}

/// What an event tells that comes with the last of these bytes.
fn told_of(event: &Event, last: [u8; 5], bytes: &[u8]) -> Option<Happening>
    ensures { (before : List ℕ) → last ≡ last_five before → result ≡ told_of event.now (before ++ bytes.now) }
{
    match event {
        Event::Fault(_) => Some(Happening::Faults),
        Event::Message(Message::Update { .. }) => Some(Happening::Updates),
        Event::Message(Message::Dump(codes)) => Some(Happening::Dumps(*codes)),
        Event::Message(Message::Time(_)) => None,
        Event::Message(Message::Other { id, size }) => {
            let characters = last_five(last, bytes);
            number(*id, *size, characters)
        }
    }
}

fn tell(at: u64, event: &Event, last: [u8; 5], bytes: &[u8], asking: &mut Asking)
    ensures { (before : List ℕ) (past : List ToldOf) → last ≡ last_five before → StandsFor asking.old past
        → StandsFor asking.new (with_happening at (told_of event.now (before ++ bytes.now)) past) }
{
    if let Event::Message(Message::Update { .. }) = event {
        asking.take_update(at);
        return;
    }
    if let Event::Message(Message::Dump(codes)) = event {
        asking.take_dump(at, codes);
        return;
    }
    if let Some(what) = told_of(event, last, bytes) {
        asking.take(Told { at, what });
    }
}

/// Tells what comes with these bytes.
fn tell_all(decoder: &mut Decoder, at: u64, last: [u8; 5], bytes: &[u8], asking: &mut Asking)
    ensures { (before : List ℕ) (old : List Timed) (past : List ToldOf) → last ≡ last_five before → Decoded decoder.old before old
        → StandsFor asking.old past → (new : List Timed) × Decoded decoder.new (before ++ bytes.now) (old ++ new)
        × StandsFor asking.new (with_shown at (before ++ bytes.now) new past) }
{
    let mut event = BLANK;
    let mut taken = 0;
    'events: while let Some(more) = decoder.push_into(&bytes[taken..], &mut event) {
        taken += more;
        tell(at, &event, last, &bytes[..taken], asking);
    }
}

impl Frames {
    /// Nothing was sent.
    pub fn new() -> Frames
        ensures { HasFrames result [] }
    {
        Frames {
            decoder: Decoder::new(),
            last: [0; 5],
        }
    }

    /// Reads frames anew, if this says so.
    pub fn begin_at(&mut self, what: What)
        ensures { (before : List ℕ) → HasFrames self.old before → HasFrames self.new (if is_anew what then [] else before) }
    {
        if is_anew(what) {
            *self = Frames::new();
        }
    }

    /// Takes what the board has sent, and tells what comes with it.
    pub fn hear(&mut self, at: u64, bytes: &[u8], asking: &mut Asking)
        ensures { (before : List ℕ) (past : List ToldOf) → HasFrames self.old before → StandsFor asking.old past
            → (now : List ToldOf) × TellsRead at before bytes.now past now × StandsFor asking.new now × HasFrames self.new (before ++ bytes.now) }
    {
        // For its clause: what the bytes before show.
        let _rest = self.decoder.pending();
        tell_all(&mut self.decoder, at, self.last, bytes, asking);
        self.last = last_five(self.last, bytes);
        let left = self.decoder.pending();
        asking.take(Told {
            at,
            what: Happening::Comes(0 < left),
        });
    }
}
