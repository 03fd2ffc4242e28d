//! The frames of a pair.
ghost use Rattle.std.specs.Prelude.{ℕ, ◌≡◌, ◌≤◌, ◌<◌, ◌+◌, ◌++◌, [], ◌∷◌, List, All, length, ◌↔◌, IsTrue};
ghost use Rattle.std.specs.List.{AllByRecursion};
ghost use Rattle.dgt_frame.specs.declared.events.Event.{Event as EventOf};
ghost use Rattle.dgt_frame.specs.declared.events.Event.TheVariants.{Message as MessageEvent};
ghost use Rattle.dgt_frame.specs.Encoding.{IsEncodable};
ghost use Rattle.dgt_frame.specs.Frames.{Frame, IsCode, IsLow};
ghost use Rattle.settle_core.specs.Entries.{entry_of};
ghost use Rattle.board_events.specs.History.{reading_at, codes_by_field};
ghost use Rattle.pair_frames.specs.PutIn.{ShowsWhole, digits, dump_of, group_of, put_in, time_put_in, times_of};
ghost use Rattle.pair_frames.specs.Laws.{IsRead, IsReadBehind};

use arrayvec::ArrayVec;
use chess_clock::Reading;
use dgt_frame::laws::restarts_are_shown;
use dgt_frame::{First, Message, encode};
use unseen_pairs::Recovery;

/// How many bytes are put in at most: three dumps of 67 bytes, and two time messages of 10.
pub const MOST: usize = 221;

/// The status of a time message where no clock is connected.
const NO_CLOCK: u8 = 0x20;

/// A number of two digits: its tens in the upper four bits.
fn digits(number: u8) -> u8
    requires { number ≤ 59 }
    ensures same { result ≡ digits number }
    ensures low { result < 128 }
{
    16 * (number / 10) + number % 10
}

/// The data bytes of a time message that gives this reading: its times, first that of this side, and the status.
pub fn times_of(first: First, reading: &Option<Reading>) -> [u8; 7]
    ensures same { result ≡ times_of first reading.now }
    ensures low { AllByRecursion IsLow result }
    ensures read { IsRead reading.now }
{
    let Some(reading) = reading else {
        return [0, 0, 0, 0, 0, 0, NO_CLOCK];
    };
    let (one, other) = match first {
        First::White => (&reading.white, &reading.black),
        First::Black => (&reading.black, &reading.white),
    };
    [
        one.hours,
        digits(one.minutes),
        digits(one.seconds),
        other.hours,
        digits(other.minutes),
        digits(other.seconds),
        0,
    ]
}

fn is_same(a: &[u8; 7], b: &[u8; 7]) -> bool
    ensures { IsTrue result ↔ (a.now ≡ b.now) }
{
    *a == *b
}

fn append(bytes: &[u8], out: &mut ArrayVec<u8, MOST>)
    requires { length out.old.items + length bytes.now ≤ 221 }
    ensures { out.new.items ≡ out.old.items ++ bytes.now }
{
    if out.try_extend_from_slice(bytes).is_err() {
        unreachable!();
    }
}

/// Adds the frame of a message.
fn add(message: &Message, out: &mut ArrayVec<u8, MOST>)
    requires encodable { IsEncodable message.now }
    requires room { (frame : List ℕ) → Frame message.now frame → length out.old.items + length frame ≤ 221 }
    ensures shows { (events : List EventOf) → ShowsWhole out.old.items events
        → ShowsWhole out.new.items (events ++ MessageEvent message.now ∷ []) }
    ensures size { (n : ℕ) → ((frame : List ℕ) → Frame message.now frame → length frame ≡ n)
        → length out.new.items ≡ length out.old.items + n }
{
    let mut frame = ArrayVec::new();
    // For its clause: a frame is shown behind others.
    restarts_are_shown();
    encode(message, &mut frame);
    append(&frame, out);
}

/// The codes of the fields of a board that shows this picture, with codes of at most 15 by square number. With `rotated`,
/// field n is square 63 - n.
pub fn fields_of(rotated: bool, picture: &[u8; 64]) -> [u8; 64]
    requires { All (λ code. code < 16) picture.now }
    ensures same { result ≡ codes_by_field rotated picture.now }
    ensures codes { AllByRecursion IsCode result }
{
    let mut fields = *picture;
    if rotated {
        fields.reverse();
    }
    fields
}

/// Adds a dump of the picture.
fn add_dump(rotated: bool, picture: &[u8; 64], out: &mut ArrayVec<u8, MOST>)
    requires codes { All (λ code. code < 16) picture.now }
    requires room { length out.old.items + 67 ≤ 221 }
    ensures shows { (events : List EventOf) → ShowsWhole out.old.items events
        → ShowsWhole out.new.items (events ++ dump_of rotated picture.now ∷ []) }
    ensures size { length out.new.items ≡ length out.old.items + 67 }
    ensures squares { length picture.now ≡ 64 }
{
    add(&Message::Dump(fields_of(rotated, picture)), out);
}

/// Adds a time message that gives the reading, where it is another one than now.
fn add_time(
    first: First,
    now: &Option<Reading>,
    reading: &Option<Reading>,
    out: &mut ArrayVec<u8, MOST>,
)
    requires room { length out.old.items + 10 ≤ 221 }
    ensures shows { (events : List EventOf) → ShowsWhole out.old.items events
        → ShowsWhole out.new.items (events ++ time_put_in first now.now reading.now) }
    ensures size { length out.new.items ≤ length out.old.items + 10 }
    ensures read { IsRead now.now × IsRead reading.now }
{
    let times = times_of(first, reading);
    if !is_same(&times_of(first, now), &times) {
        add(&Message::Time(times), out);
    }
}

/// Replaces what `out` holds by the frames that are put in behind an entry, its picture with codes of at most 15 by
/// square number and its reading, that confirmed this pair: the reading that the pair has, the boards after its plies,
/// and the entry again. With `rotated`, field n is square 63 - n; the first group of a time message is that of the side
/// `first`.
pub fn put_in(
    first: First,
    rotated: bool,
    picture: &[u8; 64],
    reading: &Option<Reading>,
    found: &Recovery,
    out: &mut ArrayVec<u8, MOST>,
)
    requires { All (λ code. code < 16) picture.now }
    ensures shows { ShowsWhole out.new.items (put_in first rotated (entry_of picture.now reading.now) found.now) }
    ensures most { length out.new.items ≤ 221 }
    ensures read { (past : List EventOf) → reading_at first past ≡ reading.now
        → IsReadBehind first rotated past (entry_of picture.now reading.now) found.now }
{
    out.clear();
    add_time(first, reading, &found.reading, out);
    add_dump(rotated, &found.middle.picture(), out);
    add_dump(rotated, &found.after.picture(), out);
    add_time(first, &found.reading, reading, out);
    add_dump(rotated, picture, out);
}
