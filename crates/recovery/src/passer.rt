//! Bytes of a stream to what is put in among them.
ghost use Rattle.std.specs.Prelude.{◌≡◌, ◌<◌, ◌≤◌, ◌+◌, ◌^◌, [], ℕ, List, OnOk, OnErr, IfOk, IfSome, IfNone, length, take};
ghost use Rattle.dgt_frame.specs.declared.events.Event.{Event as EventOf};
ghost use Rattle.dgt_frame.specs.Decoder.{Decoded};
ghost use Rattle.settle_core.specs.Entries.{Entry};
ghost use Rattle.board_events.specs.Settings.{Setting};
ghost use Rattle.board_events.specs.Session.{entries_in};
ghost use Rattle.board_events.specs.History.{IsInRange};
ghost use Rattle.recovery.specs.Keeping.{ShowsAnother};
ghost use Rattle.recovery.specs.Inside.Keeping.{Keeps, KeepsNext};
ghost use Rattle.recovery.specs.Inside.Passing.{Alike, KeepsWithPutIn, TakesEvent, PassesBytes, StandsForStream};
ghost use Rattle.recovery.specs.Inside.Progress.{Concludes, HasBegun, IsPutIn, RefusesAmong};

use crate::keeper::Keeper;
use crate::lines::add_recovered;
use arrayvec::ArrayVec;
use dgt_frame::{Decoder, Event};
use pair_frames::MOST;
use pair_frames::laws::frames_are_put_in;
use std::alloc::{AllocError, Global};
use watched_streams::Lines;

/// The frames that are put in behind an event.
pub type Frames = ArrayVec<u8, MOST>;

/// What is put in for the pair that was recovered last, and its line: apart, since few events recover one.
#[inline(never)]
fn tell(keeper: &Keeper, offset: u32, frames: &mut Frames, line: &mut Lines)
    requires told { (setting : Setting) × (past : List EventOf) × (event : EventOf) × (written : List Entry)
        × KeepsNext keeper.now setting past event keeper.now.found written }
    requires frames { frames.old.items ≡ [] }
    requires line { line.old.items ≡ [] }
    ensures { (setting : Setting) (past written : List EventOf) (event : EventOf) → IsInRange event → Alike setting past written
        → KeepsNext keeper.now setting past event keeper.now.found (entries_in setting written)
        → TakesEvent keeper.now setting past written offset event frames.new.items line.new.items }
{
    let Some(found) = keeper.found() else {
        return;
    };
    keeper.put_in(found, frames);
    add_recovered(line, offset, found);
}

/// Gives the keeper an event, and replaces what `frames` and `line` hold by what is put in there, and its line; by
/// nothing, where nothing is.
#[inline(always)]
pub fn hear(
    alloc: Global,
    keeper: &mut Keeper,
    offset: u32,
    event: &Event,
    frames: &mut Frames,
    line: &mut Lines,
) -> Result<(), AllocError>
    requires range { IsInRange event.now }
    requires begun { (setting : Setting) × (past : List EventOf) × (written : List Entry) × Keeps keeper.old setting past written }
    ensures heard { (setting : Setting) (past written : List EventOf) → KeepsWithPutIn keeper.old setting past written
        → OnOk result (TakesEvent keeper.new setting past written offset event.now frames.new.items line.new.items) }
    ensures refused { (setting : Setting) (past written : List EventOf) → KeepsWithPutIn keeper.old setting past written
        → OnErr result (ShowsAnother setting past event.now) }
{
    frames.clear();
    line.clear();
    match keeper.take(alloc, event) {
        Err(error) => Err(error),
        Ok(false) => Ok(()),
        Ok(true) => {
            tell(keeper, offset, frames, line);
            Ok(())
        }
    }
}

/// Gives the decoder the bytes up to the next event, and the keeper this event, and returns how many bytes these are;
/// none, where no event comes at any of them, and then the decoder was given them all. The first has the offset
/// `start`. What `frames` and `line` hold is replaced by what is put in behind these bytes, and its line.
///
/// # Errors
///
/// Where there was no memory; then nothing more is to be given.
#[inline(always)]
pub fn pass(
    alloc: Global,
    decoder: &mut Decoder,
    keeper: &mut Keeper,
    start: u32,
    bytes: &[u8],
    frames: &mut Frames,
    line: &mut Lines,
    event: &mut Event,
) -> Result<Option<usize>, AllocError>
    requires room { start + length bytes.now < 2 ^ 32 }
    requires begun { HasBegun decoder.old keeper.old start }
    ensures before { Concludes decoder.old keeper.old }
    ensures refused { OnErr result (RefusesAmong decoder.old keeper.old bytes.now) }
    ensures none { IfOk result (λ taken. IfNone taken (PassesBytes decoder.old keeper.old start bytes.now decoder.new keeper.new [] [])) }
    ensures some { IfOk result (λ taken. IfSome taken (λ count.
        PassesBytes decoder.old keeper.old start (take count bytes.now) decoder.new keeper.new frames.new.items line.new.items)) }
    ensures put_in { IfOk result (λ taken. IfSome taken (λ _. IsPutIn frames.new.items line.new.items)) }
    ensures taken { IfOk result (λ taken. IfSome taken (λ count. (0 < count) × (count ≤ length bytes.now))) }
{
    // For its clause: frames may be put in between bytes.
    frames_are_put_in();
    // For its clause: what the bytes given so far show.
    conclude(decoder, keeper);
    // For its clause: they show the events before the next.
    decoder.pending();
    let Some(taken) = decoder.push_into(bytes, event) else {
        return Ok(None);
    };
    // For its clause: the bytes taken show the events so far.
    decoder.pending();
    let last = start + (taken - 1) as u32;
    match hear(alloc, keeper, last, event, frames, line) {
        Ok(()) => Ok(Some(taken)),
        Err(error) => Err(error),
    }
}

/// What stands for the bytes that the decoder and the keeper were given, and for those with what was put in.
pub fn conclude(decoder: &Decoder, keeper: &Keeper)
    ensures { Concludes decoder.now keeper.now }
{
    // For its clause: the bytes show the events so far.
    decoder.pending();
}

/// What stands before the first byte.
pub fn begin(decoder: &Decoder, keeper: &Keeper)
    ensures { (setting : Setting) → Decoded decoder.now [] [] → Keeps keeper.now setting [] []
        → StandsForStream decoder.now keeper.now setting [] [] [] }
{}
