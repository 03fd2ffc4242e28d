//! Events with those that are put in.
ghost use Rattle.std.specs.Prelude.{◌≡◌, ◌↔◌, ◌∷◌, [], ◌++◌, ℕ, Bool, IsTrue, List, Option, OnOk};
ghost use Rattle.dgt_frame.specs.declared.events.Event.{Event as EventOf};
ghost use Rattle.dgt_frame.specs.Streams.{HasFrame};
ghost use Rattle.unseen_pairs.specs.declared.pair.Recovery.{Recovery};
ghost use Rattle.board_captures.specs.Reading.{setting_of};
ghost use Rattle.board_events.specs.History.{IsInRange};
ghost use Rattle.board_events.specs.Settings.{Setting};
ghost use Rattle.board_game.specs.History.{Finds, Item, Noted, put_in_with, with_found};
ghost use Rattle.board_game.specs.Inside.Telling.{HasFollowed, HasKept, KeepsEvent};
ghost use Rattle.board_game.specs.Report.{first_line};

use crate::note::Note;
use crate::telling::{Teller, flush};
use board_alarms::Chunk;
use board_captures::Method;
use dgt_frame::Event;
use dgt_frame::laws::shows_once;
use recovery::{Frames, Keeper, hear};
use std::alloc::{AllocError, Global};
use watched_streams::Lines;

/// Gives the keeper an event, if there is one. Replaces what `frames` holds by what is put in there, and adds its line
/// behind those that are gathered.
fn keep(
    alloc: Global,
    keeper: &mut Option<Keeper>,
    offset: u32,
    event: &Event,
    frames: &mut Frames,
    gathered: &mut Lines,
    lines: &mut Vec<u8>,
) -> Result<(), AllocError>
    requires range { IsInRange event.now }
    requires begun { (setting : Setting) × (recovers : Bool) × (past written : List EventOf) × HasKept keeper.old setting recovers past written }
    ensures { (setting : Setting) (recovers : Bool) (past written : List EventOf) → HasKept keeper.old setting recovers past written
        → OnOk result ((line : List ℕ) × (lines.new.items ++ gathered.new.items ≡ (lines.old.items ++ gathered.old.items) ++ line)
        × KeepsEvent keeper.new setting recovers past written offset event.now frames.new.items line) }
{
    match keeper {
        None => {
            frames.clear();
            Ok(())
        }
        Some(keeper) => {
            flush(gathered, lines)?;
            hear(alloc, keeper, offset, event, frames, gathered)
        }
    }
}

/// Bytes that are put in with those of a chunk.
fn put_in_with(chunk: Chunk) -> Chunk
    ensures { result ≡ put_in_with chunk }
{
    Chunk {
        is_put_in: true,
        ..chunk
    }
}

fn is_nothing(bytes: &[u8]) -> bool
    ensures { IsTrue result ↔ (bytes.now ≡ []) }
{
    bytes.is_empty()
}

/// Follows the events of a board, and tells them with those that are put in.
#[derive(Drop)]
pub struct Following {
    alloc: Global,
    /// Where pairs are recovered.
    keeper: Option<Keeper>,
    teller: Teller,
}

impl Following {
    /// Nothing was sent. Takes no memory.
    pub fn new(alloc: Global, method: &Method) -> Following
        ensures { HasFollowed result (setting_of method.now) method.now.recovers [] [] (first_line (setting_of method.now)) }
    {
        let keeper = if method.recovers {
            Some(Keeper::new(alloc, method.start, method.first, method.rotated))
        } else {
            None
        };
        Following {
            alloc,
            keeper,
            teller: Teller::new(alloc, method.start, method.first, method.rotated),
        }
    }

    /// Takes the next event, which this chunk has brought, and adds what is told of it behind what is gathered.
    pub fn take(
        &mut self,
        chunk: Chunk,
        offset: u32,
        event: &Event,
        frames: &mut Frames,
        gathered: &mut Lines,
        lines: &mut Vec<u8>,
    ) -> Result<(), AllocError>
        requires frame { HasFrame event.now }
        requires begun { (setting : Setting) × (recovers : Bool) × (past : List EventOf) × (items : List Item) × (text : List ℕ)
            × HasFollowed self.old setting recovers past items text }
        ensures { (setting : Setting) (recovers : Bool) (past : List EventOf) (items : List Item) (text : List ℕ)
            → HasFollowed self.old setting recovers past items text → OnOk result ((found : Option Recovery) × (more : List ℕ)
            × Finds setting recovers past event.now found
            × (lines.new.items ++ gathered.new.items ≡ (lines.old.items ++ gathered.old.items) ++ more)
            × HasFollowed self.new setting recovers (event.now ∷ past)
            (with_found setting past chunk (record { offset = offset; event = event.now }) found items) (text ++ more)) }
    {
        // For its clause: no bytes show no event.
        shows_once();
        self.teller.take(chunk, offset, event, gathered, lines)?;
        keep(
            self.alloc,
            &mut self.keeper,
            offset,
            event,
            frames,
            gathered,
            lines,
        )?;
        let put = frames.as_slice();
        if is_nothing(put) {
            return Ok(());
        }
        self.teller.note_pair(chunk)?;
        self.teller
            .put_in(put_in_with(chunk), offset, put, gathered, lines)?;
        Ok(())
    }

    /// Takes what isn't in the bytes.
    pub fn note(&mut self, at: u64, note: Note) -> Result<(), AllocError>
        ensures { (setting : Setting) (recovers : Bool) (past : List EventOf) (items : List Item) (text : List ℕ)
            → HasFollowed self.old setting recovers past items text → OnOk result (HasFollowed self.new setting recovers past (Noted at note ∷ items) text) }
    {
        self.teller.note(at, note)
    }

    /// What tells them.
    pub fn teller(&self) -> &Teller
        ensures { result.now ≡ self.now.teller }
    {
        &self.teller
    }
}
