//! Events to the pairs that are recovered at them.
ghost use Rattle.std.specs.Prelude.{◌≡◌, ◌<◌, ◌∷◌, [], List, IfOk, OnErr, All, None, Some, true, length, if◌then◌else◌, slice_index, slice_set};
ghost use Rattle.dgt_frame.specs.declared.events.Event.{Event as EventOf};
ghost use Rattle.dgt_frame.specs.declared.time.First.{First as FirstOf};
ghost use Rattle.chess_rules.specs.declared.parts.Parts.{Parts as PartsOf};
ghost use Rattle.settle_core.specs.Entries.{Entry, entry_of};
ghost use Rattle.settle_core.specs.Settler.{has_seen};
ghost use Rattle.unseen_pairs.specs.Recoverer.{HasRecovered};
ghost use Rattle.board_events.specs.Settings.{Setting};
ghost use Rattle.board_events.specs.History.{IsInRange, reading_at};
ghost use Rattle.recovery.specs.Inside.Seeing.{Sees};

use arrayvec::ArrayVec;
use board_events::{Change, View};
use chess_clock::Reading;
use chess_rules::{Position, Square};
use dgt_frame::{Event, First, Message, read_time};
use pair_frames::{MOST, put_in};
use std::alloc::{AllocError, Global};
use unseen_pairs::{Recoverer, Recovery, SeenOrFound, SeenOrRecovered};

/// Follows the events of a board: which picture it shows, what the clocks show, and which pairs of plies are recovered.
#[derive(Drop)]
pub struct Keeper {
    recoverer: Recoverer,
    view: View,
    first: First,
    rotated: bool,
    reading: Option<Reading>,
    /// The pair that was recovered last.
    found: Option<Recovery>,
}

/// Shows the recoverer a picture which differs from the one before on this square, and says whether it confirms a pair,
/// which is put into `found`.
#[inline(always)]
fn see_square(
    alloc: Global,
    recoverer: &mut Recoverer,
    picture: &[u8; 64],
    square: u8,
    reading: Option<Reading>,
    found: &mut Option<Recovery>,
) -> Result<bool, AllocError>
    requires square { square < 64 }
    requires codes { All (λ code. code < 16) picture.now }
    requires seen { has_seen recoverer.old.settler ≡ true }
    ensures squares { length picture.now ≡ 64 }
    ensures sees { (start : PartsOf) (before : Entry) (past written : List Entry)
        → HasRecovered recoverer.old start (before ∷ past) written
        → picture.now ≡ slice_set before.picture square (slice_index picture.now square)
        → IfOk result (λ is. Sees recoverer.new start (before ∷ past) written (entry_of picture.now reading)
        (if is then found.new else None)) }
{
    let Some(square) = Square::new(square) else {
        unreachable!();
    };
    match recoverer.see_square(alloc, picture, square, reading, found) {
        Ok(SeenOrFound::Shown(_)) => Ok(false),
        Ok(SeenOrFound::Recovered) => Ok(true),
        Err(error) => Err(error),
    }
}

/// The same of any picture: apart, since few dumps show another one.
#[inline(never)]
fn see_whole(
    alloc: Global,
    recoverer: &mut Recoverer,
    picture: &[u8; 64],
    reading: Option<Reading>,
    found: &mut Option<Recovery>,
) -> Result<bool, AllocError>
    requires { All (λ code. code < 16) picture.now }
    ensures { (start : PartsOf) (past written : List Entry) → HasRecovered recoverer.old start past written
        → IfOk result (λ is. Sees recoverer.new start past written (entry_of picture.now reading) (if is then found.new else None)) }
{
    match recoverer.see(alloc, picture, reading)? {
        SeenOrRecovered::Shown(_) => Ok(false),
        SeenOrRecovered::Recovered(recovery) => {
            *found = Some(recovery);
            Ok(true)
        }
    }
}

impl Keeper {
    ghost use Rattle.board_events.specs.Entries.{entry_at};
    ghost use Rattle.pair_frames.specs.Laws.{IsReadBehind};
    ghost use Rattle.pair_frames.specs.PutIn.{ShowsWhole, put_in as frames_for};
    ghost use Rattle.recovery.specs.Keeping.{RecoversAt, ShowsAnother};
    ghost use Rattle.recovery.specs.Inside.Keeping.{Keeps, KeepsNext};

    /// A keeper that was given no event. Takes no memory.
    ///
    /// With `rotated`, field n means square 63 - n, in dumps and updates.
    pub fn new(alloc: Global, start: Position, first: First, rotated: bool) -> Keeper
        ensures { let setting : Setting = record { start = start; first = first; rotated = rotated } in Keeps result setting [] [] }
    {
        Keeper {
            recoverer: Recoverer::new(alloc, start),
            view: View::new(rotated),
            first,
            rotated,
            reading: None,
            found: None,
        }
    }

    /// Takes the next event, and says whether its picture confirms a pair, which `found` then has. Codes are at most 15
    /// and fields at most 63, as the decoder gives them.
    ///
    /// # Errors
    ///
    /// Where there was no memory, which is taken only at an event that shows another picture; then it must not be used
    /// any more.
    #[inline(always)]
    pub fn take(&mut self, alloc: Global, event: &Event) -> Result<bool, AllocError>
        requires range { IsInRange event.now }
        requires begun { (setting : Setting) × (past : List EventOf) × (written : List Entry) × Keeps self.old setting past written }
        ensures next { (setting : Setting) (past : List EventOf) (written : List Entry) → Keeps self.old setting past written
            → IfOk result (λ is. KeepsNext self.new setting past event.now (if is then self.new.found else None) written) }
        ensures refused { (setting : Setting) (past : List EventOf) (written : List Entry) → Keeps self.old setting past written
            → OnErr result (ShowsAnother setting past event.now) }
    {
        self.hear(event);
        match self.view.see(event) {
            Change::Nothing => Ok(false),
            Change::Square { square, .. } => see_square(
                alloc,
                &mut self.recoverer,
                self.view.picture(),
                square,
                self.reading,
                &mut self.found,
            ),
            Change::Picture => see_whole(
                alloc,
                &mut self.recoverer,
                self.view.picture(),
                self.reading,
                &mut self.found,
            ),
        }
    }

    /// The pair that was recovered last.
    pub fn found(&self) -> &Option<Recovery>
        ensures { result.now ≡ self.now.found }
    {
        &self.found
    }

    /// Replaces what `frames` holds by what is put in for the pair that was recovered at the last event.
    #[inline(never)]
    pub fn put_in(&self, found: &Recovery, frames: &mut ArrayVec<u8, MOST>)
        ensures shows { (setting : Setting) (past : List EventOf) (event : EventOf) (written : List Entry)
            → Keeps self.now setting (event ∷ past) written
            → RecoversAt setting past event (Some found.now)
            → ShowsWhole frames.new.items (frames_for setting.first setting.rotated
            (entry_at setting.first setting.rotated (event ∷ past)) found.now) }
        ensures read { (setting : Setting) (past : List EventOf) (event : EventOf) (written : List Entry)
            → Keeps self.now setting (event ∷ past) written
            → RecoversAt setting past event (Some found.now)
            → (before : List EventOf) → reading_at setting.first before ≡ reading_at setting.first (event ∷ past)
            → IsReadBehind setting.first setting.rotated before (entry_at setting.first setting.rotated (event ∷ past)) found.now }
    {
        put_in(
            self.first,
            self.rotated,
            self.view.picture(),
            &self.reading,
            found,
            frames,
        );
    }

    /// Keeps what a time message says.
    fn hear(&mut self, event: &Event)
        ensures reading { (past : List EventOf) → self.old.reading ≡ reading_at self.old.first past
            → self.new.reading ≡ reading_at self.old.first (event.now ∷ past) }
        ensures recoverer { self.new.recoverer ≡ self.old.recoverer }
        ensures view { self.new.view ≡ self.old.view }
        ensures first { self.new.first ≡ self.old.first }
        ensures rotated { self.new.rotated ≡ self.old.rotated }
    {
        if let Event::Message(Message::Time(times)) = event {
            self.reading = read_time(times, self.first, self.reading);
        }
    }
}
