//! The machine: it takes what happens at a board's cable, and answers what the board is sent and which bytes the game gets.
ghost use Rattle.std.specs.Prelude.{◌≡◌, ◌<◌, ◌∷◌, [], List, IfOk, IfSome, OnOk};
ghost use Rattle.board_cable.specs.declared.line.Event.{Event as ToldOf};
ghost use Rattle.board_cable.specs.Asking.{Changes, StandsFor as AskingStandsFor};
ghost use Rattle.board_cable.specs.Pace.{AsksAlike};
ghost use Rattle.board_cable.specs.Silence.{is_silent};
ghost use Rattle.board_cable.specs.Whose.{HandledAlike, is_own, own_number, shown_number};
ghost use Rattle.board_cable.specs.Moments.{Moment, moment_of, sent, stream};
ghost use Rattle.board_cable.specs.Frames.{HasFrames, with_happening};
ghost use Rattle.board_cable.specs.Turns.{Tells, Told, Turn, told, told_by};
ghost use Rattle.board_cable.specs.Keeping.{aside, released};
ghost use Rattle.board_cable.specs.Cable.{Answers, StandsFor};

use crate::asking::Asking;
use crate::back::Back;
use crate::frames::Frames;
use crate::happened::{Happened, is_heard, told_by};
use crate::line::{Event, Request};
use crate::whose::Handling;
use std::alloc::{AllocError, Global};

/// A board's cable.
#[derive(Drop)]
pub struct Cable {
    frames: Frames,
    asking: Asking,
    back: Back,
}

/// What is answered to what happens.
#[derive(Clone, Copy)]
pub struct Answer {
    /// What the board is sent now. It counts as sent.
    pub request: Option<Request>,
    /// What is done with what the board has sent. If it is kept, the game gets what `Cable::released` has, and then these bytes.
    pub handling: Handling,
}

/// The bytes, if the board has sent them.
fn sent<'a>(happened: Happened, bytes: &'a [u8]) -> &'a [u8]
    ensures { result.now ≡ sent (moment_of happened bytes.now) }
{
    if is_heard(happened.what) { bytes } else { &[] }
}

/// Tells what happens, if no bytes come.
fn tell_line(happened: Happened, asking: &mut Asking)
    ensures { (past : List ToldOf) → AskingStandsFor asking.old past
        → AskingStandsFor asking.new (with_happening happened.at (told_by happened.what (shown_number past)) past) }
{
    if let Some(what) = told_by(happened.what, asking.shown()) {
        asking.take(Event {
            at: happened.at,
            what,
        });
    }
}

/// Tells what happens, and what comes with the bytes.
fn tell(frames: &mut Frames, asking: &mut Asking, happened: Happened, bytes: &[u8])
    ensures { (past : List Moment) (before : List ToldOf) → HasFrames frames.old (stream past) → AskingStandsFor asking.old before
        → (now : List ToldOf) × Tells (moment_of happened bytes.now) (stream past) before now × AskingStandsFor asking.new now
        × HasFrames frames.new (stream (moment_of happened bytes.now ∷ past)) }
{
    if is_heard(happened.what) {
        frames.hear(happened.at, bytes, asking);
        return;
    }
    frames.begin_at(happened.what);
    tell_line(happened, asking);
}

impl Cable {
    /// Nothing has happened. Takes no memory.
    pub fn new(alloc: Global) -> Cable
        ensures { StandsFor result [] }
    {
        Cable {
            frames: Frames::new(),
            asking: Asking::new(),
            back: Back::new(alloc),
        }
    }

    /// Takes what happens, with the bytes of a read if the board has sent some, and says whether the board is asked now. If the
    /// answer is `Keep`, the game gets what `released` has, and then these bytes; else it gets nothing now.
    ///
    /// # Errors
    ///
    /// Where there is no memory for what is kept back; then the cable is of no use any more.
    pub fn take(&mut self, happened: Happened, bytes: &[u8]) -> Result<Answer, AllocError>
        ensures stands { (past : List Moment) → StandsFor self.old past → OnOk result (StandsFor self.new (moment_of happened bytes.now ∷ past)) }
        ensures answers { (past : List Moment) (turn : Turn) (turns : List Turn) → StandsFor self.old past
            → Told (moment_of happened bytes.now ∷ past) (turn ∷ turns) → IfOk result (Answers turn) }
    {
        tell(&mut self.frames, &mut self.asking, happened, bytes);
        let handling = self.asking.handling(happened.at);
        let own = self.asking.serial();
        self.back
            .take(happened.what, handling, &own, sent(happened, bytes))?;
        let request = self.asking.wake(happened.at);
        Ok(Answer { request, handling })
    }

    /// What the game gets now of what was kept back, before the bytes that the board has sent now. It is there until more happens.
    pub fn released(&self) -> &[u8]
        ensures { (past : List Moment) (turns : List Turn) → StandsFor self.now past → Told past turns → result.now ≡ released turns }
    {
        self.back.released()
    }

    /// What is kept aside of another board, until the arbiter takes that board or another game takes what it has sent.
    pub fn aside(&self) -> &[u8]
        ensures { (past : List Moment) (turns : List Turn) → StandsFor self.now past → Told past turns → result.now ≡ aside turns }
    {
        self.back.aside()
    }

    /// When to wake, if nothing happens: none of what is said here changes before, and then some of it does. None: never.
    pub fn due(&self, now: u64) -> Option<u64>
        ensures later { IfSome result (λ d. now < d) }
        ensures asks { (past : List Moment) (turns : List Turn) → StandsFor self.now past → Told past turns → AsksAlike now (told turns) result }
        ensures handling { (past : List Moment) (turns : List Turn) → StandsFor self.now past → Told past turns
            → HandledAlike now (told turns) result }
        ensures changes { (past : List Moment) (turns : List Turn) → StandsFor self.now past → Told past turns
            → IfSome result (λ due. Changes now (told turns) due) }
    {
        self.asking.due(now)
    }

    /// Whether the board sends no dump, though it was asked for 5 s.
    pub fn is_silent(&self) -> bool
        ensures { (past : List Moment) (turns : List Turn) → StandsFor self.now past → Told past turns → result ≡ is_silent (told turns) }
    {
        self.asking.is_silent()
    }

    /// The serial number of the game's board, if it is known.
    pub fn serial(&self) -> Option<[u8; 5]>
        ensures { (past : List Moment) (turns : List Turn) → StandsFor self.now past → Told past turns → result ≡ own_number (told turns) }
    {
        self.asking.serial()
    }
    /// Whether the board on the cable is the game's own: since the line was opened it has sent the number that was known then, or was
    /// said since.
    pub fn is_own(&self) -> bool
        ensures { (past : List Moment) (turns : List Turn) → StandsFor self.now past → Told past turns → result ≡ is_own (told turns) }
    {
        self.asking.is_own()
    }
}
