//! Captures, read as `record` reads them.
ghost use Rattle.std.specs.Prelude.{◌≡◌, ◌<◌, ◌≤◌, [], ◌∷◌, ℕ, List, All, IfOk, IfSome, MatchOption, OnOk, Err, None, Some, false, length};
ghost use Rattle.dgt_frame.specs.declared.events.Event.{Event as EventOf};
ghost use Rattle.board_events.specs.History.{IsInRange};
ghost use Rattle.board_events.specs.Limits.{limit};
ghost use Rattle.board_events.specs.Session.{entries_in};
ghost use Rattle.board_events.specs.Settings.{Setting};
ghost use Rattle.settle_core.specs.Entries.{last_picture};
ghost use Rattle.watched_streams.specs.Watch.{has_failed, inner_of};
ghost use Rattle.recovery.specs.Weaving.{Recovers};
ghost use Rattle.board_captures.specs.Reading.{IsOfBytes, IsRead, IsTooLong, StandsForCapture, setting_of};

use board_events::{Change, Session, View};
use chess_rules::Position;
use dgt_frame::{BLANK, Decoder, Event, First, LIMIT};
use recovery::{RecoverError, recover_stream};
use settle_core::Seen;
use std::alloc::{AllocError, Global};
use watched_streams::Watch;

/// How a capture is read: as `record` reads it with these options, or as `record` reads what `recover` gives of it.
#[derive(Clone, Copy)]
pub struct Method {
    /// The position on the board when the game begins.
    pub start: Position,
    /// Whose time the first group of a time message is.
    pub first: First,
    /// Whether field n means square 63 - n.
    pub rotated: bool,
    /// Whether plies that no picture showed are put in first.
    pub recovers: bool,
}

/// A capture that was read: its game, and what the board shows at its end.
#[derive(Drop)]
pub struct Captured {
    /// The game, what the clocks show, and whether updates count.
    pub session: Session,
    view: View,
    /// Whether the board has shown a picture.
    has_shown: bool,
}

/// Why a capture can't be read.
#[derive(Clone, Copy, Debug, PartialEq, Eq)]
pub enum CaptureError {
    /// It has more than 67,108,864 bytes, or it has more with what is put in.
    TooLong,
    /// Memory ran out.
    Memory,
}

impl Captured {
    /// Nothing was captured yet. Takes no memory.
    fn new(alloc: Global, method: &Method) -> Captured
        ensures { StandsForCapture result (setting_of method.now) [] }
    {
        Captured {
            session: Session::new(alloc, method.start, method.first, method.rotated),
            view: View::new(method.rotated),
            has_shown: false,
        }
    }

    /// Takes the next event.
    fn take(&mut self, event: &Event) -> Result<(), AllocError>
        requires { IsInRange event.now }
        ensures { (setting : Setting) (past : List EventOf) → StandsForCapture self.old setting past
            → OnOk result (StandsForCapture self.new setting (event.now ∷ past)) }
    {
        let _seen: Option<Seen> = self.session.take_ref(event)?.seen;
        match self.view.see(event) {
            Change::Nothing => {}
            Change::Square { .. } | Change::Picture => self.has_shown = true,
        }
        Ok(())
    }

    /// The picture that the board was seen to show last: the codes of the 64 squares, each at most 15. None where it has
    /// shown nothing.
    pub fn picture(&self) -> Option<&[u8; 64]>
        ensures codes { IfSome result (λ picture. All (λ code. code < 16) picture.now) }
        ensures shown { (setting : Setting) (past : List EventOf) → StandsForCapture self.now setting past
            → MatchOption result (last_picture (entries_in setting past) ≡ None) (λ picture. last_picture (entries_in setting past) ≡ Some picture.now) }
    {
        if self.has_shown {
            Some(self.view.picture())
        } else {
            None
        }
    }
}

/// Takes the events of all bytes.
fn take_bytes(captured: &mut Captured, bytes: &[u8]) -> Result<(), AllocError>
    ensures { (setting : Setting) → StandsForCapture captured.old setting []
        → OnOk result ((past : List EventOf) × IsOfBytes bytes.now past × StandsForCapture captured.new setting past) }
{
    let mut decoder = Decoder::new();
    let mut event = BLANK;
    let mut at = 0;
    'events: while let Some(taken) = decoder.push_into(&bytes[at..], &mut event) {
        captured.take(&event)?;
        at += taken;
    }
    // For its clause: the bytes show these events.
    decoder.pending();
    Ok(())
}

/// Reads bytes as `record` reads them.
fn read_bytes(alloc: Global, method: &Method, bytes: &[u8]) -> Result<Captured, CaptureError>
    ensures read { IfOk result (λ captured. (past : List EventOf) × IsOfBytes bytes.now past × (length bytes.now ≤ limit)
        × StandsForCapture captured (setting_of method.now) past) }
    ensures long { result ≡ Err CaptureError.TooLong → limit < length bytes.now }
{
    if bytes.len() > LIMIT as usize {
        return Err(CaptureError::TooLong);
    }
    let mut captured = Captured::new(alloc, method);
    if take_bytes(&mut captured, bytes).is_err() {
        return Err(CaptureError::Memory);
    }
    Ok(captured)
}

/// Writes the bytes with the frames of each pair of plies that no picture showed. They may be more than 67,108,864.
fn recover_bytes(
    alloc: Global,
    method: &Method,
    bytes: &[u8],
    woven: &mut Watch<Vec<u8>>,
) -> Result<(), CaptureError>
    requires working { has_failed woven.old ≡ false }
    requires empty { (inner_of woven.old).items ≡ [] }
    ensures recovers { OnOk result ((text : List ℕ) × (length bytes.now ≤ limit)
        × Recovers (setting_of method.now) bytes.now (inner_of woven.new).items text) }
    ensures long { result ≡ Err CaptureError.TooLong → limit < length bytes.now }
{
    let mut reader = Watch::new(bytes);
    let mut lines = Watch::new(Vec::new(alloc));
    match recover_stream(
        alloc,
        method.start,
        method.first,
        method.rotated,
        &mut reader,
        woven,
        &mut lines,
    ) {
        Ok(()) => Ok(()),
        Err(RecoverError::TooLong) => Err(CaptureError::TooLong),
        Err(_) => Err(CaptureError::Memory),
    }
}

/// Reads a capture into its game, and what the board shows at its end.
///
/// # Errors
///
/// - `TooLong`: it has more than 67,108,864 bytes, or `recovers` is set and it has more with what is put in.
/// - `Memory`: memory ran out.
pub fn read_capture(alloc: Global, method: &Method, bytes: &[u8]) -> Result<Captured, CaptureError>
    ensures read { IfOk result (λ captured. (past : List EventOf) × IsRead (setting_of method.now) method.now.recovers bytes.now past
        × StandsForCapture captured (setting_of method.now) past) }
    ensures long { result ≡ Err CaptureError.TooLong → IsTooLong (setting_of method.now) method.now.recovers bytes.now }
{
    if !method.recovers {
        return read_bytes(alloc, method, bytes);
    }
    let mut woven = Watch::new(Vec::new(alloc));
    if let Err(error) = recover_bytes(alloc, method, bytes, &mut woven) {
        return Err(error);
    }
    read_bytes(alloc, method, woven.inner())
}
