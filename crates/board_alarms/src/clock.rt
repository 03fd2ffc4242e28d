//! What is heard of the clock.
ghost use Rattle.std.specs.Prelude.{◌≡◌, ◌≤◌, ◌∷◌, [], List};
ghost use Rattle.chess_clock.specs.declared.times.Reading.{Reading as ReadingOf};
ghost use Rattle.dgt_frame.specs.declared.events.Event.{Event as EventOf};
ghost use Rattle.board_alarms.specs.Clock.{clock_of, counts_by, counts_of, counts_said, goes_down, later, lever_in, lever_of, lever_said, presses_of, running_in, runs_said, seconds_of};

use crate::chunk::Chunk;
use board_doubts::{Heard, runs};
use chess_clock::{Hms, Reading};
use dgt_frame::{Event, Message};

fn seconds(time: &Hms) -> u64
    ensures is { result ≡ seconds_of time.now }
    ensures small { result ≤ 40000 }
{
    let hours = time.hours as u64;
    let minutes = time.minutes as u64;
    let seconds = time.seconds as u64;
    3600 * hours + (60 * minutes + seconds)
}

fn goes_down(old: &Hms, new: &Hms) -> bool
    ensures { result ≡ goes_down old.now new.now }
{
    seconds(new) < seconds(old)
}

fn counts_for(white: bool, black: bool) -> Option<Heard>
    ensures { result ≡ counts_by white black }
{
    if white {
        if black {
            None
        } else {
            Some(Heard::Counts { black: false })
        }
    } else if black {
        Some(Heard::Counts { black: true })
    } else {
        None
    }
}

/// Whose time goes down from one reading to the next.
fn counts_from(old: &Option<Reading>, new: &Option<Reading>) -> Option<Heard>
    ensures { result ≡ counts_of old.now new.now }
{
    let Some(old) = old else {
        return None;
    };
    let Some(new) = new else {
        return None;
    };
    let white = goes_down(&old.white, &new.white);
    let black = goes_down(&old.black, &new.black);
    counts_for(white, black)
}

/// The same, if the board has sent the bytes that bring the next one.
pub fn counts(chunk: Chunk, old: &Option<Reading>, new: &Option<Reading>) -> Option<Heard>
    ensures { result ≡ counts_said chunk old.now new.now }
{
    if chunk.is_sent() {
        counts_from(old, new)
    } else {
        None
    }
}

/// Where the clock's lever is, by the seven bytes of a time message.
fn lever_of(times: &[u8; 7]) -> Option<bool>
    ensures { result ≡ lever_of times.now }
{
    if runs(times).is_some() {
        Some(times[6] / 2 % 2 == 1)
    } else {
        None
    }
}

fn lever_in(event: &Event) -> Option<bool>
    ensures { result ≡ lever_in event.now }
{
    match event {
        Event::Message(Message::Time(times)) => lever_of(times),
        _ => None,
    }
}

fn running_in(event: &Event) -> Option<bool>
    ensures { result ≡ running_in event.now }
{
    match event {
        Event::Message(Message::Time(times)) => runs(times),
        _ => None,
    }
}

/// What an event that these bytes bring says of the lever.
pub fn lever_said(chunk: Chunk, event: &Event) -> Option<bool>
    ensures { result ≡ lever_said chunk event.now }
{
    if chunk.is_sent() {
        lever_in(event)
    } else {
        None
    }
}

/// Whether the clock runs, if such an event says so.
fn runs_said(chunk: Chunk, event: &Event) -> Option<bool>
    ensures { result ≡ runs_said chunk event.now }
{
    if chunk.is_sent() {
        running_in(event)
    } else {
        None
    }
}

/// What is known, with what is said now.
pub fn later(now: Option<bool>, before: Option<bool>) -> Option<bool>
    ensures { result ≡ later now before }
{
    match now {
        None => before,
        Some(now) => Some(now),
    }
}

/// Whether the clock was pressed, by where its lever is and was.
pub fn presses(now: Option<bool>, before: Option<bool>) -> Option<Heard>
    ensures { result ≡ presses_of now before }
{
    let Some(now) = now else {
        return None;
    };
    let Some(before) = before else {
        return None;
    };
    let is_other = if now { !before } else { before };
    if is_other { Some(Heard::Presses) } else { None }
}

/// Whether it runs or stands.
pub fn clock(chunk: Chunk, event: &Event) -> Option<Heard>
    ensures { result ≡ clock_of (runs_said chunk event.now) }
{
    match runs_said(chunk, event) {
        None => None,
        Some(runs) => Some(Heard::Clock { runs }),
    }
}
