//! What was kept of the calls before.
ghost use Rattle.std.specs.Prelude.{◌≡◌, ◌↔◌, ◌++◌, [], ℕ, Bool, IsTrue, List, OnOk, drop, take};
ghost use Rattle.live_lines.specs.Clock.{clock_over};
ghost use Rattle.live_lines.specs.Heard.{events_by, events_for};
ghost use Rattle.board_events.specs.Settings.{Setting};
ghost use Rattle.board_live.specs.Laws.{kept_as, told_as, with_kept, with_told};
ghost use Rattle.board_live.specs.Live.{HasBegun, StandsFor};
ghost use Rattle.board_live.specs.Moments.{Moment};
ghost use Rattle.board_times.specs.Fitting.{covered_after};
ghost use Rattle.live_lines.specs.History.{coming, history_of, is_added, news_of};

use crate::clock::Clock;
use crate::entries::{Entry, What};
use board_game::Note;
use board_live::{Happened, Live, What as ToBoard, stopped};
use board_standing::Heard;
use board_times::{Event, Fit, Found, What as Happening, fit_of};
use std::alloc::AllocError;

/// What an event tells beside bytes.
fn news_of(what: Happening) -> Option<Note>
    ensures { result ≡ news_of what }
{
    match what {
        Happening::Begins(_) => Some(Note::Line(Heard::Begins)),
        Happening::Opens => Some(Note::Line(Heard::Plugs)),
        Happening::Goes => Some(Note::Line(Heard::Unplugs)),
        Happening::Looks => Some(Note::Looked),
        Happening::PutsBack => Some(Note::PutsBack),
        Happening::Reopens => Some(Note::Reopens),
        Happening::Ends(_) => Some(Note::Passes),
        Happening::Stops(time) => stopped(time),
        Happening::Suspects(n) => Some(Note::Suspects(n)),
        _ => None,
    }
}

/// Whether its bytes were added by hand.
fn is_added(what: Happening) -> bool
    ensures { result ≡ is_added what }
{
    matches!(what, Happening::Adds(_))
}

fn coming(what: Happening, covered: u64) -> u64
    ensures { result ≡ coming what covered }
{
    match what {
        Happening::Begins(size) => size.saturating_sub(covered),
        Happening::Hears(n) | Happening::Adds(n) | Happening::Brings(n) => n,
        _ => 0,
    }
}

fn covered_after(what: Happening, covered: u64) -> u64
    ensures { result ≡ covered_after what covered }
{
    match what {
        Happening::Begins(size) => size,
        Happening::Hears(n) | Happening::Adds(n) | Happening::Brings(n) => {
            covered.saturating_add(n)
        }
        _ => covered,
    }
}

/// The first bytes, so many, and those behind them.
fn cut(bytes: &[u8], count: u64) -> (&[u8], &[u8])
    ensures first { result.0.now ≡ take count bytes.now }
    ensures rest { result.1.now ≡ drop count bytes.now }
{
    if (bytes.len() as u64) < count {
        return (bytes, &[]);
    }
    let count = count as usize;
    (&bytes[..count], &bytes[count..])
}

fn is_nothing(bytes: &[u8]) -> bool
    ensures { IsTrue result ↔ (bytes.now ≡ []) }
{
    bytes.is_empty()
}

/// What was kept of bytes that were added by hand, or of others.
fn kept_as(added: bool) -> ToBoard
    ensures { result ≡ kept_as added }
{
    if added {
        ToBoard::KeepsAdded
    } else {
        ToBoard::Keeps
    }
}

/// What was kept of what isn't in the bytes.
fn told_as(note: Note) -> ToBoard
    ensures { result ≡ told_as note }
{
    match note {
        Note::Line(heard) => ToBoard::Tells(heard),
        _ => ToBoard::Notes(note),
    }
}

/// Tells a board that its capture got these bytes, if there are any, and whether they were added by hand.
fn keep(
    live: &mut Live,
    at: u64,
    added: bool,
    bytes: &[u8],
    lines: &mut Vec<u8>,
) -> Result<(), AllocError>
    requires begun { HasBegun live.old }
    ensures told { (setting : Setting) (recovers : Bool) (past : List Moment) (text : List ℕ) → StandsFor live.old setting recovers past text
        → OnOk result ((more : List ℕ) × (lines.new.items ≡ lines.old.items ++ more)
        × StandsFor live.new setting recovers (with_kept at added bytes.now past) (text ++ more)) }
    ensures begun { OnOk result (HasBegun live.new) }
{
    if is_nothing(bytes) {
        return Ok(());
    }
    let what = kept_as(added);
    live.take(Happened { at, what }, bytes, lines)?;
    Ok(())
}

/// Tells a board what isn't in the bytes, if there is anything.
fn tell(live: &mut Live, at: u64, news: Option<Note>, lines: &mut Vec<u8>) -> Result<(), AllocError>
    requires begun { HasBegun live.old }
    ensures told { (setting : Setting) (recovers : Bool) (past : List Moment) (text : List ℕ) → StandsFor live.old setting recovers past text
        → OnOk result ((more : List ℕ) × (lines.new.items ≡ lines.old.items ++ more)
        × StandsFor live.new setting recovers (with_told at news past) (text ++ more)) }
    ensures begun { OnOk result (HasBegun live.new) }
{
    let Some(note) = news else {
        return Ok(());
    };
    let what = told_as(note);
    live.take(Happened { at, what }, &[], lines)?;
    Ok(())
}

fn copy(event: &Event) -> Event
    ensures { result ≡ event.now }
{
    *event
}

/// What events say of a capture that their file fits so.
fn events_by(fit: Fit, events: &[Event]) -> &[Event]
    ensures { result.now ≡ events_by fit events.now }
{
    match fit {
        Fit::Another => &[],
        _ => events,
    }
}

/// What a file of times says of a capture.
pub fn events_for<'a>(found: &'a Found, capture: &[u8]) -> &'a [Event]
    ensures { result.now ≡ events_for found.now capture.now }
{
    match found {
        Found::Times(kept) => events_by(fit_of(kept, capture), kept.events.as_slice()),
        _ => &[],
    }
}

/// Tells a board what was kept of the calls before, and appends the lines of the report. The clock goes on.
pub fn tell_history(
    live: &mut Live,
    clock: &mut Clock,
    events: &[Event],
    capture: &[u8],
    lines: &mut Vec<u8>,
) -> Result<(), AllocError>
    requires begun { HasBegun live.old }
    ensures told { (setting : Setting) (recovers : Bool) (past : List Moment) (text : List ℕ) → StandsFor live.old setting recovers past text
        → OnOk result ((more : List ℕ) × (lines.new.items ≡ lines.old.items ++ more)
        × StandsFor live.new setting recovers (history_of clock.old events.now capture.now past) (text ++ more)) }
    ensures clock { OnOk result (clock.new ≡ clock_over clock.old events.now) }
    ensures begun { OnOk result (HasBegun live.new) }
{
    let mut covered: u64 = 0;
    let mut rest = capture;
    'events: for event in events {
        let happened = copy(event);
        let entry = Entry {
            at: happened.at,
            what: What::Happens(happened.what),
        };
        let at = clock.take(entry);
        let (now, later) = cut(rest, coming(happened.what, covered));
        keep(live, at, is_added(happened.what), now, lines)?;
        tell(live, at, news_of(happened.what), lines)?;
        covered = covered_after(happened.what, covered);
        rest = later;
    }
    keep(live, clock.last(), false, rest, lines)?;
    Ok(())
}
