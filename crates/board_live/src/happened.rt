//! What happens at a board that is recorded.
ghost use Rattle.std.specs.Prelude.{◌≡◌};
ghost use Rattle.std.specs.Str.{bytes_eq};
ghost use Rattle.board_cable.specs.Moments.{sent};
ghost use Rattle.board_live.specs.Coming.{lined, silence};
ghost use Rattle.board_live.specs.Moments.{already, at_cable, begins, cable_moment, is_added, moment_of, news_of, stopped};
ghost use Rattle.board_live.specs.Numbers.{is_number, is_told, number_news};
ghost use Rattle.board_live.specs.Saying.{live_by};

use board_cable::{Happened as Cabled, What as AtCable};
use board_game::Note;
use board_standing::Heard;

/// In this time a result may be taken back, in milliseconds.
const UNHEEDED: u64 = 10_000;

/// What happens.
#[derive(Clone, Copy)]
pub enum What {
    /// This happens at the cable.
    Cable(AtCable),
    /// Bytes were added by hand: they are in the capture already.
    Adds,
    /// The board has sent bytes over another game's cable: they are in the capture already.
    Brings,
    /// Nobody listened for so many milliseconds.
    Stops(u64),
    /// Of a call before this one: the capture got these bytes from the board.
    Keeps,
    /// Of a call before this one: these bytes were added by hand.
    KeepsAdded,
    /// Of a call before this one: this was told of the line.
    Tells(Heard),
    /// This comes of the game beside its bytes.
    Notes(Note),
}

/// What happens at a time, in milliseconds.
#[derive(Clone, Copy)]
pub struct Happened {
    pub at: u64,
    pub what: What,
}

/// What this is at the cable. What was kept of a call before happens elsewhere: the cable only wakes.
fn at_cable(what: What) -> AtCable
    ensures { result ≡ at_cable what }
{
    match what {
        What::Cable(what) => what,
        What::Adds | What::Brings | What::Stops(_) => AtCable::Interrupts,
        What::Keeps | What::KeepsAdded | What::Tells(_) | What::Notes(_) => AtCable::Wakes,
    }
}

pub fn cabled(happened: Happened) -> Cabled
    ensures { result ≡ record { at = happened.at; what = at_cable happened.what } }
{
    Cabled {
        at: happened.at,
        what: at_cable(happened.what),
    }
}

/// The bytes that the board has sent.
pub fn sent(happened: Happened, bytes: &[u8]) -> &[u8]
    ensures { result.now ≡ sent (cable_moment (moment_of happened bytes.now)) }
{
    match happened.what {
        What::Cable(AtCable::Hears) => bytes,
        _ => &[],
    }
}

/// The bytes that the capture has already.
pub fn already(what: What, bytes: &[u8]) -> &[u8]
    ensures { result.now ≡ already what bytes.now }
{
    match what {
        What::Adds | What::Brings | What::Keeps | What::KeepsAdded => bytes,
        _ => &[],
    }
}

/// Whether they were added by hand.
pub fn is_added(what: What) -> bool
    ensures { result ≡ is_added what }
{
    matches!(what, What::Adds | What::KeepsAdded)
}

/// What this tells of the line.
pub fn lined(heard: Option<Heard>) -> Option<Note>
    ensures { result ≡ lined heard }
{
    match heard {
        None => None,
        Some(heard) => Some(Note::Line(heard)),
    }
}

/// What it tells that nobody listened for so long.
pub fn stopped(time: u64) -> Option<Note>
    ensures { result ≡ stopped time }
{
    if time < UNHEEDED {
        None
    } else {
        Some(Note::Resumes)
    }
}

/// What comes of the game beside its bytes.
pub fn news_of(what: What) -> Option<Note>
    ensures { result ≡ news_of what }
{
    match what {
        What::Cable(AtCable::Begins) => Some(Note::Line(Heard::Begins)),
        What::Cable(AtCable::Opens) => Some(Note::Line(Heard::Plugs)),
        What::Cable(AtCable::Closes) => Some(Note::Line(Heard::Unplugs)),
        What::Stops(time) => stopped(time),
        What::Tells(heard) => Some(Note::Line(heard)),
        What::Notes(note) => Some(note),
        _ => None,
    }
}

/// Whether a call begins.
pub fn begins(what: What) -> bool
    ensures { result ≡ begins what }
{
    matches!(what, What::Cable(AtCable::Begins))
}

/// Whether this call has begun.
pub fn live_after(what: What, before: bool) -> bool
    ensures { result ≡ live_by what before }
{
    match what {
        What::Cable(AtCable::Begins) => true,
        What::Keeps | What::KeepsAdded | What::Tells(_) => false,
        _ => before,
    }
}

/// What the board's silence tells, before and after something has happened.
pub fn silence(what: What, before: bool, now: bool) -> Option<Heard>
    ensures { result ≡ silence what before now }
{
    if now {
        return Some(Heard::Stops);
    }
    if before || begins(what) {
        Some(Heard::Answers)
    } else {
        None
    }
}

/// Whether the host itself tells the number of the game's board.
fn is_told(what: What) -> bool
    ensures { result ≡ is_told what }
{
    matches!(what, What::Cable(AtCable::Owns(_)))
}

fn are_same(number: &[u8], other: &[u8]) -> bool
    ensures { result ≡ bytes_eq number.now other.now }
{
    *number == *other
}

/// Whether this is the number, if there is one.
fn is_number(number: &[u8; 5], other: &Option<[u8; 5]>) -> bool
    ensures { result ≡ is_number number.now other.now }
{
    match other {
        None => false,
        Some(other) => are_same(number, other),
    }
}

/// The number of the game's board, by what it was before and is now, if it is news.
pub fn number_news(what: What, before: &Option<[u8; 5]>, now: &Option<[u8; 5]>) -> Option<[u8; 5]>
    ensures { result ≡ number_news what before.now now.now }
{
    let Some(number) = now else {
        return None;
    };
    let is_old = is_number(number, before);
    if is_told(what) || is_old {
        None
    } else {
        Some(*number)
    }
}
