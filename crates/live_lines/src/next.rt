//! The next entry of what came so far.
ghost use Rattle.std.specs.Prelude.{◌≡◌, ◌++◌, true};
ghost use Rattle.board_times.specs.Inside.Reading.{lacks};
ghost use Rattle.board_times.specs.Lines.{Fits, line_text};
ghost use Rattle.live_lines.specs.Entries.{entry_line};
ghost use Rattle.live_lines.specs.Next.{IsNext};

use crate::entries::{Entry, entry_of};
use board_times::{read_line, split};

/// More bytes than this stand behind no line: a capture has no more.
const MOST: u64 = 67_108_864;

/// A line has fewer bytes.
const LINE: usize = 64;

/// An entry, its bytes, and what follows it.
#[derive(Clone, Copy)]
pub struct Told<'a> {
    pub entry: Entry,
    pub bytes: &'a [u8],
    pub rest: &'a [u8],
}

/// What begins a text of which more may come.
#[derive(Clone, Copy)]
pub enum Next<'a> {
    Told(Told<'a>),
    /// No whole entry yet.
    Waits,
    /// No entry, whatever may come.
    Wrong,
}

/// What begins a text without a line feed.
fn unfinished_line<'a>(text: &'a [u8]) -> Next<'a>
    requires { lacks 10 text.now ≡ true }
    ensures { IsNext text.now result }
{
    if text.len() < LINE {
        Next::Waits
    } else {
        Next::Wrong
    }
}

/// What begins a text that this line begins, which has an entry.
fn with_bytes<'a>(text: &'a [u8], entry: Entry, behind: &'a [u8]) -> Next<'a>
    requires fits { Fits (entry_line entry) }
    requires is { text.now ≡ line_text (entry_line entry) ++ behind.now }
    ensures { IsNext text.now result }
{
    let size = entry.what.size();
    if MOST < size {
        return Next::Wrong;
    }
    let count = size as usize;
    if behind.len() < count {
        return Next::Waits;
    }
    Next::Told(Told {
        entry,
        bytes: &behind[..count],
        rest: &behind[count..],
    })
}

/// What begins a text of which more may come.
pub fn next_entry<'a>(text: &'a [u8]) -> Next<'a>
    ensures { IsNext text.now result }
{
    let Some((first, behind)) = split(text, b'\n') else {
        return unfinished_line(text);
    };
    let Some(line) = read_line(first) else {
        return Next::Wrong;
    };
    let Some(entry) = entry_of(line) else {
        return Next::Wrong;
    };
    with_bytes(text, entry, behind)
}
