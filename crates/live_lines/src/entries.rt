//! What a host tells: its entries and their lines.
ghost use Rattle.std.specs.Prelude.{◌≡◌, None, Some};
ghost use Rattle.board_times.specs.Times.{tail_of as tail_of_event};
ghost use Rattle.live_lines.specs.Entries.{brings_capture, brings_times, entry_line, size_of, tail_of, wants_text};
ghost use Rattle.live_lines.specs.Inside.Reading.{entry_by, entry_of, own_what};

use board_times::{Event, Line, Tail, What as Happening, Word, event_of, line_of};

/// What is told.
#[derive(Clone, Copy)]
pub enum What {
    /// What stands in a file of times too. Bytes that came or were added stand behind the line.
    Happens(Happening),
    /// The time has come that was named.
    Wakes,
    /// Another game has taken what was kept aside.
    Lends,
    /// The text of the game is wanted.
    WantsText,
    /// The serial number of the game's board, which has so many bytes, stands behind the line.
    Owns(u64),
    /// The file of times of the calls before, which has so many bytes, does.
    KeepsTimes(u64),
    /// Their capture, which has so many bytes, does.
    KeepsBytes(u64),
}

/// What is told of a time, in milliseconds on one clock over all calls.
#[derive(Clone, Copy)]
pub struct Entry {
    pub at: u64,
    pub what: What,
}

fn alone(word: Word) -> Tail
    ensures { result ≡ record { word = word; number = None } }
{
    Tail { word, number: None }
}

fn with_number(word: Word, n: u64) -> Tail
    ensures { result ≡ record { word = word; number = Some n } }
{
    Tail {
        word,
        number: Some(n),
    }
}

fn tail_of_event(what: Happening) -> Tail
    ensures { result ≡ tail_of_event what }
{
    line_of(Event { at: 0, what }).tail
}

impl What {
    fn tail(self) -> Tail
        ensures { result ≡ tail_of self }
    {
        match self {
            What::Happens(what) => tail_of_event(what),
            What::Wakes => alone(Word::Wake),
            What::Lends => alone(Word::Lent),
            What::WantsText => alone(Word::Text),
            What::Owns(n) => with_number(Word::Number, n),
            What::KeepsTimes(n) => with_number(Word::Kept, n),
            What::KeepsBytes(n) => with_number(Word::Capture, n),
        }
    }

    /// How many bytes stand behind the line.
    pub fn size(self) -> u64
        ensures { result ≡ size_of self }
    {
        match self {
            What::Happens(Happening::Hears(n)) => n,
            What::Happens(Happening::Adds(n)) => n,
            What::Happens(Happening::Brings(n)) => n,
            What::Owns(n) => n,
            What::KeepsTimes(n) => n,
            What::KeepsBytes(n) => n,
            _ => 0,
        }
    }

    /// Whether they are a file of times.
    pub fn brings_times(self) -> bool
        ensures { result ≡ brings_times self }
    {
        matches!(self, What::KeepsTimes(_))
    }

    /// Whether they are a capture.
    pub fn brings_capture(self) -> bool
        ensures { result ≡ brings_capture self }
    {
        matches!(self, What::KeepsBytes(_))
    }

    /// Whether the text of the game is wanted.
    pub fn wants_text(self) -> bool
        ensures { result ≡ wants_text self }
    {
        matches!(self, What::WantsText)
    }
}

/// The line of an entry.
pub fn entry_line(entry: Entry) -> Line
    ensures { result ≡ entry_line entry }
{
    Line {
        first: entry.at,
        tail: entry.what.tail(),
    }
}

fn own_alone(word: Word) -> Option<What>
    ensures { result ≡ own_what word None }
{
    match word {
        Word::Wake => Some(What::Wakes),
        Word::Lent => Some(What::Lends),
        Word::Text => Some(What::WantsText),
        _ => None,
    }
}

fn own_with(word: Word, n: u64) -> Option<What>
    ensures { result ≡ own_what word (Some n) }
{
    match word {
        Word::Number => Some(What::Owns(n)),
        Word::Kept => Some(What::KeepsTimes(n)),
        Word::Capture => Some(What::KeepsBytes(n)),
        _ => None,
    }
}

fn own_what(tail: Tail) -> Option<What>
    ensures { result ≡ own_what tail.word tail.number }
{
    match tail.number {
        None => own_alone(tail.word),
        Some(n) => own_with(tail.word, n),
    }
}

fn entry_by(at: u64, own: Option<What>, event: Option<Event>) -> Option<Entry>
    ensures { result ≡ entry_by at own event }
{
    match (own, event) {
        (Some(what), _) => Some(Entry { at, what }),
        (None, None) => None,
        (None, Some(event)) => Some(Entry {
            at: event.at,
            what: What::Happens(event.what),
        }),
    }
}

/// The entry of a line, if it has one.
pub fn entry_of(line: Line) -> Option<Entry>
    ensures { result ≡ entry_of line }
{
    entry_by(line.first, own_what(line.tail), event_of(line))
}
