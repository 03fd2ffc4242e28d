//! What stands in a file of times.
ghost use Rattle.std.specs.Prelude.{◌≡◌, None, Some};
ghost use Rattle.board_times.specs.Times.{line_of, tail_of};
ghost use Rattle.board_times.specs.Inside.Reading.{event_of, what_of};

use crate::lines::{Line, Tail};
use crate::words::Word;

/// What happens at a board.
#[derive(Clone, Copy)]
pub enum What {
    /// A call of the recorder begins, and with it a clock; the capture has so many bytes.
    Begins(u64),
    /// Nobody was there for so many milliseconds before this call. Without it that isn't known.
    IsAway(u64),
    /// The line has been opened.
    Opens,
    /// A board behind a serial server has answered.
    Answers,
    /// The line has gone away.
    Goes,
    /// A serial server is hung up and called again.
    Calls,
    /// So many bytes came.
    Hears(u64),
    /// So many bytes were added by hand.
    Adds(u64),
    /// So many bytes came over another game's cable.
    Brings(u64),
    /// Nobody listened for so many milliseconds.
    Stops(u64),
    /// The board was sent a request of so many bytes: 42; 45 42; or 45 42 4B.
    Asks(u64),
    /// The arbiter has taken the board on the cable.
    Takes,
    /// The game is over: it is the first so many bytes of the capture.
    Ends(u64),
    /// Somebody has looked: no alarm is open any more.
    Looks,
    /// Plies were taken off, or the game is taken up: the pieces are to be put where they belong.
    PutsBack,
    /// An arbiter reopens the game: he has taken its result off, or says that it isn't over.
    Reopens,
    /// The recorder suspects something that no board shows. By this number it knows what.
    Suspects(u64),
}

/// What happens at a time, in milliseconds from the beginning of the call.
#[derive(Clone, Copy)]
pub struct Event {
    pub at: u64,
    pub what: What,
}

/// The heading of a file of times.
#[derive(Clone, Copy)]
pub struct Heading {
    /// How often the game has gone back.
    pub generation: u64,
    /// How many bytes the capture had when the file was made.
    pub size: u64,
    /// The digest of those bytes.
    pub digest: u64,
}

impl What {
    fn tail(self) -> Tail
        ensures { result ≡ tail_of self }
    {
        match self {
            What::Begins(n) => with_number(Word::Begin, n),
            What::IsAway(n) => with_number(Word::Away, n),
            What::Opens => alone(Word::Opened),
            What::Answers => alone(Word::Answered),
            What::Goes => alone(Word::Gone),
            What::Calls => alone(Word::Called),
            What::Hears(n) => with_number(Word::Heard, n),
            What::Adds(n) => with_number(Word::Added, n),
            What::Brings(n) => with_number(Word::Brought, n),
            What::Stops(n) => with_number(Word::Stopped, n),
            What::Asks(n) => with_number(Word::Asked, n),
            What::Takes => alone(Word::Took),
            What::Ends(n) => with_number(Word::Over, n),
            What::Looks => alone(Word::Looked),
            What::PutsBack => alone(Word::Back),
            What::Reopens => alone(Word::Reopened),
            What::Suspects(n) => with_number(Word::Suspect, n),
        }
    }
}

fn with_number(word: Word, n: u64) -> Tail
    ensures { result ≡ record { word = word; number = Some n } }
{
    Tail {
        word,
        number: Some(n),
    }
}

fn alone(word: Word) -> Tail
    ensures { result ≡ record { word = word; number = None } }
{
    Tail { word, number: None }
}

fn with(word: Word, n: u64) -> Option<What>
    ensures { result ≡ what_of word (Some n) }
{
    match word {
        Word::Begin => Some(What::Begins(n)),
        Word::Away => Some(What::IsAway(n)),
        Word::Heard => Some(What::Hears(n)),
        Word::Added => Some(What::Adds(n)),
        Word::Brought => Some(What::Brings(n)),
        Word::Stopped => Some(What::Stops(n)),
        Word::Asked => Some(What::Asks(n)),
        Word::Over => Some(What::Ends(n)),
        Word::Suspect => Some(What::Suspects(n)),
        _ => None,
    }
}

fn without(word: Word) -> Option<What>
    ensures { result ≡ what_of word None }
{
    match word {
        Word::Opened => Some(What::Opens),
        Word::Answered => Some(What::Answers),
        Word::Gone => Some(What::Goes),
        Word::Called => Some(What::Calls),
        Word::Took => Some(What::Takes),
        Word::Looked => Some(What::Looks),
        Word::Back => Some(What::PutsBack),
        Word::Reopened => Some(What::Reopens),
        _ => None,
    }
}

fn what_of(tail: Tail) -> Option<What>
    ensures { result ≡ what_of tail.word tail.number }
{
    match tail.number {
        None => without(tail.word),
        Some(n) => with(tail.word, n),
    }
}

/// The line of an event.
pub fn line_of(event: Event) -> Line
    ensures { result ≡ line_of event }
{
    Line {
        first: event.at,
        tail: event.what.tail(),
    }
}

/// The event of a line, if it has one.
pub fn event_of(line: Line) -> Option<Event>
    ensures { result ≡ event_of line }
{
    match what_of(line.tail) {
        None => None,
        Some(what) => Some(Event {
            at: line.first,
            what,
        }),
    }
}
