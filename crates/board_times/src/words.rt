//! The words of the file of times, and those with which a host tells a recorder more.
ghost use Rattle.std.specs.Prelude.{◌≡◌};
ghost use Rattle.std.specs.Str.{bytes_eq};
ghost use Rattle.board_times.specs.Words.{word_text};
ghost use Rattle.board_times.specs.Inside.Reading.{word_read};

/// The word of a line.
#[derive(Clone, Copy)]
pub enum Word {
    Version,
    Digest,
    Begin,
    Away,
    Opened,
    Answered,
    Gone,
    Called,
    Heard,
    Added,
    Brought,
    Stopped,
    Asked,
    Took,
    Over,
    Looked,
    Back,
    Reopened,
    Suspect,
    // of a host alone
    Wake,
    Lent,
    Number,
    Kept,
    Capture,
    Text,
}

impl Word {
    /// Its text.
    pub fn text(self) -> &'static [u8]
        ensures { result.now ≡ word_text self }
    {
        match self {
            Word::Version => b"times",
            Word::Digest => b"digest",
            Word::Begin => b"begin",
            Word::Away => b"away",
            Word::Opened => b"opened",
            Word::Answered => b"answered",
            Word::Gone => b"gone",
            Word::Called => b"called",
            Word::Heard => b"heard",
            Word::Added => b"added",
            Word::Brought => b"brought",
            Word::Stopped => b"stopped",
            Word::Asked => b"asked",
            Word::Took => b"took",
            Word::Over => b"over",
            Word::Looked => b"ok",
            Word::Back => b"back",
            Word::Reopened => b"reopened",
            Word::Suspect => b"suspect",
            Word::Wake => b"wake",
            Word::Lent => b"lent",
            Word::Number => b"number",
            Word::Kept => b"kept",
            Word::Capture => b"capture",
            Word::Text => b"text",
        }
    }
}

pub(crate) fn are_same(text: &[u8], other: &[u8]) -> bool
    ensures { result ≡ bytes_eq text.now other.now }
{
    *text == *other
}

/// The word that a text is, if it is one.
pub(crate) fn word_of(text: &[u8]) -> Option<Word>
    ensures { result ≡ word_read text.now }
{
    if are_same(text, b"times") {
        return Some(Word::Version);
    }
    if are_same(text, b"digest") {
        return Some(Word::Digest);
    }
    if are_same(text, b"begin") {
        return Some(Word::Begin);
    }
    if are_same(text, b"away") {
        return Some(Word::Away);
    }
    if are_same(text, b"opened") {
        return Some(Word::Opened);
    }
    if are_same(text, b"answered") {
        return Some(Word::Answered);
    }
    if are_same(text, b"gone") {
        return Some(Word::Gone);
    }
    if are_same(text, b"called") {
        return Some(Word::Called);
    }
    if are_same(text, b"heard") {
        return Some(Word::Heard);
    }
    if are_same(text, b"added") {
        return Some(Word::Added);
    }
    if are_same(text, b"brought") {
        return Some(Word::Brought);
    }
    if are_same(text, b"stopped") {
        return Some(Word::Stopped);
    }
    if are_same(text, b"asked") {
        return Some(Word::Asked);
    }
    if are_same(text, b"took") {
        return Some(Word::Took);
    }
    if are_same(text, b"over") {
        return Some(Word::Over);
    }
    if are_same(text, b"ok") {
        return Some(Word::Looked);
    }
    if are_same(text, b"back") {
        return Some(Word::Back);
    }
    if are_same(text, b"reopened") {
        return Some(Word::Reopened);
    }
    if are_same(text, b"suspect") {
        return Some(Word::Suspect);
    }
    if are_same(text, b"wake") {
        return Some(Word::Wake);
    }
    if are_same(text, b"lent") {
        return Some(Word::Lent);
    }
    if are_same(text, b"number") {
        return Some(Word::Number);
    }
    if are_same(text, b"kept") {
        return Some(Word::Kept);
    }
    if are_same(text, b"capture") {
        return Some(Word::Capture);
    }
    if are_same(text, b"text") {
        return Some(Word::Text);
    }
    None
}
