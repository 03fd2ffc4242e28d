//! The words of a movetext, as a reader finds them.
ghost use Rattle.std.specs.Prelude.{◌≡◌, ◌<◌, ◌∷◌, ◌≤◌, IfSome, IfNone};
ghost use Rattle.std.specs.Option.{ForSome};
ghost use Rattle.chess_clock.specs.Clock.{IsTime};
ghost use Rattle.pgn_book.specs.Inside.Parse.{is_break as is_break_lem, words, words_behind, is_move as is_move_lem, is_comment as is_comment_lem, digit_at, clock_at};

use chess_clock::Hms;

fn is_break(b: u8) -> bool
    ensures { result ≡ is_break_lem b }
{
    b == b' ' || b == b'\n'
}

/// The word at the front, and what stands behind the break after it.
pub fn first_word(bytes: &[u8]) -> (&[u8], Option<&[u8]>)
    ensures { words bytes.now ≡ result.0.now ∷ words_behind result.1 }
{
    for (i, b) in bytes.iter().enumerate() {
        if is_break(*b) {
            return (&bytes[..i], Some(&bytes[i + 1..]));
        }
    }
    (bytes, None)
}

/// Whether the word is a move's.
pub fn is_move(word: &[u8]) -> bool
    ensures { result ≡ is_move_lem word.now }
{
    match word {
        [] => false,
        [b, ..] => 64 < *b && *b < 123,
    }
}

fn is_comment(word: &[u8]) -> bool
    ensures { result ≡ is_comment_lem word.now }
{
    match word {
        [] => false,
        [b, ..] => *b == b'{',
    }
}

fn digit(bytes: &[u8], i: usize) -> u16
    ensures value { result ≡ digit_at bytes.now i }
    ensures small { result < 256 }
{
    if i < bytes.len() {
        u16::from(bytes[i].saturating_sub(b'0'))
    } else {
        0
    }
}

fn hms(hours: u16, minutes: u16, seconds: u16) -> Option<Hms>
    ensures some { IfSome result (λ t. (t.hours ≡ hours) × (t.minutes ≡ minutes) × (t.seconds ≡ seconds)) }
    ensures none { IfNone result ((hours ≤ 9) × (minutes ≤ 59) × (seconds ≤ 59) → ⊥) }
{
    if hours > 9 || minutes > 59 || seconds > 59 {
        return None;
    }
    Some(Hms {
        hours: hours as u8,
        minutes: minutes as u8,
        seconds: seconds as u8,
    })
}

/// The clock comment at the front, if one stands there.
fn read_clock(bytes: &[u8]) -> Option<Hms>
    ensures { ForSome (clock_at (words bytes.now)) IsTime → result ≡ clock_at (words bytes.now) }
{
    let (word, more) = first_word(bytes);
    if !is_comment(word) {
        return None;
    }
    let Some(more) = more else {
        return None;
    };
    let (time, _) = first_word(more);
    let hours = digit(time, 0);
    let minutes = digit(time, 2) * 10 + digit(time, 3);
    let seconds = digit(time, 5) * 10 + digit(time, 6);
    hms(hours, minutes, seconds)
}

/// The clock comment behind a move, if one stands there.
pub fn clock_behind(behind: Option<&[u8]>) -> Option<Hms>
    ensures { ForSome (clock_at (words_behind behind.entry)) IsTime → result ≡ clock_at (words_behind behind.entry) }
{
    match behind {
        None => None,
        Some(rest) => read_clock(rest),
    }
}
