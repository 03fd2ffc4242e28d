//! A file of times as lines for a person who looks for what happened.
ghost use Rattle.std.specs.Prelude.{◌≡◌, ◌<◌, ◌++◌, IfOk, codes, decimal};
ghost use Rattle.board_times.specs.Listing.{bytes_text, clock_text, colon_and_two, event_line, event_lines, heading_line, listing_of, point_and_three, rest_line, words_of};

use crate::events::{Event, Heading, What};
use crate::fitting::after;
use crate::reading::Kept;
use itoa::Buffer;
use std::alloc::{AllocError, Global};

/// Adds a text.
fn add_text(text: &[u8], out: &mut Vec<u8>) -> Result<(), AllocError>
    ensures { IfOk result (λ _. out.new.items ≡ out.old.items ++ text.now) }
{
    out.extend_from_slice(text)
}

/// Adds a number.
fn add_decimal(n: u64, out: &mut Vec<u8>) -> Result<(), AllocError>
    ensures { IfOk result (λ _. out.new.items ≡ out.old.items ++ decimal n) }
{
    let mut buffer = Buffer::new();
    out.extend_from_slice(buffer.format(n).as_bytes())
}

/// Adds a colon and two digits.
fn add_sixtieths(n: u8, out: &mut Vec<u8>) -> Result<(), AllocError>
    requires { n < 60 }
    ensures { IfOk result (λ _. out.new.items ≡ out.old.items ++ colon_and_two n) }
{
    out.extend_from_slice(&[b':', b'0' + n / 10, b'0' + n % 10])
}

/// Adds a point and three digits.
fn add_thousandths(n: u16, out: &mut Vec<u8>) -> Result<(), AllocError>
    requires { n < 1000 }
    ensures { IfOk result (λ _. out.new.items ≡ out.old.items ++ point_and_three n) }
{
    let hundreds = b'0' + (n / 100) as u8;
    let tens = b'0' + (n / 10 % 10) as u8;
    let units = b'0' + (n % 10) as u8;
    out.extend_from_slice(&[b'.', hundreds, tens, units])
}

/// Adds some milliseconds as a clock shows them.
fn add_clock(time: u64, out: &mut Vec<u8>) -> Result<(), AllocError>
    ensures { IfOk result (λ _. out.new.items ≡ out.old.items ++ clock_text time) }
{
    add_decimal(time / 3_600_000, out)?;
    add_sixtieths((time / 60_000 % 60) as u8, out)?;
    add_sixtieths((time / 1000 % 60) as u8, out)?;
    add_thousandths((time % 1000) as u16, out)
}

/// Adds a text, and a number behind it.
fn add_with_decimal(text: &[u8], n: u64, out: &mut Vec<u8>) -> Result<(), AllocError>
    ensures { IfOk result (λ _. out.new.items ≡ out.old.items ++ (text.now ++ decimal n)) }
{
    out.extend_from_slice(text)?;
    add_decimal(n, out)
}

/// Adds a text, a number behind it, and the end of the line.
fn add_line_with(text: &[u8], n: u64, out: &mut Vec<u8>) -> Result<(), AllocError>
    ensures { IfOk result (λ _. out.new.items ≡ out.old.items ++ (text.now ++ decimal n ++ codes "\n")) }
{
    add_with_decimal(text, n, out)?;
    out.extend_from_slice(b"\n")
}

/// Adds a text, and some milliseconds behind it.
fn add_with_clock(text: &[u8], time: u64, out: &mut Vec<u8>) -> Result<(), AllocError>
    ensures { IfOk result (λ _. out.new.items ≡ out.old.items ++ (text.now ++ clock_text time)) }
{
    out.extend_from_slice(text)?;
    add_clock(time, out)
}

/// Adds the bytes of a capture from one offset up to another.
fn add_bytes(from: u64, behind: u64, out: &mut Vec<u8>) -> Result<(), AllocError>
    ensures { IfOk result (λ _. out.new.items ≡ out.old.items ++ bytes_text from behind) }
{
    if from >= behind {
        return out.extend_from_slice(b"no bytes");
    }
    add_with_decimal(b"bytes ", from, out)?;
    add_with_decimal(b" to ", behind - 1, out)
}

/// Adds what became of the bytes of a capture.
fn add_with_bytes(from: u64, behind: u64, text: &[u8], out: &mut Vec<u8>) -> Result<(), AllocError>
    ensures { IfOk result (λ _. out.new.items ≡ out.old.items ++ (bytes_text from behind ++ text.now)) }
{
    add_bytes(from, behind, out)?;
    out.extend_from_slice(text)
}

/// Adds what happened.
fn add_words(what: What, before: u64, behind: u64, out: &mut Vec<u8>) -> Result<(), AllocError>
    ensures { IfOk result (λ _. out.new.items ≡ out.old.items ++ words_of what before behind) }
{
    match what {
        What::Begins(size) => add_with_decimal(b"a call begins, bytes in the capture: ", size, out),
        What::IsAway(time) => {
            add_with_clock(b"nobody had listened before this call for ", time, out)
        }
        What::Opens => add_text(b"the line is open", out),
        What::Answers => add_text(b"the board behind the serial server answers", out),
        What::Goes => add_text(b"the line has gone away", out),
        What::Calls => add_text(b"the serial server is called again", out),
        What::Hears(_) => add_with_bytes(before, behind, b" came", out),
        What::Adds(_) => add_with_bytes(before, behind, b" were added by hand", out),
        What::Brings(_) => {
            add_with_bytes(before, behind, b" came over the cable of another game", out)
        }
        What::Stops(time) => add_with_clock(b"nobody had listened for ", time, out),
        What::Asks(count) => add_with_decimal(b"the board is asked, bytes sent: ", count, out),
        What::Takes => add_text(b"the arbiter takes the board on the cable", out),
        What::Ends(size) => add_with_decimal(b"the game is over, its bytes: ", size, out),
        What::Looks => add_text(b"somebody has looked: no alarm is open", out),
        What::PutsBack => add_text(b"the pieces are to be put where they belong", out),
        What::Reopens => add_text(b"an arbiter reopens the game", out),
        What::Suspects(n) => {
            add_with_decimal(b"the recorder suspects something, its number: ", n, out)
        }
    }
}

/// Adds the line of an event.
fn add_event(event: Event, before: u64, behind: u64, out: &mut Vec<u8>) -> Result<(), AllocError>
    ensures { IfOk result (λ _. out.new.items ≡ out.old.items ++ (clock_text event.at ++ codes " " ++ words_of event.what before behind ++ codes "\n")) }
{
    add_clock(event.at, out)?;
    out.extend_from_slice(b" ")?;
    add_words(event.what, before, behind, out)?;
    out.extend_from_slice(b"\n")
}

/// Adds the lines of events.
fn add_events(size: u64, events: &[Event], out: &mut Vec<u8>) -> Result<(), AllocError>
    ensures { IfOk result (λ _. out.new.items ≡ out.old.items ++ event_lines size events.now) }
{
    let mut before = size;
    for event in events {
        let behind = after(event.what, before);
        add_event(*event, before, behind, out)?;
        before = behind;
    }
    Ok(())
}

/// Adds the line of the heading.
fn add_heading(heading: &Heading, out: &mut Vec<u8>) -> Result<(), AllocError>
    ensures { IfOk result (λ _. out.new.items ≡ out.old.items ++ heading_line heading.now) }
{
    add_with_decimal(b"generation ", heading.generation, out)?;
    add_line_with(b", bytes when it began: ", heading.size, out)
}

/// Adds the line about what stands behind the last event, if anything does.
fn add_rest(rest: usize, out: &mut Vec<u8>) -> Result<(), AllocError>
    ensures { IfOk result (λ _. out.new.items ≡ out.old.items ++ rest_line rest) }
{
    if rest == 0 {
        return Ok(());
    }
    add_line_with(b"no event, bytes at the end: ", rest as u64, out)
}

/// The lines of a file of times: one for its heading, one for each event, and one for what stands behind them. It takes memory for
/// them.
pub fn listing_of(alloc: Global, kept: &Kept) -> Result<Vec<u8>, AllocError>
    ensures { IfOk result (λ text. text.items ≡ listing_of kept.now) }
{
    let mut text = Vec::new(alloc);
    add_heading(&kept.heading, &mut text)?;
    add_events(kept.heading.size, &kept.events, &mut text)?;
    add_rest(kept.rest, &mut text)?;
    Ok(text)
}
