//! What a recorder answers: the bytes that the capture gets, the new lines of the report, what explains the board, the text of the
//! game, and the lines of `answer_lines`.
ghost use Rattle.std.specs.Prelude.{◌≡◌, ◌++◌, ℕ, List, IfOk, OnOk};
ghost use Rattle.live_lines.specs.Answers.{answer_text, capture_text, counted, fits_text, game_text, kept_text, lasting, said_of, state_for, wake_in};

use answer_lines::{Said, add_answer as add_said, add_end, add_looks};
use board_alarms::Look;
use board_live::Answer;
use board_standing::State;
use itoa::Buffer;
use std::alloc::{AllocError, Global};

/// Adds bytes behind a line with a word that says how many, if there are any.
fn add_counted(word: &[u8], bytes: &[u8], out: &mut Vec<u8>) -> Result<(), AllocError>
    ensures { IfOk result (λ _. out.new.items ≡ out.old.items ++ counted word.now bytes.now) }
{
    if bytes.is_empty() {
        return Ok(());
    }
    let mut buffer = Buffer::new();
    out.extend_from_slice(word)?;
    out.extend_from_slice(buffer.format(bytes.len() as u64).as_bytes())?;
    out.extend_from_slice(b"\n")?;
    out.extend_from_slice(bytes)
}

/// How long it has been so since this time.
fn lasting(now: u64, since: Option<u64>) -> Option<u64>
    ensures { result ≡ lasting now since }
{
    match since {
        None => None,
        Some(since) => Some(now.saturating_sub(since)),
    }
}

/// In how long this time comes.
fn wake_in(now: u64, due: Option<u64>) -> Option<u64>
    ensures { result ≡ wake_in now due }
{
    match due {
        None => None,
        Some(due) => Some(due.saturating_sub(now)),
    }
}

/// A state, with how long it has been so in place of since when.
fn state_for(now: u64, state: Option<State>) -> Option<State>
    ensures { result ≡ state_for now state }
{
    match state {
        None => None,
        Some(state) => Some(State {
            kind: state.kind,
            since: lasting(now, state.since),
            squares: state.squares,
            hint: state.hint,
        }),
    }
}

/// What is said at this time: its times are spans from now.
fn said_of(now: u64, answer: &Answer, due: Option<u64>) -> Said
    ensures { result ≡ said_of now answer.now due }
{
    Said {
        handling: Some(answer.handling),
        number: answer.number,
        request: answer.request,
        is_whole: answer.is_whole,
        is_clock_stopped: answer.is_clock_stopped,
        state: state_for(now, answer.state),
        due: wake_in(now, due),
    }
}

/// Adds the bytes that the capture gets, the new lines of the report, what explains the board, and the text of the game.
fn add_bytes(
    kept: &[u8],
    lines: &[u8],
    fits: &[u8],
    game: &[u8],
    out: &mut Vec<u8>,
) -> Result<(), AllocError>
    ensures { IfOk result (λ _. out.new.items ≡ out.old.items ++ (kept_text kept.now ++ lines.now ++ fits_text fits.now ++ game_text game.now)) }
{
    add_counted(b"kept ", kept, out)?;
    out.extend_from_slice(lines)?;
    add_counted(b"fits ", fits, out)?;
    add_counted(b"game ", game, out)
}

/// Adds what is answered at this time, with the bytes that the capture gets, the new lines of the report, what explains the board, the
/// text of the game if it is wanted, alarms, and when to wake.
pub fn add_answer(
    alloc: Global,
    now: u64,
    answer: &Answer,
    kept: &[u8],
    lines: &[u8],
    fits: &[u8],
    game: &[u8],
    looks: &[Look],
    due: Option<u64>,
    out: &mut Vec<u8>,
) -> Result<(), AllocError>
    ensures { IfOk result (λ _. out.new.items ≡ out.old.items ++ answer_text now answer.now kept.now lines.now fits.now game.now looks.now due) }
{
    add_bytes(kept, lines, fits, game, out)?;
    add_end(answer.end, out)?;
    add_looks(looks, out)?;
    add_said(alloc, said_of(now, answer, due), out)
}

/// Ends what is answered to a capture of the calls before, behind the report of it.
pub fn end_report(alloc: Global, out: &mut Vec<u8>) -> Result<(), AllocError>
    ensures { (before report : List ℕ) → out.old.items ≡ before ++ report → OnOk result (out.new.items ≡ before ++ capture_text report) }
{
    let said = Said {
        handling: None,
        number: None,
        request: None,
        is_whole: true,
        is_clock_stopped: None,
        state: None,
        due: None,
    };
    add_said(alloc, said, out)?;
    Ok(())
}
