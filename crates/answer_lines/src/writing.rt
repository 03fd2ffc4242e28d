//! The lines of an answer, as they are written.
ghost use Rattle.std.specs.Prelude.{◌≡◌, ◌<◌, ◌+◌, ◌-◌, ◌/◌, ◌%◌, ◌==◌, ◌∷◌, ◌++◌, [], IfOk, OnErr, OnOk, codes, if◌then◌else◌};
ghost use Rattle.std.specs.Int.{bit_at};
ghost use Rattle.answer_lines.specs.Answers.{answer_text, clock_line, done_line, handling_line, hint_text, kind_word, number_line, request_line, room_line, square_text, squares_below, state_line, state_words, time_text};

use crate::said::Said;
use board_cable::{Handling, Request};
use board_standing::{Hint, Kind, State};
use itoa::Buffer;
use std::alloc::{AllocError, Global};

fn add_handling(handling: Option<Handling>, out: &mut Vec<u8>) -> Result<(), AllocError>
    ensures { IfOk result (λ _. out.new.items ≡ out.old.items ++ handling_line handling) }
{
    match handling {
        None => Ok(()),
        Some(Handling::Keep) => out.extend_from_slice(b"keep\n"),
        Some(Handling::Hold) => out.extend_from_slice(b"hold\n"),
        Some(Handling::Other(number)) => {
            out.extend_from_slice(b"other ")?;
            out.extend_from_slice(&number)?;
            out.extend_from_slice(b"\n")
        }
    }
}

fn add_number(number: Option<[u8; 5]>, out: &mut Vec<u8>) -> Result<(), AllocError>
    ensures { IfOk result (λ _. out.new.items ≡ out.old.items ++ number_line number) }
{
    match number {
        None => Ok(()),
        Some(number) => {
            out.extend_from_slice(b"number ")?;
            out.extend_from_slice(&number)?;
            out.extend_from_slice(b"\n")
        }
    }
}

fn add_request(request: Option<Request>, out: &mut Vec<u8>) -> Result<(), AllocError>
    ensures { IfOk result (λ _. out.new.items ≡ out.old.items ++ request_line request) }
{
    match request {
        None => Ok(()),
        Some(request) => {
            out.extend_from_slice(b"ask ")?;
            out.extend_from_slice(request.bytes())?;
            out.extend_from_slice(b"\n")
        }
    }
}

fn add_room(is_whole: bool, out: &mut Vec<u8>) -> Result<(), AllocError>
    ensures { IfOk result (λ _. out.new.items ≡ out.old.items ++ room_line is_whole) }
{
    if is_whole {
        Ok(())
    } else {
        out.extend_from_slice(b"full\n")
    }
}

fn add_clock(is_stopped: Option<bool>, out: &mut Vec<u8>) -> Result<(), AllocError>
    ensures { IfOk result (λ _. out.new.items ≡ out.old.items ++ clock_line is_stopped) }
{
    match is_stopped {
        None => Ok(()),
        Some(true) => out.extend_from_slice(b"clock stopped\n"),
        Some(false) => out.extend_from_slice(b"clock runs\n"),
    }
}

/// The word of what an arbiter reads first.
fn kind_word(kind: Kind) -> &'static [u8]
    ensures { result.now ≡ kind_word kind }
{
    match kind {
        Kind::Waits => b"WAITS",
        Kind::Agrees => b"AGREES",
        Kind::Ended => b"RESULT",
        Kind::InHand => b"IN-HAND",
        Kind::Wrong => b"WRONG",
        Kind::NoStart => b"NO-START",
        Kind::SettingUp => b"SETTING-UP",
        Kind::Silent => b"SILENT",
        Kind::Unplugged => b"UNPLUGGED",
    }
}

/// Adds a time, or a dash if there is none.
fn add_time(time: Option<u64>, out: &mut Vec<u8>) -> Result<(), AllocError>
    ensures { IfOk result (λ _. out.new.items ≡ out.old.items ++ time_text time) }
{
    match time {
        None => out.extend_from_slice(b"-"),
        Some(time) => {
            let mut buffer = Buffer::new();
            out.extend_from_slice(buffer.format(time).as_bytes())
        }
    }
}

/// Whether a mask has a square.
fn has(mask: u64, square: u8) -> bool
    requires { square < 64 }
    ensures { result ≡ (bit_at mask square == 1) }
{
    (mask >> square) & 1 == 1
}

/// Adds the name of a square if the mask has it.
fn add_square(mask: u64, square: u8, out: &mut Vec<u8>) -> Result<(), AllocError>
    requires { square < 64 }
    ensures { IfOk result (λ _. out.new.items ≡ out.old.items ++ (if bit_at mask square == 1 then square_text square else [])) }
{
    if has(mask, square) {
        out.extend_from_slice(&[b' ', b'a' + square % 8, b'8' - square / 8])
    } else {
        Ok(())
    }
}

/// Adds the squares of a mask.
fn add_squares(mask: u64, out: &mut Vec<u8>) -> Result<(), AllocError>
    ensures { IfOk result (λ _. out.new.items ≡ out.old.items ++ squares_below 64 mask) }
{
    for square in 0..64u8 {
        add_square(mask, square, out)?;
    }
    Ok(())
}

/// Adds what may be wrong.
fn add_hint(hint: Option<Hint>, out: &mut Vec<u8>) -> Result<(), AllocError>
    ensures { IfOk result (λ _. out.new.items ≡ out.old.items ++ hint_text hint) }
{
    match hint {
        None => Ok(()),
        Some(Hint::TurnedRound) => out.extend_from_slice(b" TURNED-ROUND"),
        Some(Hint::OtherBoard) => out.extend_from_slice(b" OTHER-BOARD"),
    }
}

fn add_state_words(state: State, out: &mut Vec<u8>) -> Result<(), AllocError>
    ensures { IfOk result (λ _. out.new.items ≡ out.old.items ++ state_words state) }
{
    out.extend_from_slice(b"state ")?;
    out.extend_from_slice(kind_word(state.kind))?;
    out.extend_from_slice(b" ")?;
    add_time(state.since, out)?;
    add_squares(state.squares, out)?;
    add_hint(state.hint, out)
}

fn add_state(state: Option<State>, out: &mut Vec<u8>) -> Result<(), AllocError>
    ensures { IfOk result (λ _. out.new.items ≡ out.old.items ++ state_line state) }
{
    match state {
        None => Ok(()),
        Some(state) => {
            add_state_words(state, out)?;
            out.extend_from_slice(b"\n")
        }
    }
}

fn add_done(due: Option<u64>, out: &mut Vec<u8>) -> Result<(), AllocError>
    ensures { IfOk result (λ _. out.new.items ≡ out.old.items ++ done_line due) }
{
    out.extend_from_slice(b"done ")?;
    add_time(due, out)?;
    out.extend_from_slice(b"\n")
}

/// The lines of an answer.
fn answer_text(alloc: Global, said: Said) -> Result<Vec<u8>, AllocError>
    ensures { IfOk result (λ text. text.items ≡ answer_text said) }
{
    let mut text = Vec::new(alloc);
    add_handling(said.handling, &mut text)?;
    add_number(said.number, &mut text)?;
    add_request(said.request, &mut text)?;
    add_room(said.is_whole, &mut text)?;
    add_clock(said.is_clock_stopped, &mut text)?;
    add_state(said.state, &mut text)?;
    add_done(said.due, &mut text)?;
    Ok(text)
}

/// Adds the lines of an answer. It takes memory for them twice.
///
/// # Errors
///
/// Where there is no memory. Then nothing was added.
pub fn add_answer(alloc: Global, said: Said, out: &mut Vec<u8>) -> Result<(), AllocError>
    ensures ok { OnOk result (out.new.items ≡ out.old.items ++ answer_text said) }
    ensures err { OnErr result (out.new.items ≡ out.old.items) }
{
    let text = answer_text(alloc, said)?;
    out.extend_from_slice(text.as_slice())
}
