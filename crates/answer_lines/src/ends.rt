//! The lines of how a game ends.
ghost use Rattle.std.specs.Prelude.{◌≡◌, ◌++◌, IfOk, codes, decimal};
ghost use Rattle.answer_lines.specs.Ends.{begins_line, end_text, goes_on_line, over_line, over_words, reason_word, result_word, sure_word};

use board_endings::End;
use game_over::{Outcome, Over, Why};
use itoa::Buffer;
use std::alloc::AllocError;

fn reason_word(why: Why) -> &'static [u8]
    ensures { result.now ≡ reason_word why }
{
    match why {
        Why::Stood => b"STOOD",
        Why::PlaysOn => b"PLAYS-ON",
        Why::Corrected => b"CORRECTED",
        Why::SetUp => b"SET-UP",
        Why::Unfinished => b"UNFINISHED",
    }
}

fn result_word(outcome: Option<Outcome>) -> &'static [u8]
    ensures { result.now ≡ result_word outcome }
{
    match outcome {
        None => b"*",
        Some(Outcome::WhiteWins) => b"1-0",
        Some(Outcome::BlackWins) => b"0-1",
        Some(Outcome::Draw) => b"1/2-1/2",
    }
}

fn sure_word(is_sure: bool) -> &'static [u8]
    ensures { result.now ≡ sure_word is_sure }
{
    if is_sure { b"sure" } else { b"unsure" }
}

fn add_number(n: u64, out: &mut Vec<u8>) -> Result<(), AllocError>
    ensures { IfOk result (λ _. out.new.items ≡ out.old.items ++ decimal n) }
{
    let mut buffer = Buffer::new();
    out.extend_from_slice(buffer.format(n).as_bytes())
}

fn add_over_words(over: Over, out: &mut Vec<u8>) -> Result<(), AllocError>
    ensures { IfOk result (λ _. out.new.items ≡ out.old.items ++ over_words over) }
{
    out.extend_from_slice(b"over ")?;
    out.extend_from_slice(reason_word(over.why))?;
    out.extend_from_slice(b" ")?;
    out.extend_from_slice(result_word(over.result))?;
    out.extend_from_slice(b" ")?;
    add_number(over.bytes, out)?;
    out.extend_from_slice(b" ")?;
    out.extend_from_slice(sure_word(over.is_sure))
}

fn add_over(over: Option<Over>, out: &mut Vec<u8>) -> Result<(), AllocError>
    ensures { IfOk result (λ _. out.new.items ≡ out.old.items ++ over_line over) }
{
    match over {
        None => Ok(()),
        Some(over) => {
            add_over_words(over, out)?;
            out.extend_from_slice(b"\n")
        }
    }
}

fn add_goes_on(count: Option<u64>, out: &mut Vec<u8>) -> Result<(), AllocError>
    ensures { IfOk result (λ _. out.new.items ≡ out.old.items ++ goes_on_line count) }
{
    match count {
        None => Ok(()),
        Some(count) => {
            out.extend_from_slice(b"played ")?;
            add_number(count, out)?;
            out.extend_from_slice(b"\n")
        }
    }
}

fn add_begins(bytes: Option<u64>, out: &mut Vec<u8>) -> Result<(), AllocError>
    ensures { IfOk result (λ _. out.new.items ≡ out.old.items ++ begins_line bytes) }
{
    match bytes {
        None => Ok(()),
        Some(bytes) => {
            out.extend_from_slice(b"begins ")?;
            add_number(bytes, out)?;
            out.extend_from_slice(b"\n")
        }
    }
}

/// Adds the lines of what is said of how a game ends.
///
/// # Errors
///
/// Where there is no memory. Then some of them may have been added.
pub fn add_end(end: End, out: &mut Vec<u8>) -> Result<(), AllocError>
    ensures { IfOk result (λ _. out.new.items ≡ out.old.items ++ end_text end) }
{
    add_over(end.over, out)?;
    add_goes_on(end.goes_on, out)?;
    add_begins(end.begins, out)
}
