//! The lines of alarms.
ghost use Rattle.std.specs.Prelude.{◌≡◌, ◌++◌, IfOk, codes, decimal};
ghost use Rattle.board_alarms.specs.declared.look.Look.{Look as LookOf};
ghost use Rattle.answer_lines.specs.Looks.{look_words, looks_text, place_word, why_word};

use board_alarms::Look;
use board_doubts::{Doubt, Place, Why};
use itoa::Buffer;
use std::alloc::AllocError;

fn place_word(place: Place) -> &'static [u8]
    ensures { result.now ≡ place_word place }
{
    match place {
        Place::AtLast => b"at",
        Place::AfterLast => b"after",
    }
}

fn why_word(why: Why) -> &'static [u8]
    ensures { result.now ≡ why_word why }
{
    match why {
        Why::Late => b"LATE",
        Why::Elsewhere => b"ELSEWHERE",
        Why::BothElsewhere => b"BOTH-ELSEWHERE",
        Why::AfterGap => b"AFTER-GAP",
        Why::TakenBack => b"TAKEN-BACK",
        Why::Unpressed => b"UNPRESSED",
        Why::OtherTime => b"OTHER-TIME",
        Why::MovedOn => b"MOVED-ON",
        Why::Returned => b"RETURNED",
    }
}

fn add_number(n: u64, out: &mut Vec<u8>) -> Result<(), AllocError>
    ensures { IfOk result (λ _. out.new.items ≡ out.old.items ++ decimal n) }
{
    let mut buffer = Buffer::new();
    out.extend_from_slice(buffer.format(n).as_bytes())
}

fn add_doubt(plies: u64, doubt: Doubt, out: &mut Vec<u8>) -> Result<(), AllocError>
    ensures { IfOk result (λ _. out.new.items ≡ out.old.items ++ look_words (LookOf.Doubtful plies doubt)) }
{
    out.extend_from_slice(b"look ")?;
    out.extend_from_slice(place_word(doubt.place))?;
    out.extend_from_slice(b" ")?;
    add_number(plies, out)?;
    out.extend_from_slice(b" ")?;
    out.extend_from_slice(why_word(doubt.why))
}

/// So many moves after so many plies, with what they are.
fn add_since(plies: u64, word: &[u8], moves: u64, out: &mut Vec<u8>) -> Result<(), AllocError>
    ensures { IfOk result (λ _. out.new.items ≡ out.old.items ++ (codes "look since " ++ decimal plies ++ word.now ++ decimal moves)) }
{
    out.extend_from_slice(b"look since ")?;
    add_number(plies, out)?;
    out.extend_from_slice(word)?;
    add_number(moves, out)
}

fn add_stopped(plies: u64, moves: u64, out: &mut Vec<u8>) -> Result<(), AllocError>
    ensures { IfOk result (λ _. out.new.items ≡ out.old.items ++ look_words (LookOf.Stopped plies moves)) }
{
    add_since(plies, b" STOPPED ", moves, out)
}

fn add_unplayed(plies: u64, moves: u64, out: &mut Vec<u8>) -> Result<(), AllocError>
    ensures { IfOk result (λ _. out.new.items ≡ out.old.items ++ look_words (LookOf.Unplayed plies moves)) }
{
    add_since(plies, b" UNPLAYED ", moves, out)
}

fn add_suspected(n: u64, out: &mut Vec<u8>) -> Result<(), AllocError>
    ensures { IfOk result (λ _. out.new.items ≡ out.old.items ++ look_words (LookOf.Suspected n)) }
{
    out.extend_from_slice(b"look SUSPECT ")?;
    add_number(n, out)
}

fn add_words(look: Look, out: &mut Vec<u8>) -> Result<(), AllocError>
    ensures { IfOk result (λ _. out.new.items ≡ out.old.items ++ look_words look) }
{
    match look {
        Look::Doubtful { plies, doubt } => add_doubt(plies, doubt, out),
        Look::Stopped { plies, moves } => add_stopped(plies, moves, out),
        Look::Unplayed { plies, moves } => add_unplayed(plies, moves, out),
        Look::Suspected(n) => add_suspected(n, out),
    }
}

/// Adds a line for each alarm.
///
/// # Errors
///
/// Where there is no memory. Then some of them may have been added.
pub fn add_looks(looks: &[Look], out: &mut Vec<u8>) -> Result<(), AllocError>
    ensures { IfOk result (λ _. out.new.items ≡ out.old.items ++ looks_text looks.now) }
{
    for look in looks {
        add_words(*look, out)?;
        out.extend_from_slice(b"\n")?;
    }
    Ok(())
}
