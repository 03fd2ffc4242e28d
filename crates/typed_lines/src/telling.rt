//! The line about what a typed line says.
ghost use Rattle.std.specs.Prelude.{◌≡◌, ◌++◌, IfOk, codes, decimal, map};
ghost use Rattle.typed_lines.specs.Telling.{outcome_text, printed as printed_of, said_line as said_line_of, word_text as word_text_of};

use crate::reading::Typed;
use itoa::Buffer;
use settle_core::Outcome;
use std::alloc::{AllocError, Global};

/// Three texts one after the other.
pub fn joined(alloc: Global, a: &[u8], b: &[u8], c: &[u8]) -> Result<Vec<u8>, AllocError>
    ensures { IfOk result (λ all. all.items ≡ a.now ++ (b.now ++ c.now)) }
{
    let mut all = Vec::new(alloc);
    all.extend_from_slice(a)?;
    all.extend_from_slice(b)?;
    all.extend_from_slice(c)?;
    Ok(all)
}

/// A result, at the end of a line.
pub fn outcome_line(outcome: Outcome) -> &'static [u8]
    ensures { result.now ≡ outcome_text outcome }
{
    match outcome {
        Outcome::WhiteWins => b"1-0\n",
        Outcome::BlackWins => b"0-1\n",
        Outcome::Drawn => b"1/2-1/2\n",
    }
}

fn moves_line(alloc: Global, front: &[u8], number: usize) -> Result<Vec<u8>, AllocError>
    ensures { IfOk result (λ line. line.items ≡ front.now ++ (codes "moves " ++ (decimal number ++ codes "\n"))) }
{
    let mut buffer = Buffer::new();
    let rest = joined(alloc, b"moves ", buffer.format(number).as_bytes(), b"\n")?;
    joined(alloc, front, rest.as_slice(), b"")
}

/// A byte as it is printed: a control character as a question mark.
fn printed(byte: u8) -> u8
    ensures { result ≡ printed_of byte }
{
    if byte < 32 || byte == 127 { b'?' } else { byte }
}

fn printed_word(alloc: Global, word: &[u8]) -> Result<Vec<u8>, AllocError>
    ensures { IfOk result (λ text. text.items ≡ map printed_of word.now) }
{
    word.iter().copied().map(|b| printed(b)).collect(alloc)
}

/// A word, behind how many moves of the line stand before it.
fn word_text(alloc: Global, number: usize, word: &[u8]) -> Result<Vec<u8>, AllocError>
    ensures { IfOk result (λ text. text.items ≡ word_text_of number word.now) }
{
    let mut buffer = Buffer::new();
    let word = printed_word(alloc, word)?;
    joined(
        alloc,
        buffer.format(number).as_bytes(),
        b" ",
        word.as_slice(),
    )
}

fn meant_line(
    alloc: Global,
    front: &[u8],
    number: usize,
    word: &[u8],
    san: &[u8],
) -> Result<Vec<u8>, AllocError>
    ensures { IfOk result (λ line. line.items ≡ front.now ++ (codes "meant " ++ (word_text_of number word.now ++ (codes " " ++ (san.now ++ codes "\n"))))) }
{
    let text = word_text(alloc, number, word)?;
    let ends = joined(alloc, b" ", san, b"\n")?;
    let rest = joined(alloc, b"meant ", text.as_slice(), ends.as_slice())?;
    joined(alloc, front, rest.as_slice(), b"")
}

/// The line about a word that is no move: what it begins with, what is wrong, and the word.
fn word_line(
    alloc: Global,
    front: &[u8],
    kind: &[u8],
    number: usize,
    word: &[u8],
) -> Result<Vec<u8>, AllocError>
    ensures { IfOk result (λ line. line.items ≡ front.now ++ (kind.now ++ (word_text_of number word.now ++ codes "\n"))) }
{
    let text = word_text(alloc, number, word)?;
    let rest = joined(alloc, kind, text.as_slice(), b"\n")?;
    joined(alloc, front, rest.as_slice(), b"")
}

/// The line about what a typed line says, behind what it begins with.
///
/// # Errors
///
/// Where there is no memory.
pub fn said_line(alloc: Global, front: &[u8], said: &Typed<'_>) -> Result<Vec<u8>, AllocError>
    ensures { IfOk result (λ line. line.items ≡ front.now ++ said_line_of said.now) }
{
    match said {
        Typed::Moves(moves) => moves_line(alloc, front, moves.len()),
        Typed::Result(outcome) => joined(alloc, front, b"result ", outcome_line(*outcome)),
        Typed::Nothing => joined(alloc, front, b"nothing\n", b""),
        Typed::Reopens => joined(alloc, front, b"reopen\n", b""),
        Typed::Mixed => joined(alloc, front, b"mixed\n", b""),
        Typed::Meant(word, number, san) => {
            meant_line(alloc, front, *number, word, san.as_str().as_bytes())
        }
        Typed::Illegal(word, number) => word_line(alloc, front, b"illegal ", *number, word),
        Typed::Unknown(word, number) => word_line(alloc, front, b"unknown ", *number, word),
        Typed::Misnumbered(word, number) => {
            word_line(alloc, front, b"misnumbered ", *number, word)
        }
    }
}
