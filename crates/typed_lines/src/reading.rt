//! What a typed line says.
ghost use Rattle.std.specs.Prelude.{◌≡◌, ◌≤◌, ◌↔◌, ℕ, List, Contains, IfOk, length, map};
ghost use Rattle.std.specs.List.{list_all, list_any};
ghost use Rattle.chess_rules.specs.Legal.{Legal};
ghost use Rattle.chess_rules.specs.declared.chess_move.Move.{Move as MoveOf};
ghost use Rattle.typed_lines.specs.Letters.{is_from as from_test};
ghost use Rattle.typed_lines.specs.Words.{typed_words};
ghost use Rattle.typed_lines.specs.Numbers.{line_words as words_of};
ghost use Rattle.typed_lines.specs.Lines.{HasMoveWords, ReadsLine, ReadsWords, WordSays, ends_as_move as ends_test, ends_promoting as promoting_test, has_form as form_test, has_move_form as move_form_test, has_square_at as square_test, is_move_letter as move_letter_test, is_officer as officer_test, is_other_letter as other_letter_test, is_star as star_test, stands_alone as alone_test};
ghost use Rattle.typed_lines.specs.Spelling.{IsOnly};

use crate::letters::{in_english, letters};
use crate::numbers::{line_words, misnumbered};
use crate::results::{is_text, result_of};
use crate::spelling::{Manner, only};
use crate::words::{move_words, without_number};
use arrayvec::ArrayString;
use chess_rules::{Move, Position};
use chess_text::write_san;
use settle_core::Outcome;
use std::alloc::{AllocError, Global};

/// What a word says in a position.
#[derive(Clone, Copy)]
pub enum Word {
    /// The move that it is, as PGN writes it or by its two squares.
    Written(Move),
    /// The one move that it may be meant as.
    Meant(Move),
    /// It has the form of a move, but no legal one has it, or more than one.
    Illegal,
    /// It has no such form.
    Unknown,
}

/// What a line says in a position. With a word at which it stops comes how many of its moves stand before that.
#[derive(Drop)]
pub enum Typed<'a> {
    /// A result.
    Result(Outcome),
    /// `*`: the result is to be taken off.
    Reopens,
    /// Moves, each legal after those before it; at least one.
    Moves(Vec<Move>),
    /// No word, but for numbers.
    Nothing,
    /// A result, or `*`, among other words.
    Mixed,
    /// A word that is no move as PGN writes it, nor by its two squares, and the SAN of the one legal move that it may be meant as.
    Meant(&'a [u8], usize, ArrayString<8>),
    /// A word that has the form of a move, but is no legal one.
    Illegal(&'a [u8], usize),
    /// A word that is neither a move nor a result.
    Unknown(&'a [u8], usize),
    /// The words are moves, but this one begins with a move number that isn't its own.
    Misnumbered(&'a [u8], usize),
}

fn is_from(low: u8, high: u8, b: u8) -> bool
    ensures { result ≡ from_test low high b }
{
    low <= b && b <= high
}

fn is_other_letter(b: u8) -> bool
    ensures { result ≡ other_letter_test b }
{
    b == b'K' || b == b'N' || b == b'O' || b == b'Q' || b == b'R'
}

fn is_move_letter(b: u8) -> bool
    ensures { result ≡ move_letter_test b }
{
    is_from(b'A', b'H', b) || is_from(b'1', b'8', b) || is_other_letter(b)
}

fn is_officer(b: u8) -> bool
    ensures { result ≡ officer_test b }
{
    b == b'Q' || b == b'R' || b == b'B' || b == b'N'
}

/// Whether the last two of the first `n` letters are a file and a rank.
fn has_square_at(heard: &[u8], n: usize) -> bool
    requires { n ≤ length heard.now }
    ensures { result ≡ square_test heard.now n }
{
    2 <= n && is_from(b'A', b'H', heard[n - 2]) && is_from(b'1', b'8', heard[n - 1])
}

fn ends_promoting(heard: &[u8]) -> bool
    ensures { result ≡ promoting_test heard.now }
{
    let n = heard.len();
    1 <= n && is_officer(heard[n - 1]) && has_square_at(heard, n - 1)
}

fn ends_as_move(heard: &[u8]) -> bool
    ensures { result ≡ ends_test heard.now }
{
    has_square_at(heard, heard.len())
        || ends_promoting(heard)
        || is_text(heard, b"OO")
        || is_text(heard, b"OOO")
}

fn are_move_letters(heard: &[u8]) -> bool
    ensures { result ≡ list_all move_letter_test heard.now }
{
    for b in heard {
        if !is_move_letter(*b) {
            return false;
        }
    }
    true
}

fn has_form(heard: &[u8]) -> bool
    ensures { result ≡ form_test heard.now }
{
    are_move_letters(heard) && ends_as_move(heard)
}

/// Whether the word has the form of a move.
fn has_move_form(alloc: Global, word: &[u8]) -> Result<bool, AllocError>
    ensures { IfOk result (λ found. found ≡ move_form_test word.now) }
{
    let own = letters(alloc, word)?;
    if has_form(own.as_slice()) {
        return Ok(true);
    }
    let english = in_english(alloc, word)?;
    let other = letters(alloc, english.as_slice())?;
    Ok(has_form(other.as_slice()))
}

/// What a word that is no move says.
fn read_other(alloc: Global, p: &Position, moves: &[Move], word: &[u8]) -> Result<Word, AllocError>
    requires listed { (m : MoveOf) → Contains moves.now m ↔ Legal p.now m }
    requires unwritten { (m : MoveOf) → ¬ IsOnly Manner.Written p.now word.now m }
    ensures { IfOk result (WordSays p.now word.now) }
{
    if let Some(m) = only(alloc, Manner::Meant, p, moves, word)? {
        return Ok(Word::Meant(m));
    }
    if has_move_form(alloc, word)? {
        Ok(Word::Illegal)
    } else {
        Ok(Word::Unknown)
    }
}

/// What a word says in a position.
///
/// # Errors
///
/// Where there is no memory.
pub fn read_word(alloc: Global, p: &Position, word: &[u8]) -> Result<Word, AllocError>
    ensures { IfOk result (WordSays p.now word.now) }
{
    let moves = p.legal_moves(alloc)?;
    match only(alloc, Manner::Written, p, moves.as_slice(), word)? {
        Some(m) => Ok(Word::Written(m)),
        None => read_other(alloc, p, moves.as_slice(), word),
    }
}

/// Reads words as moves from a position on.
fn read_moves<'a>(
    alloc: Global,
    start: Position,
    words: &[&'a [u8]],
) -> Result<Typed<'a>, AllocError>
    ensures { IfOk result (ReadsWords start (map (λ word. word.now) words.now)) }
{
    let mut position = start;
    let mut moves: Vec<Move> = Vec::new(alloc);
    for word in words {
        let said = read_word(alloc, &position, without_number(word))?;
        match said {
            Word::Written(m) => {
                let next = position.play(m.copy());
                moves.push(m)?;
                position = next;
            }
            Word::Meant(m) => {
                return Ok(Typed::Meant(word, moves.len(), write_san(&position, m)));
            }
            Word::Illegal => return Ok(Typed::Illegal(word, moves.len())),
            Word::Unknown => return Ok(Typed::Unknown(word, moves.len())),
        }
    }
    Ok(Typed::Moves(moves))
}

fn stands_alone(alloc: Global, word: &[u8]) -> Result<bool, AllocError>
    ensures { IfOk result (λ alone. alone ≡ alone_test word.now) }
{
    if result_of(alloc, word)?.is_some() {
        return Ok(true);
    }
    Ok(is_text(word, b"*"))
}

fn is_mixed(alloc: Global, words: &[&[u8]]) -> Result<bool, AllocError>
    ensures { IfOk result (λ mixed. mixed ≡ list_any alone_test (map (λ word. word.now) words.now)) }
{
    for word in words {
        if stands_alone(alloc, word)? {
            return Ok(true);
        }
    }
    Ok(false)
}

fn is_star(words: &[&[u8]]) -> bool
    ensures { result ≡ star_test (map (λ word. word.now) words.now) }
{
    words.len() == 1 && is_text(words[0], b"*")
}

/// What the words say, where they are moves also by their numbers.
fn numbered<'a>(p: &Position, words: &[&'a [u8]], said: Typed<'a>) -> Typed<'a>
    ensures { (text : List ℕ) → map (λ word. word.now) words.now ≡ words_of text → HasMoveWords text
        → ReadsWords p.now (typed_words text) said.entry → ReadsLine p.now text result }
{
    match said {
        Typed::Moves(moves) => match misnumbered(p, words) {
            Some((word, number)) => Typed::Misnumbered(word, number),
            None => Typed::Moves(moves),
        },
        other => other,
    }
}

/// Reads a typed line in a position.
///
/// # Errors
///
/// Where there is no memory.
pub fn read_line<'a>(alloc: Global, p: &Position, text: &'a [u8]) -> Result<Typed<'a>, AllocError>
    ensures { IfOk result (ReadsLine p.now text.now) }
{
    if let Some(outcome) = result_of(alloc, text)? {
        return Ok(Typed::Result(outcome));
    }
    let words = move_words(alloc, text)?;
    if words.is_empty() {
        return Ok(Typed::Nothing);
    }
    if is_star(words.as_slice()) {
        return Ok(Typed::Reopens);
    }
    if is_mixed(alloc, words.as_slice())? {
        return Ok(Typed::Mixed);
    }
    let said = read_moves(alloc, *p, words.as_slice())?;
    let all = line_words(alloc, text)?;
    Ok(numbered(p, all.as_slice(), said))
}
