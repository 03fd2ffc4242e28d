//! Reading the export text of a game.
ghost use Rattle.std.specs.Prelude.{◌≡◌, ◌↔◌, ◌≢◌, false, List, IsTrue, ◌++◌, ◌∷◌, [], OnOk, IfOk, IfSome, MatchResult, Some, None, Err};
ghost use Rattle.chess_rules.specs.declared.parts.Parts.{Parts as PartsOf};
ghost use Rattle.chess_rules.specs.Legal.{Legal};
ghost use Rattle.chess_rules.specs.Valid.{Valid};
ghost use Rattle.settle_core.specs.declared.plies.Ply.{Ply as PlyOf};
ghost use Rattle.settle_core.specs.Settling.{Line};
ghost use Rattle.settle_core.specs.Folding.{moves_of as moves_in};
ghost use Rattle.chess_game.specs.TagNames.{all_tags};
ghost use Rattle.chess_game.specs.Values.{TagValues, AreValues, IsValue, with_value};
ghost use Rattle.chess_game.specs.Games.{Content, IsGame};
ghost use Rattle.pgn_book.specs.Pgn.{Pgn};
ghost use Rattle.pgn_book.specs.Inside.Parse.{IsTurn, AreTurns, TakesTurn, HasStart, Parses, HaveValues, words, words_behind, turns_at, clock_at, value_at, fen_at};

use crate::sections::{
    behind_tags, fen_of, has_fen, moves_of, next_line, read_result, read_value, value_of,
};
use crate::words::{clock_behind, first_word, is_move};
use crate::writing::write_pgn;
use chess_clock::Hms;
use chess_game::{Game, Tag, TagError, Tags};
use chess_rules::{Move, Position};
use chess_text::laws::{fens_are_plain, moves_tell_texts, texts_are_plain};
use chess_text::{read_fen, read_san};
use settle_core::Ply;
use std::alloc::{AllocError, Global};
use thiserror::Error;
use watched_streams::Watch;

/// Why a text is no game.
#[derive(Clone, Copy, Debug, PartialEq, Eq, Error)]
pub enum PgnError {
    /// It is not the export text of a game.
    #[error("not a PGN export text")]
    NotExport,
    /// There was no memory for the game or its text.
    #[error("out of memory")]
    Memory,
}

/// The ply of a word and of what stands behind it, if the word is the SAN of a legal move.
fn read_ply(position: &Position, word: &[u8], behind: Option<&[u8]>) -> Option<Ply>
    ensures legal { IfSome result (λ ply. Legal position.now ply.mv) }
    ensures only { (ply : PlyOf) → IsTurn position.now ply (record { san = word.now; clock = clock_at (words_behind behind.entry) })
        → result ≡ Some ply }
{
    match read_san(position, word) {
        Ok(mv) => Some(Ply {
            mv,
            clock: clock_behind(behind),
        }),
        Err(_) => None,
    }
}

fn push(plies: &mut Vec<Ply>, mv: Move, clock: Option<Hms>) -> Result<(), AllocError>
    ensures { OnOk result (plies.new.items ≡ plies.old.items ++ record { mv = mv; clock = clock } ∷ []) }
{
    plies.push(Ply { mv, clock })?;
    Ok(())
}

/// Reads one more ply, and gives the position after it.
fn read_turn(
    plies: &mut Vec<Ply>,
    position: &Position,
    word: &[u8],
    behind: Option<&[u8]>,
) -> Result<Position, PgnError>
    ensures { MatchResult result
        (λ next. TakesTurn position.now next plies.old.items plies.new.items
        (record { san = word.now; clock = clock_at (words_behind behind.entry) }))
        (λ error. (ply : PlyOf) → IsTurn position.now ply (record { san = word.now; clock = clock_at (words_behind behind.entry) })
        → error ≡ PgnError.Memory) }
{
    let Some(ply) = read_ply(position, word, behind) else {
        return Err(PgnError::NotExport);
    };
    let next = position.play(ply.mv.copy());
    match push(plies, ply.mv, ply.clock) {
        Ok(()) => Ok(next),
        Err(AllocError) => Err(PgnError::Memory),
    }
}

/// The plies of a movetext from a position on.
fn read_plies(alloc: Global, start: &Position, bytes: &[u8]) -> Result<Vec<Ply>, PgnError>
    ensures line { IfOk result (λ plies. Line start.now (moves_in plies.items)) }
    ensures only { (plies : List PlyOf) → AreTurns start.now plies (turns_at (words bytes.now))
        → MatchResult result (λ read. read.items ≡ plies) (λ error. error ≡ PgnError.Memory) }
{
    let mut plies = Vec::new(alloc);
    let mut position = *start;
    let mut rest = Some(bytes);
    while let Some(now) = rest {
        let (word, behind) = first_word(now);
        if is_move(word) {
            match read_turn(&mut plies, &position, word, behind) {
                Ok(next) => position = next,
                Err(error) => return Err(error),
            }
        }
        rest = behind;
    }
    Ok(plies)
}

/// The start where a set-up part stands.
fn read_start(set_up: &[u8]) -> Option<Position>
    ensures { (start : PartsOf) → Valid start → HasStart start (fen_at set_up.now) → result ≡ Some start }
{
    // For its clause: a FEN has no quotation mark and no backslash.
    fens_are_plain();
    if !has_fen(set_up) {
        return Some(Position::initial());
    }
    match read_value(fen_of(set_up)) {
        Some(fen) => match read_fen(fen.as_str().as_bytes()) {
            Ok(start) => Some(start),
            Err(_) => None,
        },
        None => None,
    }
}

/// Sets a tag to the value at the front.
fn read_tag(tags: &mut Tags, tag: Tag, bytes: &[u8]) -> Result<(), PgnError>
    ensures { IsValue tag (value_at false bytes.now) → MatchResult result
        (λ _. tags.new ≡ with_value tag (value_at false bytes.now) tags.old) (λ error. error ≡ PgnError.Memory) }
{
    match read_value(bytes) {
        Some(value) => match tags.set(tag, value.as_str()) {
            Ok(()) => Ok(()),
            Err(TagError::Memory) => Err(PgnError::Memory),
            Err(_) => Err(PgnError::NotExport),
        },
        None => Err(PgnError::NotExport),
    }
}

/// The tags whose lines a text begins with.
fn read_tags(alloc: Global, text: &[u8]) -> Result<Tags, PgnError>
    ensures { (values : TagValues) → AreValues values → HaveValues all_tags values text.now
        → MatchResult result (λ tags. tags ≡ values) (λ error. error ≡ PgnError.Memory) }
{
    let mut tags = Tags::new(alloc);
    let mut rest = text;
    for tag in Tag::ALL {
        let value = value_of(tag.name(), rest);
        match read_tag(&mut tags, tag, value) {
            Ok(()) => {}
            Err(error) => return Err(error),
        }
        rest = next_line(value);
    }
    Ok(tags)
}

/// The game that a text would be the text of.
fn parse(alloc: Global, text: &[u8]) -> Result<Game, PgnError>
    ensures { (game : Content) → IsGame game → Parses game text.now
        → MatchResult result (λ read. read ≡ game) (λ error. error ≡ PgnError.Memory) }
{
    let tags = match read_tags(alloc, text) {
        Ok(tags) => tags,
        Err(error) => return Err(error),
    };
    let marker = value_of("Result", behind_tags(text));
    let set_up = next_line(marker);
    let Some(start) = read_start(set_up) else {
        return Err(PgnError::NotExport);
    };
    match read_plies(alloc, &start, moves_of(set_up)) {
        Ok(plies) => Ok(Game::new(tags, start, plies, read_result(marker))),
        Err(error) => Err(error),
    }
}

fn same_bytes(a: &[u8], b: &[u8]) -> bool
    ensures { IsTrue result ↔ (a.now ≡ b.now) }
{
    a == b
}

/// Whether the text is the export text of the game.
fn is_text_of(alloc: Global, game: &Game, text: &[u8]) -> Result<bool, PgnError>
    ensures ok { IfOk result (λ is. IsTrue is ↔ Pgn game.now text.now) }
    ensures err { result ≢ Err PgnError.NotExport }
{
    // For its clause: a move has 2 to 7 printable characters, and no space.
    texts_are_plain();
    // For its clause: a legal move has one text at most.
    moves_tell_texts();
    let mut written = Watch::new(Vec::new(alloc));
    match write_pgn(game, &mut written) {
        Ok(()) => Ok(same_bytes(written.inner().as_slice(), text)),
        Err(_) => Err(PgnError::Memory),
    }
}

/// Reads the export text of a game. Any other text is NotExport: other ends of lines, moves in another notation,
/// another order or breaking of lines, a tag too many or too few, a result that the board or the tag contradicts, an
/// illegal move. The time grows with the text, the memory with the game.
pub fn read_pgn(alloc: Global, text: &[u8]) -> Result<Game, PgnError>
    // The text is that of the game.
    ensures found { IfOk result (λ game. Pgn game text.now) }
    // A game whose text it is is found, unless memory runs out: NotExport comes only where no game has the text.
    ensures only { (game : Content) → Pgn game text.now → MatchResult result (λ read. read ≡ game) (λ error. error ≡ PgnError.Memory) }
{
    // For its clause: a move has 2 to 7 printable characters, and no space.
    texts_are_plain();
    let game = match parse(alloc, text) {
        Ok(game) => game,
        Err(error) => return Err(error),
    };
    match is_text_of(alloc, &game, text) {
        Ok(true) => Ok(game),
        Ok(false) => Err(PgnError::NotExport),
        Err(error) => Err(error),
    }
}
