//! How a move may be typed.
ghost use Rattle.std.specs.Prelude.{◌≡◌, ◌<◌, ◌≤◌, ◌+◌, ◌++◌, ◌∷◌, [], ◌↔◌, Contains, IfNone, IfOk, IfSome, IsTrue, MatchOption, false, length, ⊤};
ghost use Rattle.arrayvec.specs.ArrayString.{array_string_len};
ghost use Rattle.chess_rules.specs.Legal.{Legal};
ghost use Rattle.chess_rules.specs.declared.chess_move.Move.{Move as MoveOf};
ghost use Rattle.chess_text.specs.San.{castling_text as castling_text_of, promotion_text};
ghost use Rattle.chess_text.specs.Squares.{file_byte, rank_byte, square_text};
ghost use Rattle.typed_lines.specs.Letters.{letters as letters_of};
ghost use Rattle.typed_lines.specs.Spelling.{IsMeant, IsOfSquares, IsOnly, IsItsSan, MayBe, IsReadAs, Spells, SpellsBy, SpellsCastling, SpellsMove, piece_letter as piece_letter_of, mover_text, destination_text};

use crate::letters::{bare, in_english, is_same, letters};
use arrayvec::ArrayString;
use chess_rules::{Kind, Move, Position, Square, Wing, is_castling, kind_on, wing_towards};
use chess_text::write_san;
use std::alloc::{AllocError, Global};

/// How it is said which piece moves.
#[derive(Clone, Copy)]
pub enum Way {
    /// By its letter alone, a pawn not at all.
    Piece,
    /// By its letter and its file.
    WithFile,
    /// By its letter and its rank.
    WithRank,
    /// By its letter and its square.
    WithSquare,
    /// By its square alone.
    Squares,
}

/// How a word is read as a move.
#[derive(Clone, Copy)]
pub enum Manner {
    /// As PGN writes it, or by its two squares.
    Written,
    /// Otherwise, so that it can be told which move is meant.
    Meant,
}

fn put_file(out: &mut ArrayString<8>, square: Square)
    requires { array_string_len out.old < 8 }
    ensures { out.new.bytes ≡ out.old.bytes ++ file_byte square ∷ [] }
{
    out.push((b'a' + square.number() % 8) as char);
}

fn put_rank(out: &mut ArrayString<8>, square: Square)
    requires { array_string_len out.old < 8 }
    ensures { out.new.bytes ≡ out.old.bytes ++ rank_byte square ∷ [] }
{
    out.push((b'8' - square.number() / 8) as char);
}

fn put_square(out: &mut ArrayString<8>, square: Square)
    requires { array_string_len out.old + 2 ≤ 8 }
    ensures { out.new.bytes ≡ out.old.bytes ++ square_text square }
{
    put_file(out, square);
    put_rank(out, square);
}

/// A piece's letter; a pawn has none.
fn piece_letter(kind: Kind) -> &'static str
    ensures text { result.now ≡ piece_letter_of kind }
    ensures short { length result.now ≤ 1 }
{
    match kind {
        Kind::Pawn => "",
        Kind::King => "K",
        Kind::Queen => "Q",
        Kind::Rook => "R",
        Kind::Bishop => "B",
        Kind::Knight => "N",
    }
}

fn put_piece(out: &mut ArrayString<8>, way: Way, kind: Kind, from: Square)
    requires { array_string_len out.old + 3 ≤ 8 }
    ensures text { out.new.bytes ≡ out.old.bytes ++ mover_text way kind from }
    ensures short { array_string_len out.new ≤ array_string_len out.old + 3 }
{
    match way {
        Way::Piece => out.push_str(piece_letter(kind)),
        Way::WithFile => {
            out.push_str(piece_letter(kind));
            put_file(out, from);
        }
        Way::WithRank => {
            out.push_str(piece_letter(kind));
            put_rank(out, from);
        }
        Way::WithSquare => {
            out.push_str(piece_letter(kind));
            put_square(out, from);
        }
        Way::Squares => put_square(out, from),
    }
}

fn put_promotion(out: &mut ArrayString<8>, promotion: Option<Kind>)
    requires { array_string_len out.old + 2 ≤ 8 }
    ensures { out.new.bytes ≡ out.old.bytes ++ promotion_text promotion }
{
    if let Some(kind) = promotion {
        out.push('=');
        out.push(match kind {
            Kind::King => 'K',
            Kind::Queen => 'Q',
            Kind::Rook => 'R',
            Kind::Bishop => 'B',
            Kind::Knight => 'N',
            Kind::Pawn => 'P',
        });
    }
}

/// The text of the move of a piece of this kind, said in this way, with what a pawn becomes or without.
fn text_by(way: Way, said: bool, kind: Kind, m: &Move) -> ArrayString<8>
    ensures { result.bytes ≡ mover_text way kind m.now.from ++ destination_text said m.now }
{
    let mut out = ArrayString::new();
    put_piece(&mut out, way, kind, m.from);
    put_square(&mut out, m.to);
    if said {
        put_promotion(&mut out, m.promotion);
    }
    out
}

fn may_be_unsaid(m: &Move) -> bool
    ensures { IsTrue result ↔ MayBe false m.now }
{
    match m.promotion {
        Some(kind) => kind.is(Kind::Queen),
        None => false,
    }
}

/// Whether these are the letters of the text.
fn has_letters(alloc: Global, heard: &[u8], text: &str) -> Result<bool, AllocError>
    ensures { IfOk result (λ same. IsTrue same ↔ (heard.now ≡ letters_of text.now)) }
{
    let own = letters(alloc, text.as_bytes())?;
    Ok(is_same(heard, own.as_slice()))
}

/// Whether these are the letters of the move, said in this way.
fn spells_by(
    alloc: Global,
    way: Way,
    kind: Kind,
    m: &Move,
    heard: &[u8],
) -> Result<bool, AllocError>
    ensures { IfOk result (λ spells. IsTrue spells ↔ SpellsBy way kind m.now heard.now) }
{
    if has_letters(alloc, heard, text_by(way, true, kind, m).as_str())? {
        return Ok(true);
    }
    if !may_be_unsaid(m) {
        return Ok(false);
    }
    has_letters(alloc, heard, text_by(way, false, kind, m).as_str())
}

/// Whether these are the letters of the move of a piece of this kind, said in any way.
fn spells(alloc: Global, kind: Kind, m: &Move, heard: &[u8]) -> Result<bool, AllocError>
    ensures { IfOk result (λ spells. IsTrue spells ↔ Spells kind m.now heard.now) }
{
    if spells_by(alloc, Way::Piece, kind, m, heard)? {
        return Ok(true);
    }
    if spells_by(alloc, Way::WithFile, kind, m, heard)? {
        return Ok(true);
    }
    if spells_by(alloc, Way::WithRank, kind, m, heard)? {
        return Ok(true);
    }
    if spells_by(alloc, Way::WithSquare, kind, m, heard)? {
        return Ok(true);
    }
    spells_by(alloc, Way::Squares, kind, m, heard)
}

fn castling_text(wing: Wing) -> &'static str
    ensures { result.now ≡ castling_text_of wing }
{
    match wing {
        Wing::KingSide => "O-O",
        Wing::QueenSide => "O-O-O",
    }
}

/// Whether these are the letters of castling, and the move is that.
fn spells_castling(alloc: Global, p: &Position, m: &Move, heard: &[u8]) -> Result<bool, AllocError>
    ensures { IfOk result (λ spells. IsTrue spells ↔ SpellsCastling p.now m.now heard.now) }
{
    if !is_castling(p.parts(), m) {
        return Ok(false);
    }
    has_letters(alloc, heard, castling_text(wing_towards(m)))
}

/// Whether these are the letters of the move.
fn spells_move(alloc: Global, p: &Position, m: &Move, heard: &[u8]) -> Result<bool, AllocError>
    ensures { IfOk result (λ spells. IsTrue spells ↔ SpellsMove p.now m.now heard.now) }
{
    if spells_castling(alloc, p, m, heard)? {
        return Ok(true);
    }
    let parts = p.parts();
    match kind_on(&parts.board, parts.side, m.from.number()) {
        Some(kind) => spells(alloc, kind, m, heard),
        None => Ok(false),
    }
}

fn is_meant(alloc: Global, p: &Position, m: &Move, word: &[u8]) -> Result<bool, AllocError>
    ensures { IfOk result (λ meant. IsTrue meant ↔ IsMeant p.now m.now word.now) }
{
    let own = letters(alloc, word)?;
    if spells_move(alloc, p, m, own.as_slice())? {
        return Ok(true);
    }
    let english = in_english(alloc, word)?;
    let other = letters(alloc, english.as_slice())?;
    spells_move(alloc, p, m, other.as_slice())
}

fn is_its_san(alloc: Global, p: &Position, m: &Move, word: &[u8]) -> Result<bool, AllocError>
    requires { Legal p.now m.now }
    ensures { IfOk result (λ written. IsTrue written ↔ IsItsSan p.now m.now word.now) }
{
    let san = write_san(p, m.copy());
    let own = bare(alloc, san.as_str().as_bytes())?;
    let other = bare(alloc, word)?;
    Ok(is_same(other.as_slice(), own.as_slice()))
}

/// Whether the word is the two squares of the move, with the letter of what a pawn becomes.
fn is_of_squares(alloc: Global, m: &Move, word: &[u8]) -> Result<bool, AllocError>
    ensures { IfOk result (λ squares. IsTrue squares ↔ IsOfSquares m.now word.now) }
{
    let heard = letters(alloc, word)?;
    let text = text_by(Way::Squares, true, Kind::Pawn, m);
    has_letters(alloc, heard.as_slice(), text.as_str())
}

fn is_written(alloc: Global, p: &Position, m: &Move, word: &[u8]) -> Result<bool, AllocError>
    requires { Legal p.now m.now }
    ensures { IfOk result (λ written. IsTrue written ↔ IsReadAs Manner.Written p.now m.now word.now) }
{
    if is_its_san(alloc, p, m, word)? {
        return Ok(true);
    }
    is_of_squares(alloc, m, word)
}

/// Whether the word is read in this manner as this legal move.
pub fn reads(
    alloc: Global,
    manner: Manner,
    p: &Position,
    m: &Move,
    word: &[u8],
) -> Result<bool, AllocError>
    requires { Legal p.now m.now }
    ensures { IfOk result (λ so. IsTrue so ↔ IsReadAs manner p.now m.now word.now) }
{
    match manner {
        Manner::Written => is_written(alloc, p, m, word),
        Manner::Meant => is_meant(alloc, p, m, word),
    }
}

/// Whether both are one move.
fn is_same_move(m: &Move, n: &Move) -> bool
    ensures { IsTrue result ↔ (m.now ≡ n.now) }
{
    *m == *n
}

/// Whether the move that was found so far, if any, is another one.
fn is_second(found: &Option<Move>, m: &Move) -> bool
    ensures { result ≡ false ↔ MatchOption found.now ⊤ (λ n. n ≡ m.now) }
{
    match found {
        Some(n) => !is_same_move(n, m),
        None => false,
    }
}

/// The one legal move that the word is read as in this manner.
pub fn only(
    alloc: Global,
    manner: Manner,
    p: &Position,
    moves: &[Move],
    word: &[u8],
) -> Result<Option<Move>, AllocError>
    requires { (m : MoveOf) → Contains moves.now m ↔ Legal p.now m }
    ensures some { IfOk result (λ found. IfSome found (IsOnly manner p.now word.now)) }
    ensures none { IfOk result (λ found. IfNone found ((m : MoveOf) → ¬ IsOnly manner p.now word.now m)) }
{
    let mut found: Option<Move> = None;
    for m in moves {
        let so = reads(alloc, manner, p, m, word)?;
        if so {
            let second = is_second(&found, m);
            if second {
                return Ok(None);
            }
            found = Some(m.copy());
        }
    }
    Ok(found)
}
