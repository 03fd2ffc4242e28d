//! Writing SAN.
ghost use Rattle.std.specs.Prelude.{◌≡◌, ◌≢◌, ◌<◌, ◌≤◌, ◌+◌, ◌++◌, ◌∷◌, [], ◌↔◌, ℕ, List, IsTrue, length};
ghost use Rattle.arrayvec.specs.ArrayString.{array_string_len};
ghost use Rattle.chess_rules.specs.Board.{on, piece_of};
ghost use Rattle.chess_rules.specs.After.{is_castling as castling_test, wing_of, after};
ghost use Rattle.chess_rules.specs.Legal.{Legal};
ghost use Rattle.chess_rules.specs.Valid.{Valid};
ghost use Rattle.chess_text.specs.Squares.{file_byte as file_byte_lem, rank_byte as rank_byte_lem, square_text};
ghost use Rattle.chess_text.specs.San.{San, IsBody, IsMark, IsNeeded, mark_text, cross, pawn_cross, castling_text, origin_text, promotion_text, pawn_text, piece_text, letter as letter_of};
ghost use Rattle.chess_text.specs.Inside.Rivals.{HasRival, IsRivalAt, Shares};

use crate::capture::is_capture;
use crate::squares::{file_byte, rank_byte, square_at};
use arrayvec::ArrayString;
use chess_rules::{Kind, Move, Position, Square, Status, Wing, is_castling, kind_on, wing_towards};

/// Which part of the origin a text names.
#[derive(Clone, Copy)]
pub enum Origin {
    Nothing,
    ByFile,
    ByRank,
    ByBoth,
}

/// What a text's end says.
#[derive(Clone, Copy)]
pub enum Mark {
    Quiet,
    Check,
    Mate,
}

/// What two squares may share.
#[derive(Clone, Copy)]
pub enum Line {
    Any,
    File,
    Rank,
}

/// The letter of a kind of piece.
pub fn letter(kind: Kind) -> u8
    ensures value { result ≡ letter_of kind }
    ensures ascii { result < 128 }
{
    match kind {
        Kind::King => b'K',
        Kind::Queen => b'Q',
        Kind::Rook => b'R',
        Kind::Bishop => b'B',
        Kind::Knight => b'N',
        Kind::Pawn => b'P',
    }
}

fn put_letter(out: &mut ArrayString<8>, kind: Kind)
    requires { array_string_len out.old < 8 }
    ensures { out.new.bytes ≡ out.old.bytes ++ letter_of kind ∷ [] }
{
    out.push(letter(kind) as char);
}

fn put_file(out: &mut ArrayString<8>, square: Square)
    requires { array_string_len out.old < 8 }
    ensures { out.new.bytes ≡ out.old.bytes ++ file_byte_lem square ∷ [] }
{
    out.push(file_byte(square) as char);
}

fn put_rank(out: &mut ArrayString<8>, square: Square)
    requires { array_string_len out.old < 8 }
    ensures { out.new.bytes ≡ out.old.bytes ++ rank_byte_lem square ∷ [] }
{
    out.push(rank_byte(square) as char);
}

fn put_square(out: &mut ArrayString<8>, square: Square)
    requires { array_string_len out.old + 2 ≤ 8 }
    ensures { out.new.bytes ≡ out.old.bytes ++ square_text square }
{
    put_file(out, square);
    put_rank(out, square);
}

fn put_cross(out: &mut ArrayString<8>, capture: bool)
    requires { array_string_len out.old < 8 }
    ensures { out.new.bytes ≡ out.old.bytes ++ cross capture }
{
    if capture {
        out.push('x');
    }
}

fn put_pawn_cross(out: &mut ArrayString<8>, capture: bool, from: Square)
    requires { array_string_len out.old + 2 ≤ 8 }
    ensures { out.new.bytes ≡ out.old.bytes ++ pawn_cross capture from }
{
    if capture {
        put_file(out, from);
        out.push('x');
    }
}

fn put_promotion(out: &mut ArrayString<8>, promotion: Option<Kind>)
    requires { array_string_len out.old + 2 ≤ 8 }
    ensures { out.new.bytes ≡ out.old.bytes ++ promotion_text promotion }
{
    if let Some(kind) = promotion {
        out.push('=');
        put_letter(out, kind);
    }
}

fn put_origin(out: &mut ArrayString<8>, origin: Origin, from: Square)
    requires { array_string_len out.old + 2 ≤ 8 }
    ensures { out.new.bytes ≡ out.old.bytes ++ origin_text origin from }
{
    match origin {
        Origin::Nothing => {}
        Origin::ByFile => put_file(out, from),
        Origin::ByRank => put_rank(out, from),
        Origin::ByBoth => put_square(out, from),
    }
}

fn put_mark(out: &mut ArrayString<8>, mark: Mark)
    requires { array_string_len out.old < 8 }
    ensures { out.new.bytes ≡ out.old.bytes ++ mark_text mark }
{
    match mark {
        Mark::Quiet => {}
        Mark::Check => out.push('+'),
        Mark::Mate => out.push('#'),
    }
}

fn castling_body(wing: Wing) -> ArrayString<8>
    ensures text { result.bytes ≡ castling_text wing }
    ensures short { array_string_len result < 8 }
{
    let mut out = ArrayString::new();
    match wing {
        Wing::KingSide => out.push_str("O-O"),
        Wing::QueenSide => out.push_str("O-O-O"),
    }
    out
}

fn pawn_body(m: &Move, capture: bool) -> ArrayString<8>
    ensures text { result.bytes ≡ pawn_text capture m.now }
    ensures short { array_string_len result < 8 }
{
    let mut out = ArrayString::new();
    put_pawn_cross(&mut out, capture, m.from);
    put_square(&mut out, m.to);
    put_promotion(&mut out, m.promotion);
    out
}

fn piece_body(m: &Move, kind: Kind, origin: Origin, capture: bool) -> ArrayString<8>
    ensures text { result.bytes ≡ piece_text kind origin capture m.now }
    ensures short { array_string_len result < 8 }
{
    let mut out = ArrayString::new();
    put_letter(&mut out, kind);
    put_origin(&mut out, origin, m.from);
    put_cross(&mut out, capture);
    put_square(&mut out, m.to);
    out
}

fn shares(line: Line, s: u8, t: u8) -> bool
    ensures { IsTrue result ↔ Shares line s t }
{
    match line {
        Line::Any => true,
        Line::File => s % 8 == t % 8,
        Line::Rank => s / 8 == t / 8,
    }
}

/// Whether a rival of the move, on this line, stands on the square.
fn is_rival_at(p: &Position, m: &Move, kind: Kind, line: Line, square: u8) -> bool
    requires low { square < 64 }
    requires kind { on p.now.board m.now.from ≡ piece_of p.now.side kind }
    ensures { IsTrue result ↔ IsRivalAt p.now m.now line square }
{
    let parts = p.parts();
    let from = m.from.number();
    let Some(found) = kind_on(&parts.board, parts.side, square) else {
        return false;
    };
    if square == from || !found.is(kind) || !shares(line, square, from) {
        return false;
    }
    let rival = Move {
        from: square_at(square),
        to: m.to,
        promotion: None,
    };
    p.is_legal(rival)
}

/// Whether the move has a rival on this line.
fn has_rival(p: &Position, m: &Move, kind: Kind, line: Line) -> bool
    requires { on p.now.board m.now.from ≡ piece_of p.now.side kind }
    ensures { IsTrue result ↔ HasRival p.now m.now line }
{
    for square in 0..64u8 {
        if is_rival_at(p, m, kind, line, square) {
            return true;
        }
    }
    false
}

/// The needed part of the origin.
fn needed(p: &Position, m: &Move, kind: Kind) -> Origin
    requires valid { Valid p.now }
    requires legal { Legal p.now m.now }
    requires kind { on p.now.board m.now.from ≡ piece_of p.now.side kind }
    requires no_pawn { kind ≢ Kind.Pawn }
    ensures { IsNeeded p.now m.now result }
{
    if !has_rival(p, m, kind, Line::Any) {
        return Origin::Nothing;
    }
    if !has_rival(p, m, kind, Line::File) {
        return Origin::ByFile;
    }
    if !has_rival(p, m, kind, Line::Rank) {
        return Origin::ByRank;
    }
    Origin::ByBoth
}

/// The text of a move before its mark.
fn body_of(p: &Position, m: &Move) -> ArrayString<8>
    requires { Legal p.now m.now }
    ensures body { IsBody p.now m.now result.bytes }
    ensures short { array_string_len result < 8 }
{
    let parts = p.parts();
    let from = m.from.number();
    let Some(kind) = kind_on(&parts.board, parts.side, from) else {
        unreachable!()
    };
    if is_castling(parts, m) {
        return castling_body(wing_towards(m));
    }
    let capture = is_capture(parts, m);
    if kind.is(Kind::Pawn) {
        return pawn_body(m, capture);
    }
    piece_body(m, kind, needed(p, m, kind), capture)
}

/// What the text of a move that leads here says at its end.
fn mark_of(next: &Position) -> Mark
    ensures { IsMark next.now result }
{
    if !next.in_check() {
        return Mark::Quiet;
    }
    match next.status() {
        Status::Checkmate => Mark::Mate,
        _ => Mark::Check,
    }
}

/// The SAN of a legal move (PGN standard, section 8.2.3), 2 to 7 bytes: the needed part of the origin looks at the
/// other legal moves of the same kind to the same square; `#` at the end where the move gives checkmate, else `+` for
/// check.
pub fn write_san(p: &Position, m: Move) -> ArrayString<8>
    requires { Legal p.now m }
    ensures san { San p.now m result.bytes }
    ensures one { (text : List ℕ) → San p.now m text → text ≡ result.bytes }
{
    let mut out = body_of(p, &m);
    put_mark(&mut out, mark_of(&p.play(m)));
    out
}
