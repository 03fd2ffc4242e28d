//! The placement field, both ways.
ghost use Rattle.std.specs.Prelude.{◌≡◌, ◌∷◌, ◌++◌, ◌+◌, ◌<◌, ◌≤◌, ◌↔◌, ℕ, List, length, replicate, map, All, IfSome, IfNone, IsTrue};
ghost use Rattle.std.specs.Bool.{OnTrue, OnFalse};
ghost use Rattle.arrayvec.specs.ArrayString.{array_string_len};
ghost use Rattle.chess_rules.specs.Board.{Board};
ghost use Rattle.chess_rules.specs.Picture.{code};
ghost use Rattle.chess_text.specs.Placement.{code_letter as code_letter_of, run_text, rank_text, placement};
ghost use Rattle.chess_text.specs.Placement.{IsBoardPicture, code_of as code_of_lem, squares_at, squares};
ghost use Rattle.chess_text.specs.Inside.PlacementReading.{decode as decode_lem};

use crate::bytes::same_bytes;
use arrayvec::{ArrayString, ArrayVec};
use chess_rules::{Kind, Piece, Side};

/// The letter of a code.
fn letter(code: u8) -> u8
    ensures value { result ≡ code_letter_of code }
    ensures ascii { result < 128 }
{
    match code {
        1 => b'P',
        2 => b'R',
        3 => b'N',
        4 => b'B',
        5 => b'K',
        6 => b'Q',
        7 => b'p',
        8 => b'r',
        9 => b'n',
        10 => b'b',
        11 => b'k',
        12 => b'q',
        _ => b'*',
    }
}

fn put_run(out: &mut ArrayString<128>, empty: u8)
    requires small { empty ≤ 8 }
    requires room { array_string_len out.old + empty ≤ 128 }
    ensures text { out.new.bytes ≡ out.old.bytes ++ run_text empty }
    ensures length { array_string_len out.new ≤ array_string_len out.old + empty }
{
    if empty != 0 {
        out.push((b'0' + empty) as char);
    }
}

pub fn put_rank(out: &mut ArrayString<128>, rank: &[u8])
    requires squares { length rank.now ≡ 8 }
    requires room { array_string_len out.old + 8 ≤ 128 }
    ensures text { out.new.bytes ≡ out.old.bytes ++ rank_text 0 rank.now }
    ensures length { array_string_len out.new ≤ array_string_len out.old + 8 }
{
    let mut empty = 0;
    for c in rank {
        let code = *c;
        if code == 0 {
            empty += 1;
        } else {
            put_run(out, empty);
            out.push(letter(code) as char);
            empty = 0;
        }
    }
    put_run(out, empty);
}

/// The placement of a picture, in at most 71 bytes (PGN standard, section 16.1.3.1): eight ranks from rank 8 to rank 1
/// with `/` between, each from the a-file to the h-file; `PRNBKQ` for White's pieces and `prnbkq` for Black's, a run of
/// empty squares as its number. The codes 13 to 15, which stand for no piece, are written `*`.
pub fn write_placement(picture: &[u8; 64]) -> ArrayString<128>
    requires { All (λ c. c ≤ 15) picture.now }
    ensures text { result.bytes ≡ placement picture.now }
    ensures short { length result.bytes ≤ 71 }
{
    let mut out = ArrayString::new();
    put_rank(&mut out, &picture[..8]);
    for r in 1..8 {
        out.push('/');
        put_rank(&mut out, &picture[8 * r..8 * r + 8]);
    }
    out
}

/// The code of a piece's letter, where it is one.
fn code_of(letter: u8) -> u8
    ensures { result ≡ code_of_lem letter }
{
    match letter {
        b'P' => 1,
        b'R' => 2,
        b'N' => 3,
        b'B' => 4,
        b'K' => 5,
        b'Q' => 6,
        b'p' => 7,
        b'r' => 8,
        b'n' => 9,
        b'b' => 10,
        b'k' => 11,
        b'q' => 12,
        _ => 0,
    }
}

/// Appends a run of empty squares, where they fit.
fn put_empty(out: &mut ArrayVec<u8, 64>, run: u8) -> bool
    ensures fits { OnTrue result (out.new.items ≡ out.old.items ++ replicate run 0) }
    ensures full { OnFalse result (64 < length out.old.items + run) }
{
    if out.remaining_capacity() < run as usize {
        return false;
    }
    for k in 0..run {
        let _ = k;
        out.push(0);
    }
    true
}

/// Appends what a byte of a placement stands for, where it fits.
fn put_squares(out: &mut ArrayVec<u8, 64>, byte: u8) -> bool
    ensures fits { OnTrue result (out.new.items ≡ out.old.items ++ squares_at byte) }
    ensures full { OnFalse result (64 < length (out.old.items ++ squares_at byte)) }
{
    if byte == b'/' {
        return true;
    }
    if byte <= b'9' {
        return put_empty(out, byte.saturating_sub(b'0'));
    }
    if out.is_full() {
        return false;
    }
    out.push(code_of(byte));
    true
}

/// The squares of the placement that a text would be.
fn squares_of(text: &[u8]) -> Option<ArrayVec<u8, 64>>
    ensures some { IfSome result (λ v. v.items ≡ squares text.now) }
    ensures none { IfNone result (64 < length (squares text.now)) }
{
    let mut out = ArrayVec::new();
    for b in text {
        if !put_squares(&mut out, *b) {
            return None;
        }
    }
    Some(out)
}

fn is_board_picture(picture: &[u8]) -> bool
    ensures { IsTrue result ↔ IsBoardPicture picture.now }
{
    picture.len() == 64 && picture.iter().all(|c| *c < 13)
}

/// The picture of a board, whose placement the text is.
fn read_picture(text: &[u8]) -> Option<[u8; 64]>
    ensures some { IfSome result (λ b. IsBoardPicture b × (text.now ≡ placement b)) }
    ensures none { IfNone result ((b : List ℕ) → IsBoardPicture b → text.now ≡ placement b → ⊥) }
{
    let Some(found) = squares_of(text) else {
        return None;
    };
    let Ok(picture) = found.into_inner() else {
        return None;
    };
    if is_board_picture(&picture)
        && same_bytes(write_placement(&picture).as_str().as_bytes(), text)
    {
        return Some(picture);
    }
    None
}

fn piece_of(code: u8) -> Option<Piece>
    ensures { result ≡ decode_lem code }
{
    let (side, kind) = match code {
        1 => (Side::White, Kind::Pawn),
        2 => (Side::White, Kind::Rook),
        3 => (Side::White, Kind::Knight),
        4 => (Side::White, Kind::Bishop),
        5 => (Side::White, Kind::King),
        6 => (Side::White, Kind::Queen),
        7 => (Side::Black, Kind::Pawn),
        8 => (Side::Black, Kind::Rook),
        9 => (Side::Black, Kind::Knight),
        10 => (Side::Black, Kind::Bishop),
        11 => (Side::Black, Kind::King),
        12 => (Side::Black, Kind::Queen),
        _ => return None,
    };
    Some(Piece { side, kind })
}

fn board_of(picture: &[u8; 64]) -> [Option<Piece>; 64]
    ensures { result ≡ map decode_lem picture.now }
{
    let mut board = [None; 64];
    for square in 0..64usize {
        board[square] = piece_of(picture[square]);
    }
    board
}

/// The board whose placement the text is.
pub fn read_placement(text: &[u8]) -> Option<[Option<Piece>; 64]>
    ensures some { IfSome result (λ b. text.now ≡ placement (map code b)) }
    ensures squares { IfSome result (λ b. length b ≡ 64) }
    ensures none { IfNone result ((b : Board) → length b ≡ 64 → text.now ≡ placement (map code b) → ⊥) }
{
    let Some(picture) = read_picture(text) else {
        return None;
    };
    Some(board_of(&picture))
}
