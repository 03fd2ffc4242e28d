//! Lines of `follow`: moves, corrections, results, and pictures that wait.
ghost use Rattle.std.specs.Prelude.{◌≡◌, ◌<◌, ◌≤◌, ◌+◌, ◌++◌, ℕ, List, length, codes, decimal};
ghost use Rattle.std.specs.Int.{bit_at};
ghost use Rattle.arrayvec.specs.ArrayVec.{array_vec_len};
ghost use Rattle.chess_rules.specs.Legal.{Legal};
ghost use Rattle.chess_text.specs.San.{San};
ghost use Rattle.settle_core.specs.Masks.{IsDiff};
ghost use Rattle.pgn_book.specs.Movetext.{number_token};
ghost use Rattle.watched_streams.specs.Lines.{line};
ghost use Rattle.board_listing.specs.GameLines.{clock_words, move_words, result_words, squares_text, time_text, waiting_words};

use chess_clock::Hms;
use chess_rules::{Position, Side};
use chess_text::write_san;
use pgn_book::result_str;
use settle_core::{Outcome, Ply};
use watched_streams::{GATHERED, Lines, add, add_number};

/// Adds the offset of an event, behind which it is told.
pub fn add_offset(lines: &mut Lines, offset: u32)
    requires { array_vec_len lines.old + 11 ≤ GATHERED }
    ensures items { lines.new.items ≡ lines.old.items ++ decimal offset ++ codes " " }
    ensures len { array_vec_len lines.new ≤ array_vec_len lines.old + 11 }
{
    add_number(lines, offset);
    add(lines, b" ");
}

/// Adds a clock's time.
pub fn add_time(lines: &mut Lines, time: Hms)
    requires { array_vec_len lines.old + 7 ≤ GATHERED }
    ensures items { lines.new.items ≡ lines.old.items ++ time_text time }
    ensures len { array_vec_len lines.new ≡ array_vec_len lines.old + 7 }
{
    add(
        lines,
        &[
            b'0' + time.hours,
            b':',
            b'0' + time.minutes / 10,
            b'0' + time.minutes % 10,
            b':',
            b'0' + time.seconds / 10,
            b'0' + time.seconds % 10,
        ],
    );
}

fn add_clock(lines: &mut Lines, clock: Option<Hms>)
    requires { array_vec_len lines.old + 8 ≤ GATHERED }
    ensures items { lines.new.items ≡ lines.old.items ++ clock_words clock }
    ensures len { array_vec_len lines.new ≤ array_vec_len lines.old + 8 }
{
    if let Some(time) = clock {
        add(lines, b" ");
        add_time(lines, time);
    }
}

fn add_move_number(lines: &mut Lines, side: Side, number: u16)
    requires { array_vec_len lines.old + 13 ≤ GATHERED }
    ensures items { lines.new.items ≡ lines.old.items ++ number_token side number }
    ensures len { array_vec_len lines.new ≤ array_vec_len lines.old + 13 }
{
    add_number(lines, u32::from(number));
    match side {
        Side::White => add(lines, b"."),
        Side::Black => add(lines, b"..."),
    }
}

/// Adds the line of a ply that was made in this position, with this word before it.
pub fn add_ply(lines: &mut Lines, offset: u32, word: &[u8], position: &Position, ply: &Ply)
    requires room { array_vec_len lines.old + 128 ≤ GATHERED }
    requires short { length word.now ≤ 16 }
    requires legal { Legal position.now ply.now.mv }
    ensures told { (san : List ℕ) × San position.now ply.now.mv san
        × (lines.new.items ≡ lines.old.items ++ line offset (move_words word.now position.now san ply.now.clock)) }
    ensures len { array_vec_len lines.new ≤ array_vec_len lines.old + 128 }
{
    let parts = position.parts();
    add_offset(lines, offset);
    add(lines, word);
    add(lines, b" ");
    add_move_number(lines, parts.side, parts.fullmove);
    add(lines, b" ");
    add(lines, write_san(position, ply.mv).as_str().as_bytes());
    add_clock(lines, ply.clock);
    add(lines, b"\n");
}

/// Adds the line of a result.
pub fn add_result(lines: &mut Lines, offset: u32, ending: Option<Outcome>)
    requires { array_vec_len lines.old + 32 ≤ GATHERED }
    ensures items { lines.new.items ≡ lines.old.items ++ line offset (result_words ending) }
    ensures len { array_vec_len lines.new ≤ array_vec_len lines.old + 32 }
{
    add_offset(lines, offset);
    add(lines, b"result ");
    add(lines, result_str(ending).as_bytes());
    add(lines, b"\n");
}

/// The first square of a mask from this one on, or 64.
fn next_square(mask: u64, square: u8) -> u8
    requires { square < 64 }
    ensures range { result ≤ 64 }
    ensures from { square ≤ result }
    ensures clear { (s : ℕ) → square ≤ s → s < result → bit_at mask s ≡ 0 }
    ensures set { result < 64 → bit_at mask result ≡ 1 }
{
    let rest = mask >> square;
    if rest == 0 {
        return 64;
    }
    square + rest.trailing_zeros() as u8
}

/// Adds the squares of a mask, each behind a space.
fn add_squares(lines: &mut Lines, mask: u64)
    requires { array_vec_len lines.old + 192 ≤ GATHERED }
    ensures items { (stands seen : List ℕ) → IsDiff mask stands seen → lines.new.items ≡ lines.old.items ++ squares_text stands seen }
    ensures len { array_vec_len lines.new ≤ array_vec_len lines.old + 192 }
{
    let mut square: u8 = 0;
    'squares: while square < 64 {
        square = next_square(mask, square);
        if square < 64 {
            add(lines, &[b' ', b'a' + square % 8, b'8' - square / 8]);
            square += 1;
        }
    }
}

/// Adds what is said of a picture that waits, and differs from the position on these squares; with it the line ends.
pub fn add_waiting_words(lines: &mut Lines, differs: u64)
    requires { array_vec_len lines.old + 213 ≤ GATHERED }
    ensures told { (stands seen : List ℕ) → IsDiff differs stands seen
        → lines.new.items ≡ lines.old.items ++ waiting_words (squares_text stands seen) ++ codes "\n" }
    ensures len { array_vec_len lines.new ≤ array_vec_len lines.old + 213 }
{
    if differs == 0 {
        add(lines, b"agrees\n");
    } else {
        add(lines, b"differs");
        add_squares(lines, differs);
        add(lines, b"\n");
    }
}

/// Adds the line of a picture that waits, and differs from the position on these squares.
pub fn add_waiting(lines: &mut Lines, offset: u32, differs: u64)
    requires { array_vec_len lines.old + 224 ≤ GATHERED }
    ensures told { (stands seen : List ℕ) → IsDiff differs stands seen
        → lines.new.items ≡ lines.old.items ++ line offset (waiting_words (squares_text stands seen)) }
    ensures len { array_vec_len lines.new ≤ array_vec_len lines.old + 224 }
{
    add_offset(lines, offset);
    add_waiting_words(lines, differs);
}
