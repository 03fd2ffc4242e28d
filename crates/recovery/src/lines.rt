//! The line of a pair that was recovered.
ghost use Rattle.std.specs.Prelude.{◌≡◌, ◌≤◌, ◌+◌, ◌++◌, ℕ, List, codes};
ghost use Rattle.arrayvec.specs.ArrayVec.{array_vec_len};
ghost use Rattle.chess_rules.specs.Legal.{Legal};
ghost use Rattle.chess_text.specs.San.{San};
ghost use Rattle.pgn_book.specs.Movetext.{number_token};
ghost use Rattle.recovery.specs.Weaving.{TellsRecovered};

use chess_rules::{Move, Position, Side};
use chess_text::write_san;
use unseen_pairs::Recovery;
use watched_streams::{GATHERED, Lines, add, add_number};

/// Adds the move's number and its SAN.
fn add_move(lines: &mut Lines, position: &Position, m: &Move)
    requires room { array_vec_len lines.old + 64 ≤ GATHERED }
    requires legal { Legal position.now m.now }
    ensures told { (san : List ℕ) × San position.now m.now san
        × (lines.new.items ≡ lines.old.items ++ number_token position.now.side position.now.fullmove ++ codes " " ++ san) }
    ensures len { array_vec_len lines.new ≤ array_vec_len lines.old + 64 }
{
    let parts = position.parts();
    add_number(lines, u32::from(parts.fullmove));
    match parts.side {
        Side::White => add(lines, b"."),
        Side::Black => add(lines, b"..."),
    }
    add(lines, b" ");
    add(lines, write_san(position, *m).as_str().as_bytes());
}

/// Adds the line of a pair that was recovered at this offset.
#[inline(never)]
pub fn add_recovered(lines: &mut Lines, offset: u32, found: &Recovery)
    requires room { array_vec_len lines.old + 256 ≤ GATHERED }
    requires first { Legal found.now.before found.now.pair.first }
    requires second { Legal found.now.middle found.now.pair.second }
    ensures { (text : List ℕ) × TellsRecovered offset found.now text × (lines.new.items ≡ lines.old.items ++ text) }
{
    add_number(lines, offset);
    add(lines, b" ");
    add(lines, b"recovered ");
    add_move(lines, &found.before, &found.pair.first);
    add(lines, b" ");
    add_move(lines, &found.middle, &found.pair.second);
    add(lines, b"\n");
}
