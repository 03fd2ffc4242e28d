//! Lines of `watch` that `follow` doesn't have: pictures, positions and clocks.
ghost use Rattle.std.specs.Prelude.{◌≡◌, ◌≤◌, ◌+◌, ◌++◌};
ghost use Rattle.arrayvec.specs.ArrayVec.{array_vec_len};
ghost use Rattle.chess_text.specs.KeptRanks.{picture_in};
ghost use Rattle.watched_streams.specs.Lines.{line};
ghost use Rattle.board_listing.specs.WatchLines.{both_times, picture_words, position_words, reading_words};

use crate::game_lines::{add_offset, add_time};
use chess_clock::Reading;
use chess_rules::Position;
use chess_text::{PlacementText, write_fen};
use watched_streams::{GATHERED, Lines, add};

/// Room for all lines of one event, under whatever listing: they have no more bytes than this.
pub const ROOM: usize = 768;

/// Adds the line of a picture.
pub fn add_picture(lines: &mut Lines, offset: u32, placement: &PlacementText)
    requires { array_vec_len lines.old + 96 ≤ GATHERED }
    ensures items { lines.new.items ≡ lines.old.items ++ line offset (picture_words (picture_in placement.now)) }
    ensures len { array_vec_len lines.new ≤ array_vec_len lines.old + 96 }
{
    add_offset(lines, offset);
    add(lines, b"picture ");
    placement.add_to(lines);
    add(lines, b"\n");
}

/// Adds the line of a position.
pub fn add_position(lines: &mut Lines, offset: u32, position: &Position)
    requires { array_vec_len lines.old + 160 ≤ GATHERED }
    ensures items { lines.new.items ≡ lines.old.items ++ line offset (position_words position.now) }
    ensures len { array_vec_len lines.new ≤ array_vec_len lines.old + 160 }
{
    add_offset(lines, offset);
    add(lines, b"position ");
    add(lines, write_fen(position).as_str().as_bytes());
    add(lines, b"\n");
}

/// Adds the times of both clocks, White's first.
fn add_times(lines: &mut Lines, reading: &Option<Reading>)
    requires { array_vec_len lines.old + 17 ≤ GATHERED }
    ensures items { lines.new.items ≡ lines.old.items ++ both_times reading.now }
    ensures len { array_vec_len lines.new ≤ array_vec_len lines.old + 17 }
{
    match reading {
        Some(reading) => {
            add_time(lines, reading.white);
            add(lines, b" ");
            add_time(lines, reading.black);
        }
        None => add(lines, b"--:--:-- --:--:--"),
    }
}

/// Adds the line of what the clocks show.
pub fn add_reading(lines: &mut Lines, offset: u32, reading: &Option<Reading>)
    requires { array_vec_len lines.old + 40 ≤ GATHERED }
    ensures items { lines.new.items ≡ lines.old.items ++ line offset (reading_words reading.now) }
    ensures len { array_vec_len lines.new ≤ array_vec_len lines.old + 40 }
{
    add_offset(lines, offset);
    add(lines, b"clock ");
    add_times(lines, reading);
    add(lines, b"\n");
}
