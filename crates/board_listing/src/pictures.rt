//! Lines of `pictures`: one for each picture that differs from the one before.
ghost use Rattle.std.specs.Prelude.{◌≡◌, ◌≤◌, ◌+◌, ◌++◌};
ghost use Rattle.arrayvec.specs.ArrayVec.{array_vec_len};
ghost use Rattle.chess_text.specs.KeptRanks.{picture_in};
ghost use Rattle.board_listing.specs.PictureLines.{placement_line};

use chess_text::PlacementText;
use watched_streams::{GATHERED, LONGEST, Lines};

/// Adds the placement of a picture, as a line.
pub fn add_placement(lines: &mut Lines, placement: &PlacementText)
    requires room { array_vec_len lines.old + LONGEST ≤ GATHERED }
    ensures { lines.new.items ≡ lines.old.items ++ placement_line (picture_in placement.now) }
{
    placement.add_to(lines);
    lines.push(b'\n');
}
