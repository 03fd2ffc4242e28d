//! The placement of a picture that changes.
ghost use Rattle.std.specs.Prelude.{◌≡◌, ◌≤◌, ◌<◌, ◌+◌, ◌++◌, length, replicate, slice_set};
ghost use Rattle.arrayvec.specs.ArrayVec.{array_vec_len};
ghost use Rattle.chess_text.specs.Placement.{placement};

use crate::rank_text::RankText;
use arrayvec::ArrayVec;

/// A remembered rank for each code of each square.
const REMEMBERED: usize = 1024;

/// A picture whose ranks' texts are kept, so that after a change of one square only its rank is written anew; and not
/// that one where it is as it was when the square last showed this code.
#[derive(Drop)]
pub struct PlacementText {
    ranks: [RankText; 8],
    remembered: [RankText; REMEMBERED],
    ghost eight: { length ranks ≡ 8 },
}

impl PlacementText {
    ghost use Rattle.chess_text.specs.KeptRanks.{picture_in};

    /// The placement of the empty board.
    pub fn new() -> PlacementText
        ensures { picture_in result ≡ replicate 64 0 }
    {
        let empty = RankText::of([0; 8]);
        PlacementText {
            ranks: [empty; 8],
            remembered: [empty; REMEMBERED],
        }
    }

    /// The rank with these codes, which may be remembered in this place.
    #[inline(always)]
    fn rank_of(&mut self, codes: [u8; 8], place: usize) -> RankText
        requires { place < 1024 }
        ensures codes { result.codes ≡ codes }
        ensures ranks { self.new.ranks ≡ self.old.ranks }
    {
        let known = self.remembered[place];
        if known.codes == codes {
            return known;
        }
        let rank = RankText::of(codes);
        self.remembered[place] = rank;
        rank
    }

    /// Changes the code of a square.
    pub fn change(&mut self, square: u8, code: u8)
        requires { square < 64 }
        ensures { picture_in self.new ≡ slice_set (picture_in self.old) square code }
    {
        let rank = square as usize / 8;
        let mut codes = self.ranks[rank].codes;
        codes[square as usize % 8] = code;
        self.ranks[rank] = self.rank_of(codes, square as usize * 16 + code as usize % 16);
    }

    /// Changes the picture.
    pub fn show(&mut self, picture: &[u8; 64])
        ensures { picture_in self.new ≡ picture.now }
    {
        for rank in 0..8 {
            let mut codes = [0; 8];
            codes.copy_from_slice(&picture[8 * rank..8 * rank + 8]);
            self.ranks[rank] = self.rank_of(codes, rank * 128 + codes[0] as usize % 16);
        }
    }

    /// Appends the placement, for which there is room.
    pub fn add_to<const CAP: usize>(&self, out: &mut ArrayVec<u8, CAP>)
        requires { array_vec_len out.old + 71 ≤ CAP }
        ensures items { out.new.items ≡ out.old.items ++ placement (picture_in self.now) }
        ensures len { array_vec_len out.new ≤ array_vec_len out.old + 71 }
    {
        let mut line = [0u8; 80];
        let mut len = 0;
        for rank in &self.ranks {
            line[len] = b'/';
            line[len + 1..len + 9].copy_from_slice(&rank.text);
            len += 1 + rank.len;
        }
        if out.try_extend_from_slice(&line[1..len]).is_err() {
            unreachable!();
        }
    }
}
