//! The text of a rank, kept beside its codes.
ghost use Rattle.std.specs.Prelude.{◌≡◌, ◌≤◌, length, take};
ghost use Rattle.chess_text.specs.Placement.{rank_text};

use crate::placement::put_rank;
use arrayvec::ArrayString;

/// The codes of a rank, and its text in the first bytes, so many.
#[derive(Clone, Copy)]
pub struct RankText {
    pub codes: [u8; 8],
    pub text: [u8; 8],
    pub len: usize,
    pub ghost squares: { length codes ≡ 8 },
    pub ghost room: { length text ≡ 8 },
    pub ghost short: { len ≤ 8 },
    pub ghost text_is: { take len text ≡ rank_text 0 codes },
}

impl RankText {
    pub fn of(codes: [u8; 8]) -> RankText
        ensures { result.codes ≡ codes }
    {
        let mut out = ArrayString::new();
        put_rank(&mut out, &codes);
        let bytes = out.as_str().as_bytes();
        let len = bytes.len();
        let mut text = [0; 8];
        text[..len].copy_from_slice(bytes);
        RankText { codes, text, len }
    }
}
