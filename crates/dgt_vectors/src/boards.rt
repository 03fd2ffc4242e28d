//! The piece codes of a board.

/// The letters of the piece codes 0 to 13, `.` for an empty square and `*` for a code that no piece has.
const LETTERS: &[u8] = b".PRNBKQprnbkq*";

/// The code of a letter; 0 for any other.
pub fn code_of(letter: u8) -> u8 {
    let mut code: u8 = 0;
    for other in LETTERS {
        if *other == letter {
            return code;
        }
        code = code.saturating_add(1);
    }
    0
}

/// The codes of a placement, in the order of the squares from a8 to h1.
pub fn codes_of(placement: &[u8]) -> [u8; 64] {
    let mut codes = [0; 64];
    let mut at: usize = 0;
    for letter in placement {
        let digit = letter.saturating_sub(b'0');
        if *letter == b'/' {} else if *letter >= b'1' && digit <= 8 {
            at = at.saturating_add(digit as usize);
        } else {
            if let Some(code) = codes.get_mut(at) {
                *code = code_of(*letter);
            }
            at = at.saturating_add(1);
        }
    }
    codes
}
