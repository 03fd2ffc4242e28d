//! What is heard of a board, in few words, and squares by their names.

use board_standing::{Event, Heard, Picture, Standing};

/// What is heard. `Differs` names the squares on which a picture differs from the game's position; it is no start that is
/// turned round, and it is a move away from the picture before it.
#[derive(Clone, Copy)]
pub enum Word<'a> {
    Agrees,
    Differs(&'a str),
    Moves,
    Ends,
    Reopens,
    Stops,
    Answers,
    Unplugs,
    Plugs,
    Begins,
    Repeats,
}

/// The mask of a square by its file and rank, both counted from 0.
fn square(file: u8, rank: u8) -> u64 {
    if file < 8 && rank < 8 {
        1 << (8 * (7 - rank) + file)
    } else {
        0
    }
}

/// The mask of the squares with these names, each of two letters.
pub fn mask_of(names: &str) -> u64 {
    let mut mask = 0;
    for name in names.split_whitespace() {
        if let [file, rank] = name.as_bytes() {
            mask |= square(file.wrapping_sub(b'a'), rank.wrapping_sub(b'1'));
        }
    }
    mask
}

fn shown(differs: u64) -> Heard {
    Heard::Shows(Picture {
        differs,
        changed: 1,
        turned: !0,
    })
}

fn heard(word: Word<'_>) -> Heard {
    match word {
        Word::Agrees => shown(0),
        Word::Differs(names) => shown(mask_of(names)),
        Word::Moves => Heard::Moves,
        Word::Ends => Heard::Ends,
        Word::Reopens => Heard::Reopens,
        Word::Stops => Heard::Stops,
        Word::Answers => Heard::Answers,
        Word::Unplugs => Heard::Unplugs,
        Word::Plugs => Heard::Plugs,
        Word::Begins => Heard::Begins,
        Word::Repeats => Heard::Repeats,
    }
}

/// How a board stands of which this was heard up to a time.
pub fn standing_at(words: &[(u64, Word<'_>)], now: u64) -> Standing {
    let mut standing = Standing::new();
    for (at, word) in words {
        if *at <= now {
            standing.take(Event {
                at: *at,
                what: heard(*word),
            });
        }
    }
    standing
}
