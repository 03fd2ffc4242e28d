//! What an entry is to a board that is recorded.
ghost use Rattle.std.specs.Prelude.{◌≡◌};
ghost use Rattle.live_lines.specs.Meaning.{happening_of, meaning_of, owned};

use crate::entries::What;
use board_cable::{What as AtCable, serial_in};
use board_game::Note;
use board_live::What as ToBoard;
use board_times::What as Happening;

fn happening_of(what: Happening) -> ToBoard
    ensures { result ≡ happening_of what }
{
    match what {
        Happening::Begins(_) => ToBoard::Cable(AtCable::Begins),
        Happening::Opens => ToBoard::Cable(AtCable::Opens),
        Happening::Answers => ToBoard::Cable(AtCable::Answers),
        Happening::Goes => ToBoard::Cable(AtCable::Closes),
        Happening::Calls => ToBoard::Cable(AtCable::HangsUp),
        Happening::Hears(_) => ToBoard::Cable(AtCable::Hears),
        Happening::Adds(_) => ToBoard::Adds,
        Happening::Brings(_) => ToBoard::Brings,
        Happening::Stops(time) => ToBoard::Stops(time),
        Happening::Takes => ToBoard::Cable(AtCable::Takes),
        Happening::Looks => ToBoard::Notes(Note::Looked),
        Happening::PutsBack => ToBoard::Notes(Note::PutsBack),
        Happening::Reopens => ToBoard::Notes(Note::Reopens),
        Happening::Ends(_) => ToBoard::Notes(Note::Passes),
        Happening::Suspects(n) => ToBoard::Notes(Note::Suspects(n)),
        _ => ToBoard::Cable(AtCable::Wakes),
    }
}

/// The number of the game's board, if these bytes are one.
fn owned(bytes: &[u8]) -> ToBoard
    ensures { result ≡ owned bytes.now }
{
    match serial_in(0x91, bytes) {
        None => ToBoard::Cable(AtCable::Wakes),
        Some(number) => ToBoard::Cable(AtCable::Owns(number)),
    }
}

/// What happens, with these bytes.
pub fn meaning_of(what: What, bytes: &[u8]) -> ToBoard
    ensures { result ≡ meaning_of what bytes.now }
{
    match what {
        What::Happens(what) => happening_of(what),
        What::Lends => ToBoard::Cable(AtCable::Lends),
        What::Owns(_) => owned(bytes),
        _ => ToBoard::Cable(AtCable::Wakes),
    }
}
