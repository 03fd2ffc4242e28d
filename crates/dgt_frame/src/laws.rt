//! Laws of what a stream shows: each stream shows exactly one list of events, its first bytes the first of them, one
//! that is broken off and begun again those of its two parts, and one that has lost a few bytes a fault.
ghost use Rattle.std.specs.Prelude.{◌≡◌, ◌++◌, ℕ, List};
ghost use Rattle.dgt_frame.specs.Losses.{SmallLossesShow};
ghost use Rattle.dgt_frame.specs.Restarts.{RestartsAreShown};
ghost use Rattle.dgt_frame.specs.Streams.{Shows, Timed};

use crate::decode::Decoder;

/// A stream of bytes shows one list of events, and leaves one rest.
pub fn shows_once()
    ensures { (bytes : List ℕ) (events others : List Timed) (rest other : ℕ)
        → Shows bytes events rest → Shows bytes others other → (events ≡ others) × (rest ≡ other) }
{}

/// The first bytes of a stream show the first of its events: what was shown is never taken back.
pub fn fronts_show_fronts()
    ensures { (bytes more : List ℕ) (events all : List Timed) (rest last : ℕ)
        → Shows bytes events rest → Shows (bytes ++ more) all last → (later : List Timed) × (all ≡ events ++ later) }
{}

/// Each stream of bytes shows some events, and leaves some rest.
pub fn shows_some(bytes: &[u8])
    ensures { (events : List Timed) × (rest : ℕ) × Shows bytes.now events rest }
{
    let mut decoder = Decoder::new();
    for byte in bytes {
        decoder.push(*byte);
    }
    // For its clause: the bytes show the events so far and this rest.
    decoder.pending();
}

/// A stream that is broken off anywhere and begun again shows the events of its two parts, and a cut between them where
/// the first leaves some bytes of a frame.
pub fn restarts_are_shown()
    ensures { RestartsAreShown }
{}

/// Where one to four bytes in a row are lost of a stream of dumps, updates and times, and a whole frame comes after
/// them, a fault shows.
pub fn small_losses_show()
    ensures { SmallLossesShow }
{}
