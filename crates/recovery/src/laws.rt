//! What holds of streams in which pairs are recovered, each law as the contract of a function.
ghost use Rattle.recovery.specs.Invented.{PliesAreShownOrTold};
ghost use Rattle.recovery.specs.Laws.{HonestHandsKeepTheirBytes, LeavesAlone};
ghost use Rattle.recovery.specs.Woven.{ShowsPutIn};

use dgt_frame::laws::shows_once;
use pair_frames::laws::frames_are_put_in;
use unseen_pairs::laws::{hands_at_rest_are_left_alone, nothing_is_invented, recovers_once};

/// Bytes in which no picture confirms a pair are given on as they are, and no line is told.
pub fn honest_streams_stay()
    ensures { LeavesAlone }
{
    // For its clause: the bytes show one list of events.
    shows_once();
}

/// Bytes that hands send which make one move after the other, and straighten pieces or clear the board between them and
/// at the end, are given on as they are, and no line is told.
pub fn honest_hands_keep_their_bytes()
    ensures { HonestHandsKeepTheirBytes }
{
    // For its clause: the bytes show one list of events.
    shows_once();
    // For its clause: no entry confirms a pair.
    hands_at_rest_are_left_alone();
}

/// Nothing is invented: each ply that the bytes give with their pairs was shown by them, or it is one of a pair whose
/// line was written.
pub fn plies_are_shown_or_told()
    ensures { PliesAreShownOrTold }
{
    // For its clause: the entries give one score.
    recovers_once();
    // For its clause: each ply was shown, or is one of a pair.
    nothing_is_invented();
}

/// The bytes with what is put in show the events of the bytes with those that are put in, and nothing else.
pub fn woven_bytes_show_what_is_put_in()
    ensures { ShowsPutIn }
{
    // For its clause: the bytes show one list of events.
    shows_once();
    // For its clause: frames that are put in show what they show alone.
    frames_are_put_in();
}
