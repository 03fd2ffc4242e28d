//! What holds of each history. Each law is the contract of a function, which does nothing.
ghost use Rattle.board_game.specs.Laws.{EndDueOnce, EndStaysUntilDue, EndsOnce, HearsOnce, OpensOnce, ReportsAsWatch, ResumesAsBegun, StopsOnce};
ghost use Rattle.board_game.specs.Silences.{SilenceIsForgotten, SilentIsTold};

use board_alarms::laws::{opens_once as alarms_open_once, stops_once as clock_stops_once};
use board_endings::laws::{due_once, ends_once as endings_are_one, same_until_due};
use board_standing::laws::{silent_exactly, unplugged_exactly};
use dgt_frame::laws::shows_once;
use unseen_pairs::laws::recovers_once;

/// Where no pairs are recovered, the report is the lines of `watch` for all bytes, in whatever pieces they came.
pub fn reports_as_watch()
    ensures { ReportsAsWatch }
{
    // For its clause: bytes show one list of events.
    shows_once();
}

/// From a valid start, what came is heard in one way.
pub fn hears_once()
    ensures { HearsOnce }
{
    // For its clause: bytes show one list of events.
    shows_once();
    // For its clause: at an event one pair is recovered, or none.
    recovers_once();
}

/// From a valid start, the alarms that are open follow from what came.
pub fn opens_once()
    ensures { OpensOnce }
{
    // For its clause: bytes show one list of events.
    shows_once();
    // For its clause: at an event one pair is recovered, or none.
    recovers_once();
    // For its clause: what events and news open.
    alarms_open_once();
}

/// From a valid start, what came says whether the clock is stopped.
pub fn stops_once()
    ensures { StopsOnce }
{
    // For its clause: bytes show one list of events.
    shows_once();
    // For its clause: at an event one pair is recovered, or none.
    recovers_once();
    // For its clause: whether events and news stop the clock.
    clock_stops_once();
}

/// From a valid start, the game's end follows from what came.
pub fn ends_once()
    ensures { EndsOnce }
{
    // For its clause: bytes show one list of events.
    shows_once();
    // For its clause: at an event one pair is recovered, or none.
    recovers_once();
    // For its clause: what events and news say of the end.
    endings_are_one();
}

/// And so does the time at which time alone ends it.
pub fn end_due_once()
    ensures { EndDueOnce }
{
    // For its clause: bytes show one list of events.
    shows_once();
    // For its clause: at an event one pair is recovered, or none.
    recovers_once();
    // For its clause: when events and news let time end it.
    due_once();
}

/// From a valid start, the game stands as it does now until time is due to end it.
pub fn end_stays_until_due()
    ensures { EndStaysUntilDue }
{
    // For its clause: bytes show one list of events.
    shows_once();
    // For its clause: at an event one pair is recovered, or none.
    recovers_once();
    // For its clause: what events and news say of the end.
    same_until_due();
}

/// From a valid start, a silence that is over changes neither what is read of the board, nor which alarms are open, nor how the game
/// stands with its end, nor when time ends it, nor whether the clock is stopped.
pub fn silence_is_forgotten()
    ensures { SilenceIsForgotten }
{
    // For its clause: bytes show one list of events.
    shows_once();
    // For its clause: at an event one pair is recovered, or none.
    recovers_once();
    // For its clause: what events and news open.
    alarms_open_once();
    // For its clause: whether events and news stop the clock.
    clock_stops_once();
    // For its clause: what events and news say of the end.
    endings_are_one();
    // For its clause: when events and news let time end it.
    due_once();
}

/// A board is read as silent only if that was told.
pub fn silent_is_told()
    ensures { SilentIsTold }
{
    // For its clause: when a board is read as silent.
    silent_exactly();
    // For its clause: and when as gone.
    unplugged_exactly();
}

/// Where nobody has listened for a time, the game's end is as where a recorder begins.
pub fn resumes_as_begun()
    ensures { ResumesAsBegun }
{}
