//! What holds of each history. Each law is the contract of a function, which does nothing.
ghost use Rattle.board_live.specs.Laws.{EndsAlike, IsSaidOnce, LaterChangesNothing, NothingElseIsLeftOut, OwnBoardIsNoOther, RestartsAlike, SaysAlike, WakesOnce};
ghost use Rattle.board_live.specs.Once.{IsAnsweredOnce, MuteBoardIsSaid, SilentIsSaid};
ghost use Rattle.board_live.specs.Told.{AnsweringIsNotSilent, ClockChangesAreSaid, UnheededResumes};
ghost use Rattle.board_live.specs.Restarts.{FilesSayTheSame, NumberMayFollow, RestartsSayTheSame, SaysOpenAlarms};

use board_cable::laws::{own_sends_known_number, silent_after_seven_seconds};
use board_game::laws::{
    end_due_once, end_stays_until_due, ends_once, hears_once, opens_once, silence_is_forgotten,
    silent_is_told, stops_once,
};
use board_standing::laws::stays_until_due;

/// Whatever happens later, what was answered stays.
pub fn later_changes_nothing()
    ensures { LaterChangesNothing }
{}

/// From a valid start, one history says one state at each moment, or none.
pub fn is_said_once()
    ensures { IsSaidOnce }
{
    // For its clause: what came is heard in one way.
    hears_once();
}

/// Of a board that has sent the number that was known when its line was opened, it isn't said that it may be another one.
pub fn own_board_is_no_other()
    ensures { OwnBoardIsNoOther }
{
    // For its clause: such a board is the game's own.
    own_sends_known_number();
}

/// Nothing else is left out of what the game says.
pub fn nothing_else_is_left_out()
    ensures { NothingElseIsLeftOut }
{}

/// And it names one time at which the recorder is woken.
pub fn wakes_once()
    ensures { WakesOnce }
{
    // For its clause: what came is heard in one way.
    hears_once();
    // For its clause: what came says when time ends the game.
    end_due_once();
}

/// A call that begins after what was kept of the calls before answers as one that begins after the calls themselves.
pub fn restarts_alike()
    ensures { RestartsAlike }
{}

/// So the same states are said.
pub fn says_alike()
    ensures { SaysAlike }
{
    // For its clause: what came is heard in one way.
    hears_once();
}

/// And the same is said of the end of the game.
pub fn ends_alike()
    ensures { EndsAlike }
{
    // For its clause: what came says how the game ends.
    ends_once();
}

/// From when it begins, a recorder that was told what was kept says what one says that has lived through it: the same answers, with
/// the same alarms, and the same time to wake.
pub fn restarts_say_the_same()
    ensures { RestartsSayTheSame }
{
    // For its clause: what came is heard in one way.
    hears_once();
    // For its clause: the alarms follow from what came.
    opens_once();
    // For its clause: so does whether the clock is stopped.
    stops_once();
    // For its clause: what came says how the game ends.
    ends_once();
    // For its clause: and when time ends it.
    end_due_once();
}

/// When it begins, it says all alarms that were open before.
pub fn says_open_alarms()
    ensures { SaysOpenAlarms }
{
    // For its clause: the alarms follow from what came.
    opens_once();
}

/// A recorder that was told what a host's two files have, which is all but the board's silence, says the same too.
pub fn files_say_the_same()
    ensures { FilesSayTheSame }
{
    // For its clause: a silence that is over changes nothing.
    silence_is_forgotten();
}

/// The number of the game's board may also be told once the call has begun, before anything is told of the line and before the recorder
/// is to be woken.
pub fn number_may_follow()
    ensures { NumberMayFollow }
{
    // For its clause: a silence that is over changes nothing.
    silence_is_forgotten();
    // For its clause: what came is heard in one way.
    hears_once();
    // For its clause: if nothing is heard, the state stays until it is due.
    stays_until_due();
    // For its clause: the game stands as it does until time is due to end it.
    end_stays_until_due();
}

/// From a valid start, one history has one answer.
pub fn is_answered_once()
    ensures { IsAnsweredOnce }
{
    // For its clause: what came is heard in one way.
    hears_once();
    // For its clause: what came says which alarms are open.
    opens_once();
    // For its clause: what came says whether the clock is stopped.
    stops_once();
    // For its clause: what came says how the game stands.
    ends_once();
}

/// While the board doesn't answer, the state says so.
pub fn silent_is_said()
    ensures { SilentIsSaid }
{}

/// What is read as AGREES was seen at most seven seconds ago, if the recorder is woken in time.
pub fn mute_board_is_said()
    ensures { MuteBoardIsSaid }
{
    // For its clause: a board that sends no dump is silent after seven seconds.
    silent_after_seven_seconds();
    // For its clause: while it is silent, the state says so.
    silent_is_said();
}

/// In a call each change of whether the clock is stopped is said, and nothing else.
pub fn clock_changes_are_said()
    ensures { ClockChangesAreSaid }
{
    // For its clause: what came says whether the clock is stopped.
    stops_once();
}

/// If nobody has listened for ten seconds, the game is told that it resumes; for less, nothing is told.
pub fn unheeded_resumes()
    ensures { UnheededResumes }
{}

/// SILENT isn't read of a board that answers.
pub fn answering_is_not_silent()
    ensures { AnsweringIsNotSilent }
{
    // For its clause: SILENT is read only if that was told.
    silent_is_told();
}
