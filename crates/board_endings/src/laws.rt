//! What holds of each history. Each law is the contract of a function, which does nothing.
ghost use Rattle.board_endings.specs.Laws.{DueOnce, EndsOnce, SameUntilDue, StaysOver, TellsOnce};
ghost use Rattle.board_endings.specs.Meaning.{AddedIsNotHeard, HeardResultEnds, PositionAgrees, ReopenedGameIsOn, ResultsAreTold, TimeEndsResult};

use game_over::laws::said_in_one_way;

/// From a valid start, one thing is told of what came.
pub fn tells_once()
    ensures { TellsOnce }
{}

/// So the end of the game follows from it.
pub fn ends_once()
    ensures { EndsOnce }
{
    // For its clause: one thing is said to an event.
    said_in_one_way();
}

/// And so does the time at which time alone ends it.
pub fn due_once()
    ensures { DueOnce }
{}

/// Until time is due to end the game, it stands as it does now.
pub fn same_until_due()
    ensures { SameUntilDue }
{}

/// If a game is over at some time, and it was told then that time has passed, the game stays so when a recorder begins.
pub fn stays_over()
    ensures { StaysOver }
{}

/// A picture that leaves the plies as they are tells that the board agrees exactly if it is the position.
pub fn position_agrees()
    ensures { PositionAgrees }
{}

/// The result that is told is the session's, and the kings' counts as declared.
pub fn results_are_told()
    ensures { ResultsAreTold }
{}

/// By an event that was added by hand the board isn't heard.
pub fn added_is_not_heard()
    ensures { AddedIsNotHeard }
{}

/// Once an arbiter has reopened a game it is neither over, nor does it go on.
pub fn reopened_game_is_on()
    ensures { ReopenedGameIsOn }
{}

/// A result ends the game with the first event that the board sends ten seconds later, and with none before.
pub fn heard_result_ends()
    ensures { HeardResultEnds }
{}

/// Time alone ends it 17 seconds later, or ten if an arbiter gave it, and not before.
pub fn time_ends_result()
    ensures { TimeEndsResult }
{}
