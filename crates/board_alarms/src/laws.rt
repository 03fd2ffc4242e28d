//! What holds of each history. Each law is the contract of a function, which does nothing.
ghost use Rattle.board_alarms.specs.Laws.{CutIsAGap, LookingEndsAll, OpensOnce, QuietIsAGap, StopsOnce, SuspicionStaysOpen, TellsOnce};
ghost use Rattle.board_alarms.specs.Looking.{AddedRaisesNone, IsOpenExactly, LookedEndsAll, NamesPlies, ResultAsksForLast, StaysOpen, SuspectedStaysOpen};

/// From a valid start, one thing is told of what came.
pub fn tells_once()
    ensures { TellsOnce }
{}

/// So the alarms that are open follow from what came.
pub fn opens_once()
    ensures { OpensOnce }
{}

/// And so does whether the clock is stopped.
pub fn stops_once()
    ensures { StopsOnce }
{}

/// When somebody has looked, no alarm is open.
pub fn looking_ends_all()
    ensures { LookingEndsAll }
{}

/// A board that sends nothing for six seconds wasn't heard; for less it was, while its line is there.
pub fn quiet_is_a_gap()
    ensures { QuietIsAGap }
{}

/// While its line was gone it wasn't heard.
pub fn cut_is_a_gap()
    ensures { CutIsAGap }
{}

/// An alarm is open exactly if what raises it was told, and nobody has looked since then.
pub fn is_open_exactly()
    ensures { IsOpenExactly }
{}

/// Until somebody looks, each alarm stays, whatever comes later.
pub fn stays_open()
    ensures { StaysOpen }
{}

/// When somebody has looked, none is open.
pub fn looked_ends_all()
    ensures { LookedEndsAll }
{}

/// A result that an arbiter gives asks at most about the last moves.
pub fn result_asks_for_last()
    ensures { ResultAsksForLast }
{}

/// What an arbiter has added raises no alarm, but for a result.
pub fn added_raises_none()
    ensures { AddedRaisesNone }
{}

/// What is suspected is open until somebody looks.
pub fn suspected_stays_open()
    ensures { SuspectedStaysOpen }
{}

/// An alarm names the last ply, or the last one before the moves that it counts.
pub fn names_plies()
    ensures { NamesPlies }
{}

/// What is suspected is open until somebody says that he has looked, whatever the board sends.
pub fn suspicion_stays_open()
    ensures { SuspicionStaysOpen }
{}
