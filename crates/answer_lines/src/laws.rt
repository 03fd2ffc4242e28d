//! What holds of each answer.
ghost use Rattle.answer_lines.specs.Ends.{EndsAreReadInOneWay};
ghost use Rattle.answer_lines.specs.Laws.{DoneIsLast, IsSaidInOneWay};
ghost use Rattle.answer_lines.specs.Looks.{LooksAreReadInOneWay};

/// Answers that stand one behind the other are read in one way.
pub fn is_said_in_one_way()
    ensures { IsSaidInOneWay }
{}

/// The last line of an answer is the only one that begins with `done`.
pub fn done_is_last()
    ensures { DoneIsLast }
{}

/// So are alarms with what is said behind them.
pub fn looks_are_read_in_one_way()
    ensures { LooksAreReadInOneWay }
{}

/// So is how a game ends, with what is said behind it.
pub fn ends_are_read_in_one_way()
    ensures { EndsAreReadInOneWay }
{}
