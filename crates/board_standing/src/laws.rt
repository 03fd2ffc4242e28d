//! What holds of each history. Each law is the contract of a function, which does nothing.
ghost use Rattle.board_standing.specs.Laws.{OldIsThroughout, OverdueIsThroughout, StaysUntilDue};
ghost use Rattle.board_standing.specs.Meaning.{AgreesExactly, NoStartExactly, OverdueIsSaid, SettingUpExactly, SilentExactly, TurnedRoundExactly, UnpluggedExactly, WrongIsSaid, WrongNamesExactly};
ghost use Rattle.board_standing.specs.Alarms.{AlarmsExactly, LastingIsNoNews, OtherIsNews};

/// If nothing is heard, the state stays as it is until it is due.
pub fn stays_until_due()
    ensures { StaysUntilDue }
{}

/// A square is old exactly if each picture that stood had it, for as long as a hand may take.
pub fn old_is_throughout()
    ensures { OldIsThroughout }
{}

/// A game is overdue exactly if no picture that stood had come nearer to it, for as long as it gets.
pub fn overdue_is_throughout()
    ensures { OverdueIsThroughout }
{}

/// AGREES means that the board shows its game's position, over a line that is there, and answers.
pub fn agrees_exactly()
    ensures { AgreesExactly }
{}

/// That the line is gone is said exactly while it is.
pub fn unplugged_exactly()
    ensures { UnpluggedExactly }
{}

/// That the board doesn't answer is said exactly while it doesn't.
pub fn silent_exactly()
    ensures { SilentExactly }
{}

/// WRONG names exactly the squares that have differed for ten seconds, or all that differ where the game is overdue.
pub fn wrong_names_exactly()
    ensures { WrongNamesExactly }
{}

/// What has differed for ten seconds is said.
pub fn wrong_is_said()
    ensures { WrongIsSaid }
{}

/// A board that has come no nearer to its game for 15 seconds is said to be wrong, or not to show the start.
pub fn overdue_is_said()
    ensures { OverdueIsSaid }
{}

/// That the start is not there is said exactly if the board has come no nearer to it for 15 seconds, and has never shown it.
pub fn no_start_exactly()
    ensures { NoStartExactly }
{}

/// That pieces are set up is said exactly while they are.
pub fn setting_up_exactly()
    ensures { SettingUpExactly }
{}

/// A board may be turned round exactly if its pieces stand so, and no move was played.
pub fn turned_round_exactly()
    ensures { TurnedRoundExactly }
{}

/// Somebody is called exactly for these states.
pub fn alarms_exactly()
    ensures { AlarmsExactly }
{}

/// Another kind is reported, another hint, and other squares that are wrong.
pub fn other_is_news()
    ensures { OtherIsNews }
{}

/// A state that only lasts isn't reported again.
pub fn lasting_is_no_news()
    ensures { LastingIsNoNews }
{}
