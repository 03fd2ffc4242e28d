//! What holds of each history. Each law is the contract of a function, which does nothing.
ghost use Rattle.board_doubts.specs.Laws.{ClockIsKnownAgain, HandsOffPasses, NoPawnCounts, OnlyBackIsTakenBack, OnlyWhileStopped, OwnTimePasses, PairBackIsDoubted, PressedEndPasses, PressedPlyPasses, QuickCorrectionPasses, QuickPlyPasses, ReturnCounts, RunningClockPasses, SecondMoveIsTried, ShortGapPasses, SilenceIsDoubted, SilentReplacementIsDoubted, SixthPlyIsDoubted, StaysDoubtful, StoppedMoveIsNamed, UndoubtedCorrection, UndoubtedMove};
ghost use Rattle.board_doubts.specs.Meaning.{BitSaysRunning, EndedGamePasses, FirstMoveIsTried, OddAfterTenSeconds, PressPasses, SeventhLentPlyIsDoubted, SilentReturnIsDoubted, TakenBackAtOnce, TriedMovesAreCounted};

/// What is doubtful stays so, whatever comes later.
pub fn stays_doubtful()
    ensures { StaysDoubtful }
{}

/// While nobody moves pieces of the side that moved last, no move is doubted.
pub fn hands_off_passes()
    ensures { HandsOffPasses }
{}

/// While nobody moves pieces of the side to move, no correction is doubted that isn't late.
pub fn quick_correction_passes()
    ensures { QuickCorrectionPasses }
{}

/// No move is doubted since the board wasn't heard for less than any ply takes.
pub fn short_gap_passes()
    ensures { ShortGapPasses }
{}

/// What holds of a correction that isn't doubted.
pub fn undoubted_correction()
    ensures { UndoubtedCorrection }
{}

/// What holds of a move that isn't doubted.
pub fn undoubted_move()
    ensures { UndoubtedMove }
{}

/// A pair that takes both sides' last plies back is never passed over.
pub fn pair_back_is_doubted()
    ensures { PairBackIsDoubted }
{}

/// A time in which the row said SILENT is never passed over.
pub fn silence_is_doubted()
    ensures { SilenceIsDoubted }
{}

/// While the clock runs, no move is made while it is stopped.
pub fn running_clock_passes()
    ensures { RunningClockPasses }
{}

/// Moves are made while the clock is stopped only if it has run, and has been stopped for a time or for another move.
pub fn only_while_stopped()
    ensures { OnlyWhileStopped }
{}

/// The second move after the clock was stopped is reported.
pub fn second_move_is_tried()
    ensures { SecondMoveIsTried }
{}

/// While players press the clock for each ply, no ply is doubted for want of a press.
pub fn pressed_ply_passes()
    ensures { PressedPlyPasses }
{}

/// Pieces that both sides put elsewhere while nobody presses the clock are doubted.
pub fn silent_replacement_is_doubted()
    ensures { SilentReplacementIsDoubted }
{}

/// While the clock runs and nobody presses it, the sixth ply is doubted.
pub fn sixth_ply_is_doubted()
    ensures { SixthPlyIsDoubted }
{}

/// Once a clock that has run is stopped, the answer to the result names the moves that are made then.
pub fn stopped_move_is_named()
    ensures { StoppedMoveIsNamed }
{}

/// While players press the clock, and their board is right, nothing is asked when the result is given.
pub fn pressed_end_passes()
    ensures { PressedEndPasses }
{}

/// Only a ply that takes another one back is doubted as taken back.
pub fn only_back_is_taken_back()
    ensures { OnlyBackIsTakenBack }
{}

/// What was known of the clock is known on after a time in which the board wasn't heard, if the clock goes on as before.
pub fn clock_is_known_again()
    ensures { ClockIsKnownAgain }
{}

/// While players think on their own time, no ply is doubted for that.
pub fn own_time_passes()
    ensures { OwnTimePasses }
{}

/// No quick ply is doubted for that.
pub fn quick_ply_passes()
    ensures { QuickPlyPasses }
{}

/// A square counts if its piece could go back from there.
pub fn return_counts()
    ensures { ReturnCounts }
{}

/// No pawn counts.
pub fn no_pawn_counts()
    ensures { NoPawnCounts }
{}

/// After the end of a game nothing is doubted.
pub fn ended_game_passes()
    ensures { EndedGamePasses }
{}

/// Bit 0 of the last byte of a time message says that the clock runs.
pub fn bit_says_running()
    ensures { BitSaysRunning }
{}

/// The first move after a clock was stopped is reported if it comes three seconds later, and not if it comes sooner.
pub fn first_move_is_tried()
    ensures { FirstMoveIsTried }
{}

/// After a press of the clock the next plies aren't doubted for want of one.
pub fn press_passes()
    ensures { PressPasses }
{}

/// A position that comes again with four plies that have no press is doubted.
pub fn silent_return_is_doubted()
    ensures { SilentReturnIsDoubted }
{}

/// Each later move is reported with how many they are, and how many plies ago the last ply before them was made.
pub fn tried_moves_are_counted()
    ensures { TriedMovesAreCounted }
{}

/// Plies that are taken back without a clock are doubted if that is done within two seconds.
pub fn taken_back_at_once()
    ensures { TakenBackAtOnce }
{}

/// A move is odd if the board has shown something else for ten seconds before it.
pub fn odd_after_ten_seconds()
    ensures { OddAfterTenSeconds }
{}

/// The seventh ply in a row that is thought about on the other side's time is doubted.
pub fn seventh_lent_ply_is_doubted()
    ensures { SeventhLentPlyIsDoubted }
{}
