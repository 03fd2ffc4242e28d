//! What holds of each history. Each law is the contract of a function, which does nothing.
ghost use Rattle.game_over.specs.Laws.{AddedEndsNothing, EndsBehindFront, EndsInOneWay, EndsOnce, EndsWithResult, GoesOnAfterEnd, IsOverExactly, MovesStay, OnlySetUpGoes, PassesOnce, SaidInOneWay, StandsTenSeconds, TakenBackEndsNothing, UnseenIsUnsure};
ghost use Rattle.game_over.specs.SettingUp.{LastMoveStays, SetUpEndsExactly, StoodUntilLeft, ThinksForThreeSeconds};
ghost use Rattle.game_over.specs.Standing.{CorrectionEnds, EndsAfterTenSeconds, EndsUnheard, NextMoveEnds};

/// One thing is said to an event, by those before it.
pub fn said_in_one_way()
    ensures { SaidInOneWay }
{}

/// A game without a result ends in one way.
pub fn ends_in_one_way()
    ensures { EndsInOneWay }
{}

/// A game is over exactly if an event has ended it, and it wasn't reopened since.
pub fn is_over_exactly()
    ensures { IsOverExactly }
{}

/// A game that has ended ends no second time, until it is reopened.
pub fn ends_once()
    ensures { EndsOnce }
{}

/// Where time ends a game, its result has stood for ten seconds.
pub fn stands_ten_seconds()
    ensures { StandsTenSeconds }
{}

/// What time alone ends is sure exactly if an arbiter gave the result.
pub fn unseen_is_unsure()
    ensures { UnseenIsUnsure }
{}

/// Once a time was told, up to it no time ends the game any more.
pub fn passes_once()
    ensures { PassesOnce }
{}

/// A result that was taken back ends nothing.
pub fn taken_back_ends_nothing()
    ensures { TakenBackEndsNothing }
{}

/// A game ends nowhere before the bytes that were written when it went back.
pub fn ends_behind_front()
    ensures { EndsBehindFront }
{}

/// A move that an arbiter adds ends no game.
pub fn added_ends_nothing()
    ensures { AddedEndsNothing }
{}

/// A game is said to go on only if it was over before, and two moves were made since.
pub fn goes_on_after_end()
    ensures { GoesOnAfterEnd }
{}

/// A game that ends with a result has it, and ends behind it.
pub fn ends_with_result()
    ensures { EndsWithResult }
{}

/// Of a game that ends without a result only a tail of its moves goes, with what may have been part of a set-up.
pub fn only_set_up_goes()
    ensures { OnlySetUpGoes }
{}

/// A move that stood for three seconds, or was added, is the game's, whatever ends it later.
pub fn moves_stay()
    ensures { MovesStay }
{}

/// A result that stands ends the game when the board is heard ten seconds later, and at no time before.
pub fn ends_after_ten_seconds()
    ensures { EndsAfterTenSeconds }
{}

/// If the board isn't heard, it ends the game 17 seconds later, or ten if an arbiter gave it, and at no time before.
pub fn ends_unheard()
    ensures { EndsUnheard }
{}

/// Behind a move that stood for a second, the last one stays if it stood for a second too, or for three if it brought a piece home.
pub fn last_move_stays()
    ensures { LastMoveStays }
{}

/// The start that is shown again ends a game exactly if more than four squares were off it before.
pub fn set_up_ends_exactly()
    ensures { SetUpEndsExactly }
{}

/// Another move on the board after a result ends the game.
pub fn next_move_ends()
    ensures { NextMoveEnds }
{}

/// A correction on the board does, if the kings or an arbiter gave the result.
pub fn correction_ends()
    ensures { CorrectionEnds }
{}

/// A move stood until the board last began to show something else.
pub fn stood_until_left()
    ensures { StoodUntilLeft }
{}

/// Hands went on at once after a move if less than three seconds passed between the first two pictures after it.
pub fn thinks_for_three_seconds()
    ensures { ThinksForThreeSeconds }
{}
