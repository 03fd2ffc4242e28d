//! What holds of a game that went back, and of the change that explains a board.
ghost use Rattle.going_back.specs.Laws.{FitIsOne, FitSettlesIt, WhatComesIsRecorded, WhatStaysIsRecorded, WhatWentStaysAway};

use chess_text::laws::moves_tell_texts;
use dgt_frame::laws::shows_once;
use settle_core::laws::folds_once;

/// Of the new capture `record` makes the game with exactly the plies that stay, with their clocks, and no result; or with one
/// more that the board shows.
pub fn what_stays_is_recorded()
    ensures { WhatStaysIsRecorded }
{
    // For its clause: the bytes show one list of events.
    shows_once();
    // For its clause: the entries fold to one score.
    folds_once();
}

/// Of the new capture `record` makes the game with the plies that were put in place of the old ones.
pub fn what_comes_is_recorded()
    ensures { WhatComesIsRecorded }
{
    // For its clause: the bytes show one list of events.
    shows_once();
    // For its clause: the entries fold to one score.
    folds_once();
}

/// Behind `recover`, no pair is put in for what the board showed when the game went back.
pub fn what_went_stays_away()
    ensures { WhatWentStaysAway }
{}

/// With the change that alone explains it, the board agrees.
pub fn fit_settles_it()
    ensures { FitSettlesIt }
{}

/// What is typed for the change that explains a board follows from the game and the picture.
pub fn fit_is_one()
    ensures { FitIsOne }
{
    // For its clause: a move has one text.
    moves_tell_texts();
}
