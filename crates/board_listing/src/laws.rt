//! What the lines of `follow` and `watch` give, each law as the contract of a function that does nothing.
ghost use Rattle.board_listing.specs.GivenGame.{LinesGiveOneGame, LinesGiveTheGame, TextTellsTheGame, TextTellsTheLines};
ghost use Rattle.board_listing.specs.ListingLaws.{MoreBytesAddLines};
ghost use Rattle.board_listing.specs.WatchLaws.{IdleEventsTellNothing, WatchLinesGiveTheGame, WatchNamesThePositions, WatchShowsThePictures, WatchTellsWhatFollowTells, WatchTextTellsItsLines};

use chess_text::laws::{fens_are_plain, moves_tell_texts, texts_are_plain, texts_tell_moves};
use dgt_frame::laws::fronts_show_fronts;

/// The lines that `follow` tells of events give their game: taken in order, where a move adds a ply and a correction
/// takes the place of the last one, they give its plies, with their clocks, and its result.
pub fn lines_give_the_game()
    ensures { LinesGiveTheGame }
{}

/// Lines of `follow` give one list of plies and one result at most, with whatever position they begin.
pub fn lines_give_one_game()
    ensures { LinesGiveOneGame }
{
    // For its clause: the laws that this one rests on.
    texts_are_plain();
    texts_tell_moves();
}

/// A text of lines of `follow` tells the lines: no other lines that give a game have it. The line of the rest may stand
/// behind them.
pub fn text_tells_the_lines()
    ensures { TextTellsTheLines }
{
    // For its clause: the law that this one rests on.
    texts_are_plain();
}

/// A text of lines of `follow` tells one list of plies and one result at most.
pub fn text_tells_the_game()
    ensures { TextTellsTheGame }
{
    // For its clause: the laws that this one rests on.
    text_tells_the_lines();
    lines_give_one_game();
}

/// Without the lines that tell a picture, a position or what the clocks show, the text of `watch` is that of `follow`.
pub fn watch_tells_what_follow_tells()
    ensures { WatchTellsWhatFollowTells }
{}

/// The lines of `watch` that tell a picture are, without offset and word, those of `pictures`.
pub fn watch_shows_the_pictures()
    ensures { WatchShowsThePictures }
{}

/// Each line of `watch` that tells a position has that which the lines of `follow` before it give.
pub fn watch_names_the_positions()
    ensures { WatchNamesThePositions }
{
    // For its clause: the law that this one rests on.
    texts_are_plain();
}

/// The lines of `watch` of events, without those that it adds, give the game of the events: its plies, with their
/// clocks, and its result.
pub fn watch_lines_give_the_game()
    ensures { WatchLinesGiveTheGame }
{
    // For its clause: the laws that this one rests on.
    texts_are_plain();
    fens_are_plain();
}

/// A text of `watch` tells its lines: no other lines of `watch` have it. The line of the rest may stand behind them.
pub fn watch_text_tells_its_lines()
    ensures { WatchTextTellsItsLines }
{
    // For its clause: the law that this one rests on.
    fens_are_plain();
}

/// More bytes add lines and change none: the lines of a stream's first bytes are the first of its lines, under `show`,
/// `pictures`, `follow` and `watch`.
pub fn more_bytes_add_lines()
    ensures { MoreBytesAddLines }
{
    // For its clause: the laws that this one rests on.
    moves_tell_texts();
    fronts_show_fronts();
}

/// An idle event has no line of `watch`. A dump that equals the last one is idle, if no update and no fault came after
/// that one; so is each message but a dump, an update and a time. A time has no line but that of the clocks.
pub fn idle_events_tell_nothing()
    ensures { IdleEventsTellNothing }
{}
