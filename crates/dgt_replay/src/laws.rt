//! What one subcommand's output has to do with another's, each law as the contract of a function that does nothing.
ghost use Rattle.dgt_replay.specs.Added.{AddedLinesAreRecorded, AddedLinesAreRecovered};
ghost use Rattle.dgt_replay.specs.Agreement.{FollowTellsTheGame, RecordsRecovered, RecordsShownOrTold, WatchTellsTheGame};
ghost use Rattle.dgt_replay.specs.GotMoves.{GotMovesIsRecorded, GotMovesIsRecovered};
ghost use Rattle.dgt_replay.specs.Laws.{WrittenTextsAreWithin, WrittenTextsPass};
ghost use Rattle.dgt_replay.specs.LiveTexts.{LiveTextsAreRecorded, LiveTextsAreRecovered};
ghost use Rattle.dgt_replay.specs.WentBack.{WentBackIsRecorded, WentBackIsRecovered};

use board_listing::laws::{lines_give_the_game, watch_lines_give_the_game};
use board_session::laws::moves_take_ten_bytes;
use dgt_frame::laws::shows_once;
use going_back::laws::{what_comes_is_recorded, what_stays_is_recorded};
use live_lines::laws::{texts_are_recorded, texts_are_recovered};
use pgn_book::laws::{one_text, texts_are_short};
use recovery::laws::plies_are_shown_or_told;
use settle_core::laws::folds_once;
use unseen_pairs::laws::recovers_once;

/// `check` refuses no text that `record` made, neither for its size nor for its form.
pub fn written_texts_pass()
    ensures within { WrittenTextsAreWithin }
    ensures pass { WrittenTextsPass }
{
    // For its clause: the laws that these rest on.
    moves_take_ten_bytes();
    texts_are_short();
}

/// Of the same bytes `follow` tells the game that `record` writes.
pub fn follow_tells_the_game()
    ensures { FollowTellsTheGame }
{
    // For its clause: the bytes show one list of events.
    shows_once();
    // For its clause: the lines of events give their game.
    lines_give_the_game();
}

/// Of the same bytes the lines of `watch`, without those that it adds, give the game that `record` writes.
pub fn watch_tells_the_game()
    ensures { WatchTellsTheGame }
{
    // For its clause: the bytes show one list of events.
    shows_once();
    // For its clause: the lines of events give their game.
    watch_lines_give_the_game();
}

/// Of bytes with what `recover` puts in, `record` writes the game of the bytes where unseen pairs are recovered. Each of
/// its plies was shown by the bytes, or it is one of a pair whose line was written.
pub fn recovered_games_are_recorded()
    ensures game { RecordsRecovered }
    ensures plies { RecordsShownOrTold }
{
    // For its clause: the bytes show one list of events.
    shows_once();
    // For its clause: the entries fold to one score.
    folds_once();
    // For its clause: each ply was shown, or its pair has a line.
    plies_are_shown_or_told();
}

/// Of a capture with the bytes that a typed line adds, `record` writes the plies of the capture and those that were
/// typed, without clocks; or the plies of the capture and the result. Behind `recover` it does, where the line was added
/// with `--recover`.
pub fn added_lines_are_recorded()
    ensures recorded { AddedLinesAreRecorded }
    ensures recovered { AddedLinesAreRecovered }
{
    // For its clause: the bytes show one list of events.
    shows_once();
    // For its clause: the entries fold to one score.
    folds_once();
    // For its clause: the pairs are recovered in one way.
    recovers_once();
}

/// Of the new capture of a game that goes back, `record` writes exactly the plies that stay, with their clocks, and no
/// result; or one more that the board shows. Behind `recover` it does, where the game went back with `--recover`.
pub fn went_back_is_recorded()
    ensures recorded { WentBackIsRecorded }
    ensures recovered { WentBackIsRecovered }
{
    // For its clause: the game of a new capture.
    what_stays_is_recorded();
    // For its clause: the bytes show one list of events.
    shows_once();
    // For its clause: the entries fold to one score.
    folds_once();
    // For its clause: the pairs are recovered in one way.
    recovers_once();
}

/// Of the new capture of a game that gets other moves, `record` writes the plies up to the number of the line and then its moves.
/// Behind `recover` it does, where the capture was read with `--recover`.
pub fn got_moves_are_recorded()
    ensures recorded { GotMovesIsRecorded }
    ensures recovered { GotMovesIsRecovered }
{
    // For its clause: the game of a new capture.
    what_comes_is_recorded();
    // For its clause: the bytes show one list of events.
    shows_once();
    // For its clause: the entries fold to one score.
    folds_once();
    // For its clause: the pairs are recovered in one way.
    recovers_once();
}

/// The text that `live` gives of a game is the one that `record` writes of the game's bytes; with `--recover`, of what `recover` gives of
/// them.
pub fn live_texts_are_recorded()
    ensures recorded { LiveTextsAreRecorded }
    ensures recovered { LiveTextsAreRecovered }
{
    // For its clause: the text is that of a game of these events.
    texts_are_recorded();
    texts_are_recovered();
    // For its clause: the entries fold to one score.
    folds_once();
    // For its clause: a game has one text.
    one_text();
}
