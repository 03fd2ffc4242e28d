//! What holds of all lists of events, each law as the contract of a function that does nothing; and that the text of a
//! game reads back.
ghost use Rattle.std.specs.Prelude.{◌≡◌, List, MatchResult};
ghost use Rattle.dgt_frame.specs.declared.events.Event.{Event};
ghost use Rattle.chess_game.specs.Games.{Content};
ghost use Rattle.pgn_book.specs.Pgn.{Pgn};
ghost use Rattle.chess_game.specs.Values.{TagValues};
ghost use Rattle.board_session.specs.AnyRecording.{HonestEndIsRecorded, HonestEndIsWritten, HonestStopAnywhereIsRecorded, HonestStopAnywhereIsWritten, KingsInCentreWriteNoMove, MadeAgainIsRecorded, MadeAgainIsWritten, NothingWrittenIsInvented, OnlyTheLastPlyIsRewritten, RestartsAreRecorded, RestartsAreWritten, ResumedEndIsWritten, ResumedPlayIsWritten, ResumedStopIsWritten};
ghost use Rattle.board_session.specs.AnyStream.{KingsInCentreRecordNoMove, NothingRecordedIsInvented, OnlyTheLastRecordedPlyMayChange, ResumedEndIsRecorded, ResumedPlayIsRecorded, ResumedStopIsRecorded};
ghost use Rattle.board_events.specs.Game.{IsGameOf};
ghost use Rattle.board_session.specs.HonestBoard.{HonestBoardsAreRead};
ghost use Rattle.board_session.specs.Laws.{EventsTellTheGame, FaultsAskOnce, FaultsBeforeDumpsCanGo, HonestClocksAreRecorded, HonestFrontIsWritten, HonestPlayIsRecorded, HonestPlayIsWritten, HonestStopIsRecorded, IdleEventsCanGo, KingsEndIsRecorded, KingsEndIsWritten, NoEventGivesTwo, ThreeUnseenAddNoMove, TwoUnseenAreNotRecorded};
ghost use Rattle.board_events.specs.Settings.{Setting};
ghost use Rattle.board_session.specs.Sizes.{FramesAreWithin, MovesTakeTenBytes, WrittenMovesTakeTenBytes};

use chess_game::Game;
use dgt_frame::laws::{fronts_show_fronts, restarts_are_shown, shows_once};
use pgn_book::{PgnError, read_pgn};
use std::alloc::Global;

/// Idle events can be taken out: repeated updates and dumps, repeated times, updates that aren't trusted, other
/// messages.
pub fn idle_events_can_go()
    ensures { IdleEventsCanGo }
{}

/// A fault can be taken out where the next event, times and other messages aside, is a dump; and a fault costs one
/// request for a dump.
pub fn faults_before_dumps_can_go()
    ensures same { FaultsBeforeDumpsCanGo }
    ensures asks { FaultsAskOnce }
{}

/// Events have one game at most.
pub fn events_tell_the_game()
    ensures { EventsTellTheGame }
{}

/// No event gives more than one move.
pub fn no_event_gives_two()
    ensures { NoEventGivesTwo }
{}

/// Honest play is recorded: where the pictures of the events show a line of moves, their game has exactly these moves.
pub fn honest_play_is_recorded()
    ensures { HonestPlayIsRecorded }
{}

/// In honest play the ply of each move has its mover's time in the reading of the first entry that shows the whole
/// move.
pub fn honest_clocks_are_recorded()
    ensures { HonestClocksAreRecorded }
{}

/// Where honest play stops between two moves, the game has the whole moves, and at most one try that takes no piece.
pub fn honest_stop_is_recorded()
    ensures { HonestStopIsRecorded }
{}

/// The end by the kings after honest play: the game has the moves and the result.
pub fn kings_end_is_recorded()
    ensures { KingsEndIsRecorded }
{}

/// An event whose picture is that after two plies that were not seen leaves the game as it was.
pub fn two_unseen_are_not_recorded()
    ensures { TwoUnseenAreNotRecorded }
{}

/// An event whose picture is that after three plies that were not seen adds no move; it may correct the last one.
pub fn three_unseen_add_nothing()
    ensures { ThreeUnseenAddNoMove }
{}

/// What `record` writes of honest play: where a whole stream shows a line of moves honestly, the game has exactly these
/// moves.
pub fn honest_play_is_written()
    ensures { HonestPlayIsWritten }
{
    // For its clause: the law that this one rests on.
    shows_once();
}

/// Wherever a recording of honest play ends, and by whatever: the game has all moves that were shown whole, and at most
/// one try that takes no piece.
pub fn honest_front_is_written()
    ensures { HonestFrontIsWritten }
{
    // For its clause: the law that this one rests on.
    fronts_show_fronts();
}

/// The end by the kings, of a whole stream: the game has the moves and the result.
pub fn kings_end_is_written()
    ensures { KingsEndIsWritten }
{
    // For its clause: the law that this one rests on.
    shows_once();
}

/// Nothing is invented: whatever a board sends, each ply was shown whole, in its turn, with its clock.
pub fn nothing_is_invented()
    ensures recorded { NothingRecordedIsInvented }
    ensures written { NothingWrittenIsInvented }
{}

/// Only the last ply may change: whatever comes later, all plies but the last stand for good.
pub fn only_the_last_ply_may_change()
    ensures recorded { OnlyTheLastRecordedPlyMayChange }
    ensures written { OnlyTheLastPlyIsRewritten }
{
    // For its clause: the law that the second clause rests on.
    fronts_show_fronts();
}

/// Honest play resumes: whatever was sent before, where the game has no result and the board agrees with it, the moves
/// that are shown honestly from there on are added, and nothing else is. So it is where the kings end it. Where that
/// play stops between two moves, there may be one ply more, of a move that was tried and takes no piece.
pub fn honest_play_resumes()
    ensures adds { ResumedPlayIsRecorded }
    ensures stops { ResumedStopIsRecorded }
    ensures ends { ResumedEndIsRecorded }
{}

/// What `honest_play_resumes` says holds of the game that `record` leaves, whatever it returned.
pub fn resumed_play_is_written()
    ensures adds { ResumedPlayIsWritten }
    ensures stops { ResumedStopIsWritten }
    ensures ends { ResumedEndIsWritten }
{}

/// While both kings stand in the centre no move is made, whatever else shows; the result alone can change.
pub fn kings_in_centre_make_no_move()
    ensures recorded { KingsInCentreRecordNoMove }
    ensures written { KingsInCentreWriteNoMove }
{}

/// Honest play with its end, pieces put away or the kings in the centre, is recorded; and so it is where this is broken
/// off anywhere.
pub fn honest_end_is_recorded()
    ensures ends { HonestEndIsRecorded }
    ensures stops { HonestStopAnywhereIsRecorded }
{}

/// Honest play with its end, as `record` leaves it, whatever it returned, unless memory ran out: the game has the plies
/// of the line, with their clocks, and the result of its last position, else that of the kings.
pub fn honest_end_is_written()
    ensures { HonestEndIsWritten }
{
    // For its clause: the law that this one rests on.
    shows_once();
}

/// Honest play with its end, wherever `record` stopped in it, and whatever it returned: the game has the plies of the
/// moves that were shown whole, and at most one more, of a move that was tried and takes no piece. After the last move
/// the kings' result may stand.
pub fn honest_stop_anywhere_is_written()
    ensures { HonestStopAnywhereIsWritten }
{
    // For its clause: the law that this one rests on.
    fronts_show_fronts();
}

/// A move that takes no piece may be made whole, taken back and made again: the game has the moves of the line. Where
/// such play stops between two moves, there may be one ply more, of a move that was tried and takes no piece.
pub fn moves_may_be_made_again()
    ensures recorded { MadeAgainIsRecorded }
    ensures written { MadeAgainIsWritten }
{
    // For its clause: the law that the second clause rests on.
    shows_once();
}

/// A stream that was broken off anywhere and begun again with a dump has the game of its two parts' events.
pub fn restarts_are_recorded()
    ensures recorded { RestartsAreRecorded }
    ensures written { RestartsAreWritten }
{
    // For its clause: the laws that these rest on.
    shows_once();
    fronts_show_fronts();
    restarts_are_shown();
}

/// A dump, and then one update for each square that changes, show exactly the pictures of the board, on a rotated one
/// too.
pub fn honest_boards_are_read()
    ensures { HonestBoardsAreRead }
{}

/// Each move takes ten bytes at least.
pub fn moves_take_ten_bytes()
    ensures frames { FramesAreWithin }
    ensures moves { MovesTakeTenBytes }
    ensures written { WrittenMovesTakeTenBytes }
{}

/// Reads the text of the game of some events back. It returns that game, unless it runs out of memory.
pub fn read_recorded(alloc: Global, text: &[u8]) -> Result<Game, PgnError>
    ensures { (setting : Setting) (tags : TagValues) (past : List Event) (game : Content)
        → IsGameOf game setting tags past → Pgn game text.now
        → MatchResult result (λ found. found ≡ game) (λ error. error ≡ PgnError.Memory) }
{
    read_pgn(alloc, text)
}
