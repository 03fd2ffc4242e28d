//! What holds of each text.
ghost use Rattle.live_lines.specs.Laws.{EachByteComesOnce, IsAnsweredInOneWay, IsToldOnce, ReportsHaveLines, TextsAreNoNews, TextsAreRecorded, TimesGoOn, WaitsForIt, WrittenIsTold};
ghost use Rattle.live_lines.specs.Once.{HasOneAnswer, HasOneReport, HasOneText, IsExplainedOnce, LaterChangesNothing, SaysOneThing};
ghost use Rattle.live_lines.specs.Kept.{FilesAreAsFiled};
ghost use Rattle.live_lines.specs.Recovered.{TextsAreRecovered};

use board_cable::laws::is_told_once as cable_is_told_once;
use board_live::laws::{is_answered_once, wakes_once};
use chess_text::laws::{fens_are_plain, moves_tell_texts, texts_are_plain};
use dgt_frame::laws::shows_once;
use going_back::laws::fit_is_one;
use pgn_book::laws::one_text;
use recovery::laws::woven_bytes_show_what_is_put_in;
use unseen_pairs::laws::recovers_once;

/// A text begins with one entry at most.
pub fn is_told_once()
    ensures { IsToldOnce }
{}

/// While more is wanted, no entry begins the text.
pub fn waits_for_it()
    ensures { WaitsForIt }
{}

/// An entry that was written is told, whatever stands behind it.
pub fn written_is_told()
    ensures { WrittenIsTold }
{}

/// No entry has a time before that of another one that came earlier.
pub fn times_go_on()
    ensures { TimesGoOn }
{}

/// Whatever the file of times says, each byte of the capture comes once, and in its order.
pub fn each_byte_comes_once()
    ensures { EachByteComesOnce }
{}

/// Answers that stand one behind the other are read in one way.
pub fn is_answered_in_one_way()
    ensures { IsAnsweredInOneWay }
{}

/// From a valid start, what a report has more consists of lines that begin with an offset.
pub fn reports_have_lines()
    ensures { ReportsHaveLines }
{
    // For its clause: no text of a move has a control character.
    texts_are_plain();
    // For its clause: and no FEN.
    fens_are_plain();
}

/// Who wants the text of the game tells no more than who wakes the recorder.
pub fn texts_are_no_news()
    ensures { TextsAreNoNews }
{}

/// Where no pairs are recovered, the text is that of the game that `record` writes.
pub fn texts_are_recorded()
    ensures { TextsAreRecorded }
{
    // For its clause: bytes show one list of events.
    shows_once();
}

/// Where pairs are recovered, the text is that of the game that `record` writes of what `recover` gives.
pub fn texts_are_recovered()
    ensures { TextsAreRecovered }
{
    // For its clause: bytes show one list of events.
    shows_once();
    // For its clause: at an event one pair is recovered, or none.
    recovers_once();
    // For its clause: the bytes with what is put in show the events with those that are put in.
    woven_bytes_show_what_is_put_in();
}

/// A host's two files, merged, are what the law on restarts speaks of.
pub fn files_are_as_filed()
    ensures { FilesAreAsFiled }
{}

/// From a valid start, what came has one text.
pub fn has_one_text()
    ensures { HasOneText }
{
    // For its clause: bytes show one list of events.
    shows_once();
    // For its clause: at an event one pair is recovered, or none.
    recovers_once();
    // For its clause: a game has one text.
    one_text();
}

/// From a valid start, what explains the board is said in one way.
pub fn is_explained_once()
    ensures { IsExplainedOnce }
{
    // For its clause: the bytes show one list of events.
    shows_once();
    // For its clause: at an event one pair is recovered, or none.
    recovers_once();
    // For its clause: one line is typed for a change.
    fit_is_one();
}

/// From a valid start, an entry has one answer.
pub fn has_one_answer()
    ensures { HasOneAnswer }
{
    // For its clause: what happened at the cable is told in one way.
    cable_is_told_once();
    // For its clause: what came has one text.
    has_one_text();
    // For its clause: what explains the board is said in one way.
    is_explained_once();
    // For its clause: one history has one answer.
    is_answered_once();
    // For its clause: one time to wake is named.
    wakes_once();
}

/// From a valid start, what came has one report.
pub fn has_one_report()
    ensures { HasOneReport }
{
    // For its clause: a legal move has one text.
    moves_tell_texts();
    // For its clause: bytes show one list of events.
    shows_once();
    // For its clause: at an event one pair is recovered, or none.
    recovers_once();
}

/// From a valid start, two runs that are told the same write the same bytes.
pub fn says_one_thing()
    ensures { SaysOneThing }
{
    // For its clause: what happened at the cable is told in one way.
    cable_is_told_once();
    // For its clause: what came has one report.
    has_one_report();
    // For its clause: an entry has one answer.
    has_one_answer();
}

/// Later entries change nothing: what is written begins with what any run writes of the first entries.
pub fn later_changes_nothing()
    ensures { LaterChangesNothing }
{
    // For its clause: told the same, the same is written.
    says_one_thing();
}
