//! What holds of each history at a board's cable.
ghost use Rattle.board_cable.specs.Laws.{EarlyWakesChangeNothing, HistoryAsksNothing, IsKeptInOrder, IsKeptWithoutNumber, IsToldOnce, OthersAreNotKept, TakenBoardIsOwn};
ghost use Rattle.board_cable.specs.Lost.{AsideComesWhole, HeldComesWhole, NoByteIsLost};
ghost use Rattle.board_cable.specs.Requests.{FaultsAreAsked, FirstAsksForUpdates, KnownNumberIsNotAsked, LostUpdatesAreAsked, NumberIsAskedTwice, OldDumpsAreAsked, OneIsUnanswered, RequestsAreApart, ShutLinesAreLeft};
ghost use Rattle.board_cable.specs.Silences.{AskedInVainIsSilent, SilentAfterSevenSeconds};
ghost use Rattle.board_cable.specs.Numbers.{FirstNumberIsOwn, HeldUntilNumbered, NothingIsHeldLonger, OtherNumbersAreNotKept, OwnSendsKnownNumber};

/// One history has one list of turns, so the answers follow from what happened.
pub fn is_told_once()
    ensures { IsToldOnce }
{}

/// A call that hasn't opened the line asks nothing, whatever happened before.
pub fn history_asks_nothing()
    ensures { HistoryAsksNothing }
{}

/// What the game gets was sent, byte by byte, in this order.
pub fn is_kept_in_order()
    ensures { IsKeptInOrder }
{}

/// A game whose board's number isn't known gets what is sent, as it comes.
pub fn is_kept_without_number()
    ensures { IsKeptWithoutNumber }
{}

/// The game gets nothing of what another board has sent, unless the arbiter takes that board.
pub fn others_are_not_kept()
    ensures { OthersAreNotKept }
{}

/// Who wakes before the time that `due` has named asks nothing, and the game gets nothing.
pub fn early_wakes_change_nothing()
    ensures { EarlyWakesChangeNothing }
{}

/// No byte is lost, and none comes to two games: each was given to the game or to another one, is kept back, or was dropped for a
/// reason that has a name.
pub fn no_byte_is_lost()
    ensures { NoByteIsLost }
{}

/// What was held comes to the game whole.
pub fn held_comes_whole()
    ensures { HeldComesWhole }
{}

/// If the arbiter takes the board on the cable, the number that it has shown is the game's.
pub fn taken_board_is_own()
    ensures { TakenBoardIsOwn }
{}

/// What was aside of a board comes whole, once the game has its number.
pub fn aside_comes_whole()
    ensures { AsideComesWhole }
{}

/// Two requests over one opening of the line are 0.2 s apart; 1 s, while the first one is unanswered.
pub fn requests_are_apart()
    ensures { RequestsAreApart }
{}

/// The request after one that is unanswered asks for updates too.
pub fn one_is_unanswered()
    ensures { OneIsUnanswered }
{}

/// A dump 4 s old is asked for again, whatever the board sends.
pub fn old_dumps_are_asked()
    ensures { OldDumpsAreAsked }
{}

/// After a fault a board whose line is open is asked as soon as it may be.
pub fn faults_are_asked()
    ensures { FaultsAreAsked }
{}

/// Over a line that has hung up or gone away nothing is sent.
pub fn shut_lines_are_left()
    ensures { ShutLinesAreLeft }
{}

/// Each first request over a line asks for updates too.
pub fn first_asks_for_updates()
    ensures { FirstAsksForUpdates }
{}

/// If a dump differs from the one before it, with no update in between, the next request asks for updates too.
pub fn lost_updates_are_asked()
    ensures { LostUpdatesAreAsked }
{}

/// If the game has a number, just the two requests after one for updates ask for the board's number too.
pub fn number_is_asked_twice()
    ensures { NumberIsAskedTwice }
{}

/// A number that has come isn't asked for, until updates are asked for again.
pub fn known_number_is_not_asked()
    ensures { KnownNumberIsNotAsked }
{}

/// The first number that comes is the game's, until another one is said to be.
pub fn first_number_is_own()
    ensures { FirstNumberIsOwn }
{}

/// If the game's number is known, what comes is held exactly until a number has come, for 5 s or three dumps.
pub fn held_until_numbered()
    ensures { HeldUntilNumbered }
{}

/// After 5 s or three dumps nothing is held.
pub fn nothing_is_held_longer()
    ensures { NothingIsHeldLonger }
{}

/// Nothing is kept of a board whose number isn't the game's.
pub fn other_numbers_are_not_kept()
    ensures { OtherNumbersAreNotKept }
{}

/// A board counts as the game's own exactly if it has sent the number that was known when the line was opened, until another one is
/// said.
pub fn own_sends_known_number()
    ensures { OwnSendsKnownNumber }
{}

/// A board is silent from where it is asked in vain until a dump comes, the line goes away or a call begins.
pub fn asked_in_vain_is_silent()
    ensures { AskedInVainIsSilent }
{}

/// A board that sends no dump over an open line is silent seven seconds later, if the recorder is woken in time.
pub fn silent_after_seven_seconds()
    ensures { SilentAfterSevenSeconds }
{}
