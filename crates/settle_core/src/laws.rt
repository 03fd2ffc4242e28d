//! What holds of all games: each law is the contract of a function, which changes nothing. `candidate` and `diff_mask`,
//! which read a move off two pictures, can be had from here too.
ghost use Rattle.settle_core.specs.AnyHands.{MadeAgainStops, OneHandStops, TakenBackAndMadeAgain, WholeMoveIsWithinTurn};
ghost use Rattle.settle_core.specs.AnyPlay.{HonestPlayResumes, KingsEndResumedPlay, KingsInCentreKeepThePlies, KingsInCentreMakeNoMove, NothingIsInvented, OnlyTheLastPlyMayChange, ResumedPlayStops};
ghost use Rattle.settle_core.specs.Endings.{HonestPlayEnds, HonestPlayStopsAnywhere};
ghost use Rattle.settle_core.specs.Laws.{FoldsOnce, FrontsOfHonestPlay, HonestPlayFolds, HonestPlayStops, NoEntryGivesTwo, NoMoreIsWithinTurn, RepeatsCountOnce, RestingWaits, SignsSettleNothing, ThreeUnseenAddNothing, ThreeUnseenSettleNothing, TwoUnseenChangeNothing, TwoUnseenWait, UnderWayIsWithinTurn};

pub use crate::candidate::candidate;
pub use crate::masks::diff_mask;

/// Honest play folds to its moves: the pictures that show a line of moves, one after the other, give this line.
pub fn honest_play_folds()
    ensures { HonestPlayFolds }
{}

/// Where honest play stops between two moves, the plies are those of the moves that were shown whole. There may be one
/// more, of a move that was tried and takes no piece. No sign stands.
pub fn honest_play_stops()
    ensures { HonestPlayStops }
{}

/// What `honest_play_stops` says holds wherever honest play is broken off, also on the way to a move.
pub fn fronts_of_honest_play()
    ensures { FrontsOfHonestPlay }
{}

/// A picture waits that shows no more than the position has, or on which a king stands nowhere.
pub fn resting_waits()
    ensures { RestingWaits }
{}

/// Where two plies were not seen, the picture after them waits: it leaves the score as it was.
pub fn two_unseen_wait()
    ensures waits { TwoUnseenWait }
    ensures score { TwoUnseenChangeNothing }
{}

/// Where three plies were not seen, the picture after them settles no move of the position reached, and is no sign. So
/// it adds no ply. It may put another move in the place of the last one.
pub fn three_unseen_settle_nothing()
    ensures settles { ThreeUnseenSettleNothing }
    ensures score { ThreeUnseenAddNothing }
{}

/// A picture on the way to a move, or a try of its piece, is within the mover's turn.
pub fn under_way_is_within_turn()
    ensures { UnderWayIsWithinTurn }
{}

/// So is a picture on which each square shows what the position has there, or nothing.
pub fn no_more_is_within_turn()
    ensures { NoMoreIsWithinTurn }
{}

/// An entry whose picture equals the one before counts for nothing.
pub fn repeats_count_once()
    ensures { RepeatsCountOnce }
{}

/// From a valid start, a list of entries folds to one score at most.
pub fn folds_once()
    ensures { FoldsOnce }
{}

/// No entry gives more than one ply.
pub fn no_entry_gives_two()
    ensures { NoEntryGivesTwo }
{}

/// A picture that settles a move of a valid position is no sign.
pub fn signs_settle_nothing()
    ensures { SignsSettleNothing }
{}

/// Nothing is invented: whatever a board shows, each ply was shown whole, in its turn, with its clock.
pub fn nothing_is_invented()
    ensures { NothingIsInvented }
{}

/// Only the last ply may change: whatever comes later, all plies but the last stand for good.
pub fn only_the_last_ply_may_change()
    ensures { OnlyTheLastPlyMayChange }
{}

/// Honest play resumes: whatever was seen before, where no sign stands and the board agrees with the game, the moves
/// that are shown honestly from there on are added, and nothing else is. So it is where play stops, and where the kings
/// end it.
pub fn honest_play_resumes()
    ensures adds { HonestPlayResumes }
    ensures stops { ResumedPlayStops }
    ensures ends { KingsEndResumedPlay }
{}

/// While both kings stand in the centre no move is made, whatever else shows: pieces may be put away, and the sign
/// alone can change.
pub fn kings_in_centre_make_no_move()
    ensures settles { KingsInCentreMakeNoMove }
    ensures plies { KingsInCentreKeepThePlies }
{}

/// After honest play pieces are taken off and set up again, and the kings may give a sign: the line stands, with the
/// sign. And where all this is broken off anywhere, no whole move is lost.
pub fn honest_play_stops_anywhere()
    ensures ends { HonestPlayEnds }
    ensures stops { HonestPlayStopsAnywhere }
{}

/// A move that takes no piece may be made whole, taken back and made again before the other side begins. Its whole
/// picture is within the mover's turn, and honest play with such pictures folds to its moves. Where it stops between two
/// moves, there may be one ply more, of a move that was tried.
pub fn moves_may_be_made_again()
    ensures whole { WholeMoveIsWithinTurn }
    ensures folds { TakenBackAndMadeAgain }
    ensures stops { MadeAgainStops }
{}

/// Where honest play is broken off on the way to a move, and each picture since the last whole move has one piece in
/// hand, the one ply more, if there is one, is of this piece; or of the rook, where the move to be made castles.
pub fn one_hand_stops()
    ensures { OneHandStops }
{}
