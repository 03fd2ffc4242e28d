//! What holds of all games in which unseen pairs are recovered, each law as the contract of a function.
ghost use Rattle.unseen_pairs.specs.HonestHands.{HonestHandsAreLeftAlone, HonestHandsConfirmNone, PlainHandsAreOnTheWay};
ghost use Rattle.unseen_pairs.specs.HandsAtRest.{HandsAtRestAreLeftAlone, HandsAtRestConfirmNone, RestAddsNothing};
ghost use Rattle.unseen_pairs.specs.Laws.{IsWritten, NothingConfirmed, NothingPutIn, PliesAreLegal, PliesAreShownOrRecovered, RecoversOnce, WritesOnce, WrittenFolds};

/// Where no pair is confirmed, entries give what they fold to without recovering, and nothing is put in.
pub fn nothing_confirmed_nothing_put_in()
    ensures score { NothingConfirmed }
    ensures written { NothingPutIn }
{}

/// What entries give where unseen pairs are recovered is what those with what is put in fold to.
pub fn written_folds()
    ensures folds { WrittenFolds }
    ensures written { IsWritten }
{}

/// From a valid start, a list of entries gives one score at most, and the same of them wait, and the same is put in.
pub fn recovers_once()
    ensures score { RecoversOnce }
    ensures written { WritesOnce }
{}

/// Where unseen pairs are recovered, each move of the score is legal in the position after those before it.
pub fn plies_are_legal()
    ensures { PliesAreLegal }
{}

/// Nothing is invented: whatever a board shows, each ply was shown whole, or is one of a pair that was recovered.
pub fn nothing_is_invented()
    ensures { PliesAreShownOrRecovered }
{}

/// Honest hands are left alone: no pair is confirmed, and nothing is put in. Such hands leave the other side's pieces
/// where they stand, but may take off the one that the move takes. While it is off, the mover's pieces stand still too,
/// but those that the move moves. The kings are not both in the centre. While a king is off the board, anything may
/// show.
pub fn honest_hands_are_left_alone()
    ensures confirms { HonestHandsConfirmNone }
    ensures written { HonestHandsAreLeftAlone }
    ensures plain { PlainHandsAreOnTheWay }
{}

/// Whatever came before, from where nothing waits: while each square shows what the position reached has or nothing, or
/// a king is off the board, or both are in the centre, no pair is put in.
pub fn rest_adds_nothing()
    ensures { RestAddsNothing }
{}

/// Hands at rest are left alone: where each move is shown by honest hands, and between two of them and after the last
/// one both sides lift pieces and put them back in any order, no pair is confirmed. Pieces of the mover may still be in
/// hand when his move begins. After the last one the board may be cleared and the kings set up, in any order.
pub fn hands_at_rest_are_left_alone()
    ensures confirms { HandsAtRestConfirmNone }
    ensures written { HandsAtRestAreLeftAlone }
{}
