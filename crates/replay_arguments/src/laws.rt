//! What arguments without options ask for, each law as the contract of a function that does nothing.
ghost use Rattle.std.specs.Prelude.{Bool, List, Some, ℕ, [], ◌∷◌, codes};
ghost use Rattle.board_events.specs.Settings.{setting_of};
ghost use Rattle.chess_rules.specs.Initial.{initial};
ghost use Rattle.replay_arguments.specs.Setups.{plain_setup};
ghost use Rattle.replay_arguments.specs.Subcommands.{AreMistaken, AsksForHelp, AsksForMoves, AsksForPictures, AsksForPositions, AsksForTimes, AsksForVersion, AsksToAdd, AsksToAttend, AsksToCheck, AsksToFollow, AsksToGoBack, AsksToRecord, AsksToRecover, AsksToReplace, AsksToShow, AsksToWatch, IsAdd, IsBack, IsCheck, IsFollow, IsHelp, IsInstead, IsLive, IsMoves, IsPictures, IsPositions, IsRecord, IsRecover, IsShow, IsTimes, IsVersion, IsWatch};

/// `record` asks for a recording from the initial position, with White's time first and unknown tags, turned where
/// `--rotated` is given; `follow` asks that a game be followed that is set up so, `watch` that one be watched, and
/// `recover` that one be recovered; `live` asks that such a board be attended, with unknown tags, and its game recovered where
/// `--recover` is given; `moves` asks for those of the initial position, and `positions` for those of a line from it; `show`,
/// `pictures`, `check` and `times` ask for what they are called.
pub fn without_options()
    ensures shows { (arguments : List (List ℕ)) → IsShow arguments → AsksToShow arguments }
    ensures pictures { (rotated : Bool) (arguments : List (List ℕ)) → IsPictures rotated arguments → AsksForPictures rotated arguments }
    ensures records { (rotated : Bool) (arguments : List (List ℕ)) → IsRecord rotated arguments → AsksToRecord arguments (plain_setup rotated) }
    ensures follows { (rotated : Bool) (arguments : List (List ℕ)) → IsFollow rotated arguments → AsksToFollow arguments (setting_of (plain_setup rotated)) }
    ensures watches { (rotated : Bool) (arguments : List (List ℕ)) → IsWatch rotated arguments → AsksToWatch arguments (setting_of (plain_setup rotated)) }
    ensures recovers { (rotated : Bool) (arguments : List (List ℕ)) → IsRecover rotated arguments → AsksToRecover arguments (setting_of (plain_setup rotated)) }
    ensures attends { (rotated recovers : Bool) (arguments : List (List ℕ)) → IsLive rotated recovers arguments → AsksToAttend arguments (plain_setup rotated) recovers }
    ensures checks { (arguments : List (List ℕ)) → IsCheck arguments → AsksToCheck arguments }
    ensures times { (arguments : List (List ℕ)) → IsTimes arguments → AsksForTimes arguments }
    ensures moves { (arguments : List (List ℕ)) → IsMoves arguments → AsksForMoves arguments initial }
    ensures positions { (arguments : List (List ℕ)) → IsPositions arguments → AsksForPositions arguments initial }
{}

/// `add --line=TEXT` asks what TEXT adds, `back --to=TEXT` that the game go back so far, and `instead --line=TEXT` that it get
/// these moves, whatever TEXT is, from the initial position and with White's time first: turned where `--rotated` follows,
/// and recovered first where `--recover` does.
pub fn edits_with_a_text()
    ensures adds { (text : List ℕ) (rotated recovers : Bool) (arguments : List (List ℕ)) → IsAdd text rotated recovers arguments
        → AsksToAdd arguments (setting_of (plain_setup rotated)) recovers (Some text) }
    ensures goes_back { (text : List ℕ) (rotated recovers : Bool) (arguments : List (List ℕ)) → IsBack text rotated recovers arguments
        → AsksToGoBack arguments (setting_of (plain_setup rotated)) recovers (Some text) }
    ensures replaces { (text : List ℕ) (rotated recovers : Bool) (arguments : List (List ℕ)) → IsInstead text rotated recovers arguments
        → AsksToReplace arguments (setting_of (plain_setup rotated)) recovers (Some text) }
{}

/// `--help` and `-h` ask for help, `--version` and `-V` for the version; the program's name alone is mistaken, and so
/// is a subcommand that the program doesn't have.
pub fn help_and_mistakes()
    ensures help { (arguments : List (List ℕ)) → IsHelp arguments → AsksForHelp arguments }
    ensures version { (arguments : List (List ℕ)) → IsVersion arguments → AsksForVersion arguments }
    ensures nothing { (name : List ℕ) → AreMistaken (name ∷ []) }
    ensures unknown { (name : List ℕ) → AreMistaken (name ∷ codes "fly" ∷ []) }
{}
