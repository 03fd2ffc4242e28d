//! A move, as far as the end of its game depends on it.
ghost use Rattle.std.specs.Prelude.{◌≡◌};
ghost use Rattle.game_over.specs.Unfinished.{home_stands, is_drawn as is_drawn_of, may_go as may_go_of, sets_up as sets_up_of, stands, stood_for as stood_for_of};

/// The last move of a game stays for this at least before somebody sets up, in milliseconds.
pub const STANDS: u64 = 1_000;

/// One that brought a piece home stays for this.
const HOME_STANDS: u64 = 3_000;

/// A move of a game, or a correction of one.
#[derive(Clone, Copy)]
pub struct Made {
    /// How long the board showed the position after it, in milliseconds; `None` where it still does.
    pub stood: Option<u64>,
    /// It brought a piece to a square that has such a piece at the start; or a castled king went home, which shows as the rook's
    /// move.
    pub goes_home: bool,
    /// Hands went on at once after it: nobody was thinking with a piece in hand.
    pub goes_on: bool,
    /// It corrects the move before it.
    pub corrects: bool,
    /// An arbiter added it, or it stayed when the game went back.
    pub is_added: bool,
}

/// Whether it stood so long.
pub fn stood_for(stood: Option<u64>, span: u64) -> bool
    ensures { result ≡ stood_for_of stood span }
{
    match stood {
        None => true,
        Some(stood) => span <= stood,
    }
}

/// Whether it may have been a piece that was drawn over the board, if it was the last one, or the next one was.
fn is_drawn(made: Made, next: Option<Made>) -> bool
    ensures { result ≡ is_drawn_of made next }
{
    if stood_for(made.stood, STANDS) || !made.goes_on {
        return false;
    }
    match next {
        None => true,
        Some(next) => next.corrects,
    }
}

/// Whether it was part of a set-up, as all after it were.
pub fn sets_up(made: Made, next: Option<Made>) -> bool
    ensures { result ≡ sets_up_of made next }
{
    if made.is_added {
        return false;
    }
    if made.goes_home {
        return !stood_for(made.stood, HOME_STANDS);
    }
    is_drawn(made, next)
}
