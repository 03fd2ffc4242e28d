//! What an arbiter reads of a board.
ghost use Rattle.std.specs.Prelude.{◌≡◌, ◌≢◌, ◌⊎◌, ◌↔◌, IsTrue};
ghost use Rattle.board_standing.specs.States.{HasOtherParts, IsNews, before_game, is_alarm, is_alarming as is_alarming_of};

/// What an arbiter reads first.
#[derive(Clone, Copy, PartialEq, Eq)]
pub enum Kind {
    /// Nothing has been shown since the recorder began.
    Waits,
    /// The board shows the game's position.
    Agrees,
    /// It has shown the result.
    Ended,
    /// It differs, on each square for less time than a hand may take.
    InHand,
    /// It has differed on squares for longer, or has long come no nearer to the game's position.
    Wrong,
    /// It has long come no nearer to the start, which it has never shown.
    NoStart,
    /// It has differed on more squares than hands change in a move, and pieces are still moved, or no move was played.
    SettingUp,
    /// It doesn't answer.
    Silent,
    /// Its line is gone.
    Unplugged,
}

/// What may be wrong with a board that shows something else.
#[derive(Clone, Copy, PartialEq, Eq)]
pub enum Hint {
    /// It may be turned round.
    TurnedRound,
    /// Another board may be on this line.
    OtherBoard,
}

/// What an arbiter reads.
#[derive(Clone, Copy, PartialEq, Eq)]
pub struct State {
    pub kind: Kind,
    /// Since when, in milliseconds; of `Waits` there is no such time.
    pub since: Option<u64>,
    /// The squares that are named with it.
    pub squares: u64,
    pub hint: Option<Hint>,
}

impl Kind {
    /// Whether it is the other one.
    fn is(self, other: Kind) -> bool
        ensures { IsTrue result ↔ (self ≡ other) }
    {
        self == other
    }

    /// Whether somebody must go to a board of which this is read.
    fn is_alarming(self) -> bool
        ensures { result ≡ is_alarming_of self }
    {
        match self {
            Kind::Wrong | Kind::NoStart | Kind::Silent | Kind::Unplugged => true,
            _ => false,
        }
    }
}

fn is_hint(one: Option<Hint>, other: Option<Hint>) -> bool
    ensures { IsTrue result ↔ (one ≡ other) }
{
    one == other
}

fn is_time(one: Option<u64>, other: Option<u64>) -> bool
    ensures { IsTrue result ↔ (one ≡ other) }
{
    one == other
}

/// Whether other squares are wrong, or the result was given anew.
fn has_other_parts(state: State, before: State) -> bool
    ensures { IsTrue result ↔ HasOtherParts before state }
{
    match state.kind {
        Kind::Wrong => state.squares != before.squares,
        Kind::Ended => !is_time(state.since, before.since),
        _ => false,
    }
}

impl State {
    /// Whether somebody must go to the board.
    pub fn is_alarm(self) -> bool
        ensures { result ≡ is_alarm self }
    {
        self.kind.is_alarming() || self.hint.is_some()
    }

    /// Whether it is to be reported after another one. A state that only lasts isn't reported again.
    pub fn is_news(self, before: State) -> bool
        ensures { IsTrue result ↔ IsNews before self }
    {
        !self.kind.is(before.kind)
            || !is_hint(self.hint, before.hint)
            || has_other_parts(self, before)
    }

    /// The state while no game has begun: what is in a hand is being set up.
    pub fn before_game(self) -> State
        ensures { result ≡ before_game self }
    {
        match self.kind {
            Kind::Waits | Kind::InHand => State {
                kind: Kind::SettingUp,
                squares: 0,
                ..self
            },
            _ => self,
        }
    }
}
