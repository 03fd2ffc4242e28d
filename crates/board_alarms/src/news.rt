//! What comes of a game.
ghost use Rattle.std.specs.Prelude.{◌≡◌};
ghost use Rattle.board_alarms.specs.Hearing.{is_another as is_another_of, moves as moves_of};

/// What an event shows.
#[derive(Clone, Copy)]
pub enum Sight {
    /// No picture.
    Nothing,
    /// The last picture again.
    Again,
    /// Another picture, or the first, and the plies stay.
    Another,
    /// Another picture, or the first, with which the plies have become others.
    Moves,
}

impl Sight {
    /// Whether it is another picture, or the first.
    pub fn is_another(self) -> bool
        ensures { result ≡ is_another_of self }
    {
        matches!(self, Sight::Another | Sight::Moves)
    }

    /// Whether the plies have become others.
    pub fn moves(self) -> bool
        ensures { result ≡ moves_of self }
    {
        matches!(self, Sight::Moves)
    }
}

/// What comes beside the events of a board.
#[derive(Clone, Copy)]
pub enum News {
    /// The board's line is gone.
    Gone,
    /// A recorder begins. It may take up a game whose events came before.
    Begins,
    /// Plies that no picture showed are put in: their events follow.
    PutsIn,
    /// Somebody has looked: no alarm is open any more.
    Looked,
    /// Plies were taken off, or the game is taken up: the pieces are to be put where they belong, if they don't stand there.
    PutsBack,
    /// Something is suspected that no board shows. Who tells it knows by this number what it is.
    Suspects(u64),
}
