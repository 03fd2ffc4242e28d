//! Whether the start is shown again after a game.
ghost use Rattle.std.specs.Prelude.{◌≡◌, ◌∷◌, [], ℕ, List};
ghost use Rattle.game_over.specs.Again.{ends_by};
ghost use Rattle.game_over.specs.Keeping.{KeepsPictures};

/// A move changes so many squares at most.
const ONE_MOVE: u32 = 4;

/// Takes the pictures of a board, and says which of them end the game.
#[derive(Clone, Copy)]
pub struct StartAgain {
    was_away: bool,
}

impl StartAgain {
    /// No picture.
    pub fn new() -> StartAgain
        ensures { KeepsPictures result [] }
    {
        StartAgain { was_away: false }
    }

    /// Takes a picture, by the mask of the squares that are off the start, while the game is at its start or not. Returns
    /// whether it ends the game.
    pub fn take(&mut self, off: u64, at_start: bool) -> bool
        ensures stands { (past : List ℕ) → KeepsPictures self.old past → KeepsPictures self.new (off ∷ past) }
        ensures ends { (past : List ℕ) → KeepsPictures self.old past → result ≡ ends_by off at_start past }
    {
        let was_away = self.was_away;
        let count = off.count_ones();
        let is_start = count == 0;
        self.was_away = !is_start && (ONE_MOVE < count || was_away);
        is_start && was_away && !at_start
    }
}
