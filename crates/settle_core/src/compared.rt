//! A position beside the picture that was seen last.
ghost use Rattle.std.specs.Prelude.{◌≡◌, ◌≢◌, ◌<◌, ◌↔◌, ℕ, List, IfSome, IfNone, IsTrue, Some, length, slice_set};
ghost use Rattle.chess_rules.specs.declared.chess_move.Move.{Move as MoveOf};
ghost use Rattle.settle_core.specs.Settling.{Settles};
ghost use Rattle.settle_core.specs.Masks.{IsDiff, IsShown};
ghost use Rattle.settle_core.specs.Inside.Kept.{HasLanded, IsCompared, OnlyLacks};
ghost use Rattle.chess_rules.specs.Board.{other as other_side};
ghost use Rattle.settle_core.specs.Lost.{Bares, Loses, MayHideTwo};

use crate::candidate::{candidate_among, landing, owned_in};
use crate::codes::is_owned;
use crate::masks::{diff_mask, exceeds, meets};
use chess_rules::laws::pictures_tell_moves;
use chess_rules::{Move, Position};

/// A position, its picture, the squares on which the picture that was seen last differs from it, and those on which
/// pieces stand of the side to move, and of the other side.
#[derive(Clone, Copy, Debug)]
pub struct Compared {
    pub position: Position,
    pub picture: [u8; 64],
    pub mask: u64,
    pub ours: u64,
    pub theirs: u64,
}

/// The mask where the other picture shows this code on one square.
fn changed(mask: u64, picture: &[u8; 64], at: u8, code: u8) -> u64
    requires { at < 64 }
    ensures { (seen : List ℕ) → length seen ≡ 64 → IsDiff mask picture.now seen → IsDiff result picture.now (slice_set seen at code) }
{
    if picture[at as usize] == code {
        mask & !(1 << at)
    } else {
        mask | (1 << at)
    }
}

/// The squares on which a picture shows pieces, where it now shows this code on one square.
pub fn shown_after(shown: u64, at: u8, code: u8) -> u64
    requires { at < 64 }
    ensures { (seen : List ℕ) → length seen ≡ 64 → IsShown shown seen → IsShown result (slice_set seen at code) }
{
    changed(shown, &[0; 64], at, code)
}

impl Compared {
    /// A position beside this picture.
    pub fn new(position: Position, seen: &[u8; 64]) -> Compared
        ensures position { result.position ≡ position }
        ensures compared { IsCompared result seen.now }
    {
        let side = position.parts().side;
        let picture = position.picture();
        Compared {
            position,
            picture,
            mask: diff_mask(&picture, seen),
            ours: owned_in(side, &picture),
            theirs: owned_in(side.other(), &picture),
        }
    }

    /// The position is now beside another picture.
    pub fn compare(&mut self, seen: &[u8; 64])
        ensures position { self.new.position ≡ self.old.position }
        ensures compared { (old : List ℕ) → IsCompared self.old old → IsCompared self.new seen.now }
    {
        self.mask = diff_mask(&self.picture, seen);
    }

    /// The other picture now shows this code on one square.
    pub fn change(&mut self, at: u8, code: u8)
        requires { at < 64 }
        ensures position { self.new.position ≡ self.old.position }
        ensures compared { (seen : List ℕ) → length seen ≡ 64 → IsCompared self.old seen → IsCompared self.new (slice_set seen at code) }
    {
        self.mask = changed(self.mask, &self.picture, at, code);
    }

    /// A square on which a piece landed: the picture shows one that the position does not have there.
    pub fn landed(&self, seen: &[u8; 64], shown: u64) -> Option<u8>
        requires compared { IsCompared self.now seen.now }
        requires shown { IsShown shown seen.now }
        ensures some { IfSome result (HasLanded self.now.picture seen.now) }
        ensures none { IfNone result (OnlyLacks self.now.picture seen.now) }
    {
        landing(&self.picture, seen, self.mask, shown)
    }

    /// Whether the picture shows something else where a piece of the side to move stands.
    fn ours_lost(&self, seen: &[u8; 64]) -> bool
        requires { IsCompared self.now seen.now }
        ensures { IsTrue result ↔ Loses self.now.position seen.now self.now.position.side }
    {
        // For its clause: the position is valid.
        self.position.parts();
        meets(self.mask, self.ours)
    }

    /// Whether it does where one of the other side stands.
    pub fn theirs_lost(&self, seen: &[u8; 64]) -> bool
        requires { IsCompared self.now seen.now }
        ensures { IsTrue result ↔ Loses self.now.position seen.now (other_side self.now.position.side) }
    {
        // For its clause: the position is valid.
        self.position.parts();
        meets(self.mask, self.theirs)
    }

    /// Whether it shows no piece there.
    fn theirs_bared(&self, seen: &[u8; 64], shown: u64) -> bool
        requires compared { IsCompared self.now seen.now }
        requires shown { IsShown shown seen.now }
        ensures { IsTrue result ↔ Bares self.now.position seen.now (other_side self.now.position.side) }
    {
        // For its clause: the position is valid.
        self.position.parts();
        exceeds(self.theirs, shown)
    }

    /// Whether two plies from the position may give the picture.
    pub fn may_hide_two(&self, seen: &[u8; 64], shown: u64) -> bool
        requires compared { IsCompared self.now seen.now }
        requires shown { IsShown shown seen.now }
        ensures { IsTrue result ↔ MayHideTwo self.now.position seen.now }
    {
        self.ours_lost(seen) && self.theirs_bared(seen, shown)
    }

    /// Whether the picture settles this move in the position.
    #[inline(never)]
    fn settles(&self, seen: &[u8; 64], m: &Move) -> bool
        ensures { IsTrue result ↔ Settles self.now.position seen.now m.now }
    {
        // For its clause: the position is valid, and no other legal move gives the same picture.
        self.position.parts();
        pictures_tell_moves();
        self.position.is_legal(m.copy()) && self.position.play(m.copy()).picture() == *seen
    }

    /// Whether the piece that landed is not of the side to move: then the picture settles no move.
    fn is_reply(&self, seen: &[u8; 64], landed: u8) -> bool
        requires compared { IsCompared self.now seen.now }
        requires landed { HasLanded self.now.picture seen.now landed }
        ensures { IsTrue result → (m : MoveOf) → ¬ Settles self.now.position seen.now m }
    {
        let side = self.position.parts().side;
        !is_owned(side, seen[landed as usize])
    }

    /// The one move that the picture may settle in the position, if any.
    fn candidate(&self, seen: &[u8; 64], shown: u64) -> Option<Move>
        requires compared { IsCompared self.now seen.now }
        requires shown { IsShown shown seen.now }
        ensures { (m : MoveOf) → Settles self.now.position seen.now m → result ≡ Some m }
    {
        // For its clause: the position is valid.
        self.position.parts();
        candidate_among(&self.picture, seen, self.mask, shown)
    }

    /// The move that the picture settles in the position, if any: the one candidate is tested.
    pub fn settled(&self, seen: &[u8; 64], shown: u64) -> Option<Move>
        requires compared { IsCompared self.now seen.now }
        requires shown { IsShown shown seen.now }
        ensures some { IfSome result (Settles self.now.position seen.now) }
        ensures none { IfNone result ((m : MoveOf) → ¬ Settles self.now.position seen.now m) }
    {
        let Some(landed) = self.landed(seen, shown) else {
            // For its clause: the position is valid.
            self.position.parts();
            return None;
        };
        self.settled_by(seen, shown, landed)
    }

    /// The same, where it is known of a square that a piece landed there.
    pub fn settled_by(&self, seen: &[u8; 64], shown: u64, landed: u8) -> Option<Move>
        requires compared { IsCompared self.now seen.now }
        requires shown { IsShown shown seen.now }
        requires landed { HasLanded self.now.picture seen.now landed }
        ensures some { IfSome result (Settles self.now.position seen.now) }
        ensures none { IfNone result ((m : MoveOf) → ¬ Settles self.now.position seen.now m) }
    {
        if self.is_reply(seen, landed) {
            return None;
        }
        let m = self.candidate(seen, shown)?;
        if self.settles(seen, &m) {
            Some(m)
        } else {
            None
        }
    }

    /// The move that the picture settles in the position, if it is another than this one, which is not tested.
    pub fn settled_but(&self, seen: &[u8; 64], shown: u64, last: &Move) -> Option<Move>
        requires compared { IsCompared self.now seen.now }
        requires shown { IsShown shown seen.now }
        ensures some { IfSome result (λ m. Settles self.now.position seen.now m × m ≢ last.now) }
        ensures none { IfNone result ((m : MoveOf) → Settles self.now.position seen.now m → m ≡ last.now) }
    {
        let Some(landed) = self.landed(seen, shown) else {
            // For its clause: the position is valid.
            self.position.parts();
            return None;
        };
        if self.is_reply(seen, landed) {
            return None;
        }
        let m = self.candidate(seen, shown)?;
        if !same_move(&m, last) && self.settles(seen, &m) {
            Some(m)
        } else {
            None
        }
    }
}

/// Whether two moves are one.
pub fn same_move(a: &Move, b: &Move) -> bool
    ensures { IsTrue result ↔ (a.now ≡ b.now) }
{
    *a == *b
}
