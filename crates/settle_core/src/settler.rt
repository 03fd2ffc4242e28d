//! The settler: it takes pictures, and keeps the line that they show.
ghost use Rattle.std.specs.Prelude.{◌≡◌, ◌<◌, ◌≤◌, ◌↔◌, ◌||◌, ◌∷◌, [], ℕ, List, All, IfOk, OnOk, OnErr, IfSome, IfNone, IsTrue, None, Some, true, false, is_ok, length, slice_set, reverse, drop};
ghost use Rattle.chess_rules.specs.declared.chess_move.Move.{Move as MoveOf};
ghost use Rattle.chess_rules.specs.declared.parts.Parts.{Parts as PartsOf};
ghost use Rattle.chess_rules.specs.Legal.{Legal};
ghost use Rattle.settle_core.specs.Entries.{Entry, entry_of, changed, deduplicated};
ghost use Rattle.chess_rules.specs.Picture.{picture};
ghost use Rattle.settle_core.specs.declared.plies.Ply.{Ply as PlyOf};
ghost use Rattle.chess_rules.specs.Board.{other};
ghost use Rattle.settle_core.specs.Lost.{Loses, MayHideTwo};
ghost use Rattle.settle_core.specs.Masks.{IsDiff};
ghost use Rattle.settle_core.specs.Settling.{Settles, Line, position_after, reached};
ghost use Rattle.settle_core.specs.Folding.{Folds, Replaces, SeenAs, moves_of, played, score_after, score_of, time_of as time_in};
ghost use Rattle.settle_core.specs.Settler.{HasSettled, ReturnsSeen, GivesMove, has_seen, plies_of, position_of};
ghost use Rattle.settle_core.specs.Inside.Kept.{CanReplace, IsComparedIn, IsLastSet, last_of, position_in};

use crate::compared::{Compared, shown_after};
use crate::masks::shown_in;
use crate::plies::{Outcome, Ply, Seen};
use crate::signs::sign_of;
use chess_clock::{Hms, Reading};
use chess_rules::{Move, Position, Side, Square};
use std::alloc::{AllocError, Global};
use std::marker::Model;

/// Settles pictures into a line of plies.
#[derive(Debug, Drop)]
pub struct Settler {
    start: Position,
    plies: Vec<Ply>,
    sign: Option<Outcome>,
    seen: bool,
    /// The last picture; an empty board before the first.
    picture: [u8; 64],
    /// The squares on which it shows pieces.
    shown: u64,
    here: Compared,
    before: Option<Compared>,
}

impl Model for Settler {
    ghost use Rattle.settle_core.specs.Settler.{SettlerState};
    ghost use Rattle.settle_core.specs.Inside.Kept.{IsKept, settler_state};
    ghost use Rattle.settle_core.specs.Folding.{moves_of};
    ghost use Rattle.std.specs.Prelude.{reverse};

    ghost Value = { SettlerState };

    ghost view = { λ s. settler_state s.start s.plies.items s.sign s.seen s.picture };

    ghost invariant = { λ s. IsKept s.start (moves_of (reverse s.plies.items)) s.here s.before s.picture s.shown };
}

/// The side's time in a reading.
fn time_of(side: Side, reading: Option<Reading>) -> Option<Hms>
    ensures { result ≡ time_in side reading }
{
    match (side, reading) {
        (Side::White, Some(reading)) => Some(reading.white),
        (Side::Black, Some(reading)) => Some(reading.black),
        (_, None) => None,
    }
}

/// The last ply becomes this one.
fn set_last(plies: &mut [Ply], ply: Ply)
    ensures { IsLastSet plies.old ply plies.new }
{
    let count = plies.len();
    if count > 0 {
        plies[count - 1] = ply;
    }
}

/// Compares the position, if there is one, with this picture.
fn compare_all(compared: &mut Option<Compared>, seen: &[u8; 64])
    ensures positions { position_in compared.new ≡ position_in compared.old }
    ensures compared { (old : List ℕ) → IsComparedIn compared.old old → IsComparedIn compared.new seen.now }
{
    if let Some(compared) = compared {
        compared.compare(seen);
    }
}

/// Compares the position, if there is one, with a picture that is the last one but for one square, which shows this
/// code.
fn change_all(compared: &mut Option<Compared>, at: u8, code: u8)
    requires { at < 64 }
    ensures positions { position_in compared.new ≡ position_in compared.old }
    ensures compared { (seen : List ℕ) → length seen ≡ 64 → IsComparedIn compared.old seen
        → IsComparedIn compared.new (slice_set seen at code) }
{
    if let Some(compared) = compared {
        compared.change(at, code);
    }
}

impl Settler {
    /// A settler that has seen no picture. Takes no memory.
    pub fn new(alloc: Global, start: Position) -> Settler
        ensures { HasSettled result start [] }
    {
        let picture = [0; 64];
        Settler {
            start,
            plies: Vec::new(alloc),
            sign: None,
            seen: false,
            picture,
            shown: shown_in(&picture),
            here: Compared::new(start, &picture),
            before: None,
        }
    }

    /// Takes a picture, 64 codes of at most 15 by square number, with the clocks' reading at which it was seen.
    ///
    /// # Errors
    ///
    /// Memory is taken only where a ply is appended; where there is none, nothing has changed.
    pub fn see(&mut self, picture: &[u8; 64], clock: Option<Reading>) -> Result<Seen, AllocError>
        requires { All (λ code. code < 16) picture.now }
        ensures stands { (start : PartsOf) (past : List Entry) → HasSettled self.old start past
            → OnOk result (HasSettled self.new start (entry_of picture.now clock ∷ past)) }
        ensures answer { (start : PartsOf) (past : List Entry) → HasSettled self.old start past
            → IfOk result (ReturnsSeen start past picture.now) }
        // An equal picture leaves the settler as it was.
        ensures same { self.old.last ≡ Some picture.now → (self.new ≡ self.old) × (result ≡ Ok Seen.Same) }
        ensures seen { has_seen self.new ≡ (has_seen self.old || is_ok result) }
        ensures err { OnErr result (self.new ≡ self.old) }
        ensures memory { (start : PartsOf) (past : List Entry) → HasSettled self.old start past
            → OnErr result (GivesMove start past picture.now) }
    {
        if self.is_last(picture) {
            return Ok(Seen::Same);
        }
        let seen = self.seen;
        let last = self.picture;
        self.keep(true, picture);
        match self.judge(clock) {
            Ok(answer) => Ok(answer),
            Err(error) => {
                self.keep(seen, &last);
                Err(error)
            }
        }
    }

    /// Takes the last picture with this code, at most 15, on this square; one must have been seen. Changes one square,
    /// and one bit of each mask.
    ///
    /// # Errors
    ///
    /// As `see`.
    #[inline(always)]
    pub fn see_field(
        &mut self,
        square: Square,
        code: u8,
        clock: Option<Reading>,
    ) -> Result<Seen, AllocError>
        requires seen { has_seen self.old ≡ true }
        requires code { code < 16 }
        ensures stands { (start : PartsOf) (before : Entry) (past : List Entry) → HasSettled self.old start (before ∷ past)
            → OnOk result (HasSettled self.new start (changed before square code clock ∷ before ∷ past)) }
        ensures answer { (start : PartsOf) (before : Entry) (past : List Entry) → HasSettled self.old start (before ∷ past)
            → IfOk result (ReturnsSeen start (before ∷ past) (slice_set before.picture square code)) }
        // A code that the square showed leaves the settler as it was.
        ensures same { (picture : List ℕ) → self.old.last ≡ Some picture → slice_set picture square code ≡ picture
            → (self.new ≡ self.old) × (result ≡ Ok Seen.Same) }
        ensures seen { has_seen self.new ≡ true }
        ensures err { OnErr result (self.new ≡ self.old) }
        ensures memory { (start : PartsOf) (before : Entry) (past : List Entry) → HasSettled self.old start (before ∷ past)
            → OnErr result (GivesMove start (before ∷ past) (slice_set before.picture square code)) }
    {
        let at = square.number();
        let last = self.picture[at as usize];
        if last == code {
            return Ok(Seen::Same);
        }
        self.change(at, code);
        match self.judge(clock) {
            Ok(answer) => Ok(answer),
            Err(error) => {
                self.change(at, last);
                Err(error)
            }
        }
    }

    /// Whether the picture is the last one that was seen.
    fn is_last(&self, picture: &[u8; 64]) -> bool
        ensures { IsTrue result ↔ (self.now.last ≡ Some picture.now) }
    {
        self.seen && self.picture == *picture
    }

    /// Keeps another last picture, or none.
    fn keep(&mut self, seen: bool, picture: &[u8; 64])
        ensures { self.new ≡ record self.old { last = last_of seen picture.now } }
    {
        self.seen = seen;
        self.picture = *picture;
        self.shown = shown_in(picture);
        self.here.compare(picture);
        compare_all(&mut self.before, picture);
    }

    /// The last picture shows this code on one square.
    fn change(&mut self, at: u8, code: u8)
        requires { at < 64 }
        ensures { (picture : List ℕ) → self.old.last ≡ Some picture
            → self.new ≡ record self.old { last = Some (slice_set picture at code) } }
    {
        self.picture[at as usize] = code;
        self.shown = shown_after(self.shown, at, code);
        self.here.change(at, code);
        change_all(&mut self.before, at, code);
    }

    /// What the last picture settles; the score is brought to it.
    #[inline(always)]
    fn judge(&mut self, clock: Option<Reading>) -> Result<Seen, AllocError>
        ensures ok { (picture : List ℕ) → self.old.last ≡ Some picture
            → IfOk result (λ seen. SeenAs self.old.start (moves_of self.old.score.plies) picture seen
            × (self.new ≡ record self.old { score = score_after self.old.start self.old.score clock seen })) }
        ensures err { OnErr result (self.new ≡ self.old) }
        ensures memory { (picture : List ℕ) → self.old.last ≡ Some picture
            → OnErr result ((m : MoveOf) × Settles (position_of self.old) picture m) }
    {
        let Some(landed) = self.here.landed(&self.picture, self.shown) else {
            // For its clause: the start is valid, and so is each position of the line.
            self.start.parts();
            return Ok(Seen::Waits);
        };
        if let Some(m) = self.here.settled_by(&self.picture, self.shown, landed) {
            self.add(m.copy(), clock)?;
            return Ok(Seen::Moved(m));
        }
        if let Some(outcome) = sign_of(&self.here, &self.picture) {
            self.sign = Some(outcome);
            return Ok(Seen::Sign(outcome));
        }
        if let Some(m) = self.instead() {
            self.replace(m.copy(), clock);
            return Ok(Seen::Replaced(m));
        }
        Ok(Seen::Waits)
    }

    /// Plays a move.
    fn add(&mut self, m: Move, clock: Option<Reading>) -> Result<(), AllocError>
        requires { Legal (position_of self.old) m }
        ensures ok { OnOk result (self.new ≡ record self.old { score = played self.old.start self.old.score.plies clock m }) }
        ensures err { OnErr result (self.new ≡ self.old) }
    {
        let ply = Ply {
            mv: m.copy(),
            clock: time_of(self.here.position.parts().side, clock),
        };
        self.plies.push(ply)?;
        let before = self.here;
        self.here = Compared::new(before.position.play(m), &self.picture);
        self.before = Some(before);
        self.sign = None;
        Ok(())
    }

    /// The move that the last picture settles in the place of the last one, if any.
    fn instead(&self) -> Option<Move>
        ensures some { (picture : List ℕ) → self.now.last ≡ Some picture
            → IfSome result (Replaces self.now.start (moves_of self.now.score.plies) picture) }
        ensures none { (picture : List ℕ) → self.now.last ≡ Some picture
            → IfNone result ((m : MoveOf) → ¬ Replaces self.now.start (moves_of self.now.score.plies) picture m) }
        ensures legal { IfSome result (CanReplace self.now.start (moves_of self.now.score.plies)) }
    {
        let Some(before) = &self.before else {
            return None;
        };
        let last = self.plies.last()?;
        before.settled_but(&self.picture, self.shown, &last.mv)
    }

    /// Plays a move in the place of the last one.
    fn replace(&mut self, m: Move, clock: Option<Reading>)
        requires { CanReplace self.old.start (moves_of self.old.score.plies) m }
        ensures { self.new ≡ record self.old { score = played self.old.start (drop 1 self.old.score.plies) clock m } }
    {
        let Some(before) = self.before else {
            unreachable!();
        };
        let ply = Ply {
            mv: m.copy(),
            clock: time_of(before.position.parts().side, clock),
        };
        set_last(&mut self.plies, ply);
        self.here = Compared::new(before.position.play(m), &self.picture);
        self.sign = None;
    }

    /// The plies so far, in their order. They are plies, though the name says moves: each is a move and its mover's
    /// time, if there was one.
    pub fn moves(&self) -> &[Ply]
        ensures plies { result.now ≡ plies_of self.now }
        // Each move is legal where it stands.
        ensures line { Line self.now.start (moves_of result.now) }
        ensures folds { (start : PartsOf) (past : List Entry) → HasSettled self.now start past
            → Folds start (deduplicated past) (score_of result.now self.now.score.sign) }
        // No entry gives more than one move.
        ensures count { (start : PartsOf) (past : List Entry) → HasSettled self.now start past → length result.now ≤ length past }
    {
        &self.plies
    }

    /// The position that the line starts in.
    pub fn start(&self) -> &Position
        ensures { result.now ≡ self.now.start }
    {
        &self.start
    }

    /// The position that the plies lead to.
    pub fn position(&self) -> &Position
        ensures reached { result.now ≡ position_of self.now }
        ensures in_order { result.now ≡ position_after self.now.start (moves_of (plies_of self.now)) }
    {
        &self.here.position
    }

    /// The last ply, and the position in which it was made.
    pub fn last_ply(&self) -> Option<(Position, Ply)>
        ensures last { (ply : PlyOf) (earlier : List PlyOf) → self.now.score.plies ≡ ply ∷ earlier
            → result ≡ Some (reached self.now.start (moves_of earlier), ply) }
        ensures none { self.now.score.plies ≡ [] → result ≡ None }
    {
        let Some(before) = &self.before else {
            return None;
        };
        let Some(ply) = self.plies.last() else {
            return None;
        };
        Some((before.position, *ply))
    }

    /// The squares on which the last picture differs from the position: bit n is square n.
    pub fn differs(&self) -> u64
        ensures { (seen : List ℕ) → self.now.last ≡ Some seen → IsDiff result (picture (position_of self.now)) seen }
    {
        self.here.mask
    }

    /// Whether the last picture shows something else where a piece of the side that is not to move stands in the
    /// position.
    pub fn theirs_lost(&self) -> bool
        ensures { (seen : List ℕ) → self.now.last ≡ Some seen
            → IsTrue result ↔ Loses (position_of self.now) seen (other (position_of self.now).side) }
    {
        self.here.theirs_lost(&self.picture)
    }

    /// Whether two plies from the position may give the last picture: the side to move has left a square, and the other
    /// side one that is bare.
    pub fn may_hide_two(&self) -> bool
        ensures { (seen : List ℕ) → self.now.last ≡ Some seen → IsTrue result ↔ MayHideTwo (position_of self.now) seen }
    {
        self.here.may_hide_two(&self.picture, self.shown)
    }

    /// The same of the position before the last ply; false where no ply was made.
    pub fn may_hide_two_before(&self) -> bool
        ensures last { (seen : List ℕ) (ply : PlyOf) (earlier : List PlyOf) → self.now.last ≡ Some seen
            → self.now.score.plies ≡ ply ∷ earlier
            → IsTrue result ↔ MayHideTwo (reached self.now.start (moves_of earlier)) seen }
        ensures none { self.now.score.plies ≡ [] → result ≡ false }
    {
        let Some(before) = &self.before else {
            return false;
        };
        before.may_hide_two(&self.picture, self.shown)
    }

    /// The result whose sign was seen, if no move was made or corrected after it.
    pub fn sign(&self) -> Option<Outcome>
        ensures { result ≡ self.now.score.sign }
    {
        self.sign
    }

    /// The start, the plies in their order, and the sign.
    pub fn into_parts(self) -> (Position, Vec<Ply>, Option<Outcome>)
        ensures start { result.0 ≡ self.start }
        ensures plies { result.1.items ≡ plies_of self }
        ensures sign { result.2 ≡ self.score.sign }
        ensures line { Line self.start (moves_of result.1.items) }
        ensures folds { (start : PartsOf) (past : List Entry) → HasSettled self start past
            → Folds start (deduplicated past) (score_of result.1.items result.2) }
        ensures count { (start : PartsOf) (past : List Entry) → HasSettled self start past → length result.1.items ≤ length past }
    {
        (self.start, self.plies, self.sign)
    }
}
