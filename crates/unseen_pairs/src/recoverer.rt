//! The recoverer: it takes pictures, and keeps the line that they show, with the pairs that no picture showed ply by
//! ply.
ghost use Rattle.std.specs.Prelude.{◌≡◌, ◌<◌, ◌↔◌, ◌^◌, ℕ, List, [], ◌∷◌, All, IfOk, OnOk, IsTrue, true, slice_index, slice_set};
ghost use Rattle.chess_rules.specs.declared.parts.Parts.{Parts as PartsOf};
ghost use Rattle.settle_core.specs.Entries.{Entry, entry_of};
ghost use Rattle.settle_core.specs.Settler.{has_seen, position_of};
ghost use Rattle.unseen_pairs.specs.declared.confirming.Confirmed.{Confirmed as ConfirmedOf};
ghost use Rattle.unseen_pairs.specs.declared.pair.SeenOrRecovered.{SeenOrRecovered as SeenOrRecoveredOf};
ghost use Rattle.unseen_pairs.specs.Inside.Waiting.{IsOnlyOne};
ghost use Rattle.unseen_pairs.specs.Recoverer.{HasRecovered, HoldsOf, ReturnsTold, written_after};
ghost use Rattle.unseen_pairs.specs.Inside.Telling.{HasTold, IsWaiting};

use crate::confirming::{Candidate, Confirmed, only_one};
use crate::pair::{Recovery, SeenOrFound, SeenOrRecovered};
use crate::waiting::{add_all, copy, hides_none, keep_all};
use chess_clock::Reading;
use chess_rules::{Position, Square};
use settle_core::{Seen, Settler};
use std::alloc::{AllocError, Global};
use std::marker::Model;

/// Settles pictures as a settler does, and recovers pairs of plies of which no picture was whole.
#[derive(Drop)]
pub struct Recoverer {
    settler: Settler,
    candidates: Vec<Candidate>,
}

impl Model for Recoverer {
    ghost use Rattle.unseen_pairs.specs.Recoverer.{RecovererState};

    ghost Value = { RecovererState };

    ghost view = { λ r. record { settler = r.settler; candidates = r.candidates.items } };
}

/// Whether the mask has no square.
fn agrees(mask: u64) -> bool
    ensures none { IsTrue result ↔ (mask ≡ 0) }
    ensures fits { mask < 2 ^ 64 }
{
    mask == 0
}

impl Recoverer {
    /// A recoverer that has seen no picture. Takes no memory.
    pub fn new(alloc: Global, start: Position) -> Recoverer
        ensures { HasRecovered result start [] [] }
    {
        Recoverer {
            settler: Settler::new(alloc, start),
            candidates: Vec::new(alloc),
        }
    }

    /// Takes a picture, 64 codes of at most 15 by square number, with the clocks' reading at which it was seen.
    ///
    /// # Errors
    ///
    /// Where there was no memory; then it must not be used any more.
    pub fn see(
        &mut self,
        alloc: Global,
        picture: &[u8; 64],
        clock: Option<Reading>,
    ) -> Result<SeenOrRecovered, AllocError>
        requires { All (λ code. code < 16) picture.now }
        ensures stands { (start : PartsOf) (past written : List Entry) → HasRecovered self.old start past written
            → IfOk result (λ told. HasRecovered self.new start (entry_of picture.now clock ∷ past)
            (written_after (entry_of picture.now clock) told written)) }
        ensures answer { (start : PartsOf) (past written : List Entry) → HasRecovered self.old start past written
            → IfOk result (ReturnsTold start past picture.now) }
    {
        // For its clause: the start is valid.
        self.settler.start().parts();
        match self.settler.see(picture, copy(&clock))? {
            Seen::Same => Ok(SeenOrRecovered::Shown(Seen::Same)),
            Seen::Waits => self.wait(alloc, picture, &clock),
            seen => {
                self.candidates.clear();
                Ok(SeenOrRecovered::Shown(seen))
            }
        }
    }

    /// Takes a picture that is the last one but for this square; one must have been seen. Where it returns
    /// `SeenOrFound::Recovered`, the pair that the picture confirms is in `found`; else what `found` holds tells nothing.
    /// Changes one square, and one bit of each mask; most pictures that wait cost no more.
    ///
    /// # Errors
    ///
    /// As `see`.
    #[inline(always)]
    pub fn see_square(
        &mut self,
        alloc: Global,
        picture: &[u8; 64],
        square: Square,
        clock: Option<Reading>,
        found: &mut Option<Recovery>,
    ) -> Result<SeenOrFound, AllocError>
        requires seen { has_seen self.old.settler ≡ true }
        requires codes { All (λ code. code < 16) picture.now }
        ensures stands { (start : PartsOf) (before : Entry) (past written : List Entry)
            → HasRecovered self.old start (before ∷ past) written
            → picture.now ≡ slice_set before.picture square (slice_index picture.now square)
            → IfOk result (λ heard. HoldsOf (λ told. HasRecovered self.new start (entry_of picture.now clock ∷ before ∷ past)
            (written_after (entry_of picture.now clock) told written)) heard found.new) }
        ensures answer { (start : PartsOf) (before : Entry) (past written : List Entry)
            → HasRecovered self.old start (before ∷ past) written
            → picture.now ≡ slice_set before.picture square (slice_index picture.now square)
            → IfOk result (λ heard. HoldsOf (ReturnsTold start (before ∷ past) picture.now) heard found.new) }
    {
        // For its clause: the start is valid.
        self.settler.start().parts();
        let code = picture[square.number() as usize];
        match self.settler.see_field(square, code, copy(&clock))? {
            Seen::Same => Ok(SeenOrFound::Shown(Seen::Same)),
            Seen::Waits => {
                if self.idles() {
                    Ok(SeenOrFound::Shown(Seen::Waits))
                } else {
                    self.wait_for(alloc, picture, &clock, found)
                }
            }
            seen => {
                self.candidates.clear();
                Ok(SeenOrFound::Shown(seen))
            }
        }
    }

    /// Whether the last picture, which shows nothing by itself, confirms no pair, and none explains it.
    #[inline(always)]
    fn idles(&self) -> bool
        ensures { IsTrue result → (start : PartsOf) (past written : List Entry) (entry : Entry)
            → IsWaiting self.now start past written entry
            → HasTold self.now start past written entry (SeenOrRecoveredOf.Shown Seen.Waits) }
    {
        // For its clause: the start is valid.
        self.settler.start().parts();
        self.candidates.is_empty() && hides_none(&self.settler)
    }

    /// As `wait`, but a pair is put into `found`: apart, since few pictures come so far.
    #[inline(never)]
    fn wait_for(
        &mut self,
        alloc: Global,
        picture: &[u8; 64],
        clock: &Option<Reading>,
        found: &mut Option<Recovery>,
    ) -> Result<SeenOrFound, AllocError>
        requires { All (λ code. code < 16) picture.now }
        ensures { (start : PartsOf) (past written : List Entry) → IsWaiting self.old start past written (entry_of picture.now clock.now)
            → IfOk result (λ heard. HoldsOf (HasTold self.new start past written (entry_of picture.now clock.now)) heard found.new) }
    {
        if self.candidates.is_empty() {
            self.keep(alloc, picture, clock)?;
            return Ok(SeenOrFound::Shown(Seen::Waits));
        }
        self.wait_among(alloc, picture, clock, found)
    }

    /// As `wait_for`, where there are candidates: apart, since fewer pictures come so far.
    #[inline(never)]
    fn wait_among(
        &mut self,
        alloc: Global,
        picture: &[u8; 64],
        clock: &Option<Reading>,
        found: &mut Option<Recovery>,
    ) -> Result<SeenOrFound, AllocError>
        requires { All (λ code. code < 16) picture.now }
        ensures { (start : PartsOf) (past written : List Entry) → IsWaiting self.old start past written (entry_of picture.now clock.now)
            → IfOk result (λ heard. HoldsOf (HasTold self.new start past written (entry_of picture.now clock.now)) heard found.new) }
    {
        match self.wait(alloc, picture, clock)? {
            SeenOrRecovered::Shown(seen) => Ok(SeenOrFound::Shown(seen)),
            SeenOrRecovered::Recovered(recovery) => {
                *found = Some(recovery);
                Ok(SeenOrFound::Recovered)
            }
        }
    }

    /// The last picture shows nothing by itself: it may confirm a pair, or wait.
    fn wait(
        &mut self,
        alloc: Global,
        picture: &[u8; 64],
        clock: &Option<Reading>,
    ) -> Result<SeenOrRecovered, AllocError>
        requires { All (λ code. code < 16) picture.now }
        ensures { (start : PartsOf) (past written : List Entry) → IsWaiting self.old start past written (entry_of picture.now clock.now)
            → IfOk result (HasTold self.new start past written (entry_of picture.now clock.now)) }
    {
        let found = only_one(alloc, self.settler.position(), &self.candidates, picture)?;
        if let Some(one) = found {
            return self.put_in(&one, picture, clock);
        }
        self.keep(alloc, picture, clock)?;
        Ok(SeenOrRecovered::Shown(Seen::Waits))
    }

    /// Shows the settler what was not seen: the pictures after each of the pair's plies, and then the last one again.
    #[inline(never)]
    fn put_in(
        &mut self,
        one: &Confirmed,
        picture: &[u8; 64],
        clock: &Option<Reading>,
    ) -> Result<SeenOrRecovered, AllocError>
        requires { All (λ code. code < 16) picture.now }
        ensures { (start : PartsOf) (past written : List Entry) → IsWaiting self.old start past written (entry_of picture.now clock.now)
            → IsOnlyOne (position_of self.old.settler) self.old.candidates picture.now one.now
            → IfOk result (HasTold self.new start past written (entry_of picture.now clock.now)) }
    {
        // For its clause: the start is valid.
        self.settler.start().parts();
        let found = &one.candidate;
        self.settler
            .see(&found.middle.picture(), copy(&found.reading))?;
        self.settler
            .see(&found.after.picture(), copy(&found.reading))?;
        self.settler.see(picture, copy(clock))?;
        self.candidates.clear();
        Ok(SeenOrRecovered::Recovered(Recovery {
            pair: found.pair,
            before: found.before,
            middle: found.middle,
            after: found.after,
            reading: copy(&found.reading),
            sequel: one.sequel,
        }))
    }

    /// The last picture waits, unless it is that of the position.
    fn keep(
        &mut self,
        alloc: Global,
        picture: &[u8; 64],
        clock: &Option<Reading>,
    ) -> Result<(), AllocError>
        ensures { (start : PartsOf) (past written : List Entry) → IsWaiting self.old start past written (entry_of picture.now clock.now)
            → ((one : ConfirmedOf) → ¬ IsOnlyOne (position_of self.old.settler) self.old.candidates picture.now one)
            → OnOk result (HasTold self.new start past written (entry_of picture.now clock.now) (SeenOrRecovered.Shown Seen.Waits)) }
    {
        // For its clause: the start is valid.
        self.settler.start().parts();
        if agrees(self.settler.differs()) {
            self.candidates.clear();
            return Ok(());
        }
        keep_all(&mut self.candidates, self.settler.position(), picture);
        add_all(alloc, &mut self.candidates, &self.settler, picture, clock)?;
        Ok(())
    }

    /// The settler in it, which was given all pictures that were seen and all that were put in.
    pub fn settler(&self) -> &Settler
        ensures { result.now ≡ self.now.settler }
    {
        &self.settler
    }
}
