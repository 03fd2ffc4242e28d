//! What `game_over` says to what is told of a game, kept.
ghost use Rattle.std.specs.Prelude.{◌≡◌, ◌∷◌, ◌<◌, ◌^◌, [], ℕ, List, OnOk, is_some};
ghost use Rattle.game_over.specs.declared.happened.Event.{Event as EventOf};
ghost use Rattle.game_over.specs.declared.happened.Happening.TheVariants.{Shows};
ghost use Rattle.game_over.specs.Over.{ended_by, passes};
ghost use Rattle.game_over.specs.Result.{has_come};
ghost use Rattle.board_endings.specs.Keeping.{HasJudged};
ghost use Rattle.board_endings.specs.Saying.{IsEnd, end_by, no_end, reopened as reopened_of};
ghost use Rattle.board_endings.specs.Telling.{happens, heard, listened, timed, with_ended, with_news, with_picture};

use crate::news::End;
use crate::picture::Told;
use game_over::{Ending, Event, Happening, Said, Shown};
use std::alloc::{AllocError, Global};

/// Takes off how the game is over, if an arbiter reopens it.
fn reopen(what: Happening, end: &mut End)
    ensures { end.new ≡ reopened_of what end.old }
{
    if let Happening::Reopens = what {
        end.over = None;
        end.goes_on = None;
    }
}

/// How the game stands once this was said to an event.
fn go_on(said: Said, event: &Event, end: &mut End)
    ensures { end.new ≡ end_by said event.now end.old }
{
    match said {
        Said::Nothing => reopen(event.what, end),
        Said::IsOver(over) => {
            end.over = Some(over);
            end.goes_on = None;
        }
        Said::BeginsNow => {
            end.begins = Some(event.bytes);
        }
        Said::GoesOn(count) => {
            end.goes_on = Some(count);
        }
    }
}

/// What was said of the end of a game.
#[derive(Drop)]
pub struct Judging {
    ending: Ending,
    end: End,
}

impl Judging {
    /// Nothing was told. Takes no memory.
    pub fn new(alloc: Global) -> Judging
        ensures { HasJudged result [] }
    {
        Judging {
            ending: Ending::new(alloc),
            end: End {
                over: None,
                goes_on: None,
                begins: None,
            },
        }
    }

    /// Tells what happens.
    #[inline(never)]
    pub fn take(&mut self, event: Event) -> Result<(), AllocError>
        ensures { (past : List EventOf) → HasJudged self.old past → OnOk result (HasJudged self.new (event ∷ past)) }
    {
        let said = self.ending.take(event)?;
        go_on(said, &event, &mut self.end);
        Ok(())
    }

    /// Time passes.
    fn pass(&mut self, at: u64, bytes: u64) -> Result<(), AllocError>
        ensures { (past : List EventOf) → HasJudged self.old past → OnOk result (HasJudged self.new (timed at bytes past)) }
    {
        match self.ending.over_at(at) {
            None => Ok(()),
            Some(_) => self.take(Event {
                at,
                bytes,
                what: Happening::Passes,
            }),
        }
    }

    /// The board is heard.
    fn hear(&mut self, at: u64, bytes: u64) -> Result<(), AllocError>
        ensures { (past : List EventOf) → HasJudged self.old past → OnOk result (HasJudged self.new (heard at bytes past)) }
    {
        if !self.ending.ends_heard(at) {
            return Ok(());
        }
        self.take(Event {
            at,
            bytes,
            what: Happening::Hears,
        })
    }

    /// Tells the time at which an event comes. The board is heard by it, or it was added by hand.
    pub fn listen(&mut self, at: u64, bytes: u64, is_added: bool) -> Result<(), AllocError>
        ensures { (past : List EventOf) → HasJudged self.old past → OnOk result (HasJudged self.new (listened is_added at bytes past)) }
    {
        self.pass(at, bytes)?;
        if is_added {
            return Ok(());
        }
        self.hear(at, bytes)
    }

    /// Tells the result, if it is told.
    fn take_ended(
        &mut self,
        at: u64,
        bytes: u64,
        ended: Option<Happening>,
    ) -> Result<(), AllocError>
        ensures { (past : List EventOf) → HasJudged self.old past → OnOk result (HasJudged self.new (with_ended at bytes ended past)) }
    {
        match ended {
            None => Ok(()),
            Some(what) => self.take(Event { at, bytes, what }),
        }
    }

    /// Tells a move or a correction; else that the board shows the game's position, or something else, which most pictures tell.
    fn take_game(&mut self, at: u64, bytes: u64, game: Happening) -> Result<(), AllocError>
        ensures { (past : List EventOf) → HasJudged self.old past → OnOk result (HasJudged self.new (happens at bytes game ∷ past)) }
    {
        match game {
            Happening::Agrees => {
                self.ending.agree(at);
                Ok(())
            }
            Happening::Differs => {
                self.ending.differ(at);
                Ok(())
            }
            _ => self.take(Event {
                at,
                bytes,
                what: game,
            }),
        }
    }

    /// Tells the picture.
    fn show(&mut self, at: u64, bytes: u64, shown: Shown) -> Result<(), AllocError>
        ensures { (past : List EventOf) → HasJudged self.old past → OnOk result (HasJudged self.new (happens at bytes (Shows shown) ∷ past)) }
    {
        if self.ending.show(at, shown) {
            return Ok(());
        }
        self.take(Event {
            at,
            bytes,
            what: Happening::Shows(shown),
        })
    }

    /// Tells what news tell, or that time has passed.
    pub fn take_news(
        &mut self,
        at: u64,
        bytes: u64,
        told: Option<Happening>,
    ) -> Result<(), AllocError>
        ensures { (past : List EventOf) → HasJudged self.old past → OnOk result (HasJudged self.new (with_news at bytes told past)) }
    {
        match told {
            None => self.pass(at, bytes),
            Some(what) => self.take(Event { at, bytes, what }),
        }
    }

    /// Tells what a picture tells that came then, with so many bytes.
    pub fn take_picture(&mut self, at: u64, bytes: u64, told: &Told) -> Result<(), AllocError>
        ensures { (past : List EventOf) → HasJudged self.old past → OnOk result (HasJudged self.new (with_picture at bytes told.now past)) }
    {
        self.take_game(at, bytes, told.game)?;
        self.take_ended(at, bytes, told.ended)?;
        self.show(at, bytes, told.shown)
    }

    /// How the game stands at this time, if nothing more is told.
    pub fn end(&self, now: u64) -> End
        ensures { (past : List EventOf) (bytes : ℕ) → HasJudged self.now past → IsEnd (timed now bytes past) result }
    {
        match self.ending.over_at(now) {
            None => self.end,
            Some(over) => End {
                over: Some(over),
                goes_on: None,
                ..self.end
            },
        }
    }

    /// When time alone ends the game, if nothing more is told.
    pub fn due(&self) -> Option<u64>
        ensures { (past : List EventOf) → HasJudged self.now past → (time bytes : ℕ) → time < 2 ^ 64
            → has_come time result ≡ is_some (ended_by (passes time bytes) past) }
    {
        self.ending.due()
    }
}
