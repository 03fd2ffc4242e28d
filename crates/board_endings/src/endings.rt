//! The events of a board, and news of its game, to how the game is over.
ghost use Rattle.std.specs.Prelude.{◌≡◌, ◌∷◌, ◌<◌, ◌^◌, [], ℕ, List, IfSome, OnOk, is_some};
ghost use Rattle.dgt_frame.specs.declared.events.Event.{Event as EventOf};
ghost use Rattle.board_events.specs.Session.{HasTakenEvents};
ghost use Rattle.board_events.specs.Settings.{Setting};
ghost use Rattle.board_alarms.specs.Hearing.{HasMoved, HasResult, is_another, moves};
ghost use Rattle.game_over.specs.Result.{has_come as has_come_of};
ghost use Rattle.board_endings.specs.Items.{Item, Noted, Sent, events_of};
ghost use Rattle.board_endings.specs.Keeping.{IsShown, StandsFor};
ghost use Rattle.board_endings.specs.Saying.{IsDueAt, IsEndAt};
ghost use Rattle.board_endings.specs.Telling.{happening_of};

use crate::course::Course;
use crate::judging::Judging;
use crate::news::{End, News};
use crate::picture::told_of;
use board_alarms::{Sight, When};
use board_events::Session;
use chess_game::result_at;
use chess_rules::Position;
use game_over::Happening;
use settle_core::Outcome;
use std::alloc::{AllocError, Global};

/// What news are to a game, if they are more than that time has passed.
fn happening(news: News) -> Option<Happening>
    ensures { result ≡ happening_of news }
{
    match news {
        News::Begins => Some(Happening::Resumes),
        News::GoesBack => Some(Happening::GoesBack),
        News::Reopens => Some(Happening::Reopens),
        News::Passes => None,
    }
}

/// Whether a time has come, if there is one. A time has 64 bits.
fn has_come(now: u64, time: Option<u64>) -> bool
    ensures come { result ≡ has_come_of now time }
    ensures fits { IfSome time (λ t. t < 2 ^ 64) }
{
    match time {
        None => false,
        Some(time) => time <= now,
    }
}

/// Takes what comes of a game, and says how it is over.
#[derive(Drop)]
pub struct Endings {
    judging: Judging,
    course: Course,
    result: Option<Outcome>,
    /// So many bytes the capture has with the last event.
    bytes: u64,
}

impl Endings {
    /// Nothing came of a game that begins with this position. Takes no memory.
    pub fn new(alloc: Global, start: &Position) -> Endings
        ensures { (setting : Setting) → setting.start ≡ start.now → StandsFor result setting [] }
    {
        // For its clause: the position is valid.
        start.parts();
        Endings {
            judging: Judging::new(alloc),
            course: Course::new(start),
            result: result_at(start, None),
            bytes: 0,
        }
    }

    /// Takes an event, with which the capture has so many bytes. If this shows another picture than the one before it, then this is
    /// that picture. The session has taken it already, and the game has this result with it.
    ///
    /// # Errors
    ///
    /// Where there is no memory for a move. Then nothing more may be taken.
    pub fn take(
        &mut self,
        when: When,
        bytes: u64,
        sight: Sight,
        picture: &[u8; 64],
        session: &Session,
        outcome: Option<Outcome>,
    ) -> Result<(), AllocError>
        ensures { (setting : Setting) (items : List Item) (event : EventOf) → StandsFor self.old setting items
            → IsShown setting (events_of items) event (is_another sight) picture.now → HasMoved setting (events_of items) event (moves sight)
            → HasTakenEvents session.now setting (event ∷ events_of items)
            → HasResult setting.start session.now.settler.score outcome
            → OnOk result (StandsFor self.new setting (Sent when.at when.is_added bytes event ∷ items)) }
    {
        self.bytes = bytes;
        self.judging.listen(when.at, bytes, when.is_added)?;
        if !sight.is_another() {
            return Ok(());
        }
        let settler = session.settler();
        let moved = self.course.go_on(sight.moves(), when.is_added, settler);
        let differs = settler.differs();
        let told = told_of(
            &self.course,
            when.is_added,
            moved,
            differs,
            picture,
            self.result,
            outcome,
        );
        self.result = outcome;
        self.judging.take_picture(when.at, bytes, &told)
    }

    /// Takes news.
    ///
    /// # Errors
    ///
    /// As `take`.
    pub fn note(&mut self, at: u64, news: News) -> Result<(), AllocError>
        ensures { (setting : Setting) (items : List Item) → StandsFor self.old setting items → OnOk result (StandsFor self.new setting (Noted at news ∷ items)) }
    {
        self.judging.take_news(at, self.bytes, happening(news))
    }

    /// How the game stands with its end at this time, which is none before the last at which something came.
    pub fn end(&self, now: u64) -> End
        ensures { (setting : Setting) (items : List Item) → StandsFor self.now setting items → IsEndAt setting items now result }
    {
        self.judging.end(now)
    }

    /// When time alone ends the game, if nothing comes before. None: never, or it has by now.
    pub fn due(&self, now: u64) -> Option<u64>
        ensures { (setting : Setting) (items : List Item) → StandsFor self.now setting items → IsDueAt setting items now result }
    {
        let due = self.judging.due();
        if has_come(now, due) { None } else { due }
    }
}
