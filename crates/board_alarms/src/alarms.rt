//! The alarms of a game that are open.
ghost use Rattle.std.specs.Prelude.{◌≡◌, ◌∷◌, [], List, OnOk};
ghost use Rattle.board_events.specs.Session.{HasTakenEvents};
ghost use Rattle.board_events.specs.Settings.{Setting};
ghost use Rattle.board_alarms.specs.declared.look.Told.{Told as ToldOf};
ghost use Rattle.board_alarms.specs.Hearing.{AreOpen, ClockIsStopped, HasMoved, HasResult, IsShown, last_shown, moves, shown_at, with_news};
ghost use Rattle.board_alarms.specs.Items.{Item, Noted, Sent, events_of};
ghost use Rattle.board_alarms.specs.Keeping.{LooksStandFor, StandsFor};

use crate::chunk::{Chunk, When};
use crate::course::Course;
use crate::event_heard::{tell, tell_clock, tell_gap, tell_picture, tell_plies, tell_result};
use crate::line::Line;
use crate::look::{Look, Told};
use crate::looks::Looks;
use crate::news::{News, Sight};
use board_doubts::Heard;
use board_events::Session;
use chess_clock::Reading;
use chess_game::result_at;
use chess_rules::Position;
use dgt_frame::Event;
use settle_core::Outcome;
use std::alloc::{AllocError, Global};

/// Tells news. The game has so many plies, and the board shows their position, or not.
fn tell_news(
    looks: &mut Looks,
    at: u64,
    plies: u64,
    stands: bool,
    news: News,
) -> Result<(), AllocError>
    ensures { (told : List ToldOf) → LooksStandFor looks.old told → OnOk result (LooksStandFor looks.new (with_news at plies stands news told)) }
{
    let when = When {
        at,
        is_added: false,
    };
    match news {
        News::Gone | News::Begins => Ok(()),
        News::PutsIn => tell(looks, when, plies, Some(Heard::PutsIn)),
        News::Looked => tell(looks, when, plies, Some(Heard::Looked)),
        News::PutsBack => {
            let what = if stands { None } else { Some(Heard::PutsBack) };
            tell(looks, when, plies, what)
        }
        News::Suspects(n) => looks.take(Told::Suspects(n)),
    }
}

/// Keeps the last picture, if the event shows it.
fn show(last: &mut Option<[u8; 64]>, sight: Sight, picture: &[u8; 64])
    ensures { last.new ≡ last_shown (shown_at sight picture.now) last.old }
{
    match sight {
        Sight::Nothing => {}
        Sight::Again => *last = Some(*picture),
        Sight::Another => *last = Some(*picture),
        Sight::Moves => *last = Some(*picture),
    }
}

/// Keeps the alarms of a game until somebody has looked.
#[derive(Drop)]
pub struct Alarms {
    looks: Looks,
    course: Course,
    line: Line,
    /// The last picture.
    shown: Option<[u8; 64]>,
    result: Option<Outcome>,
    reading: Option<Reading>,
    /// Where the clock's lever is.
    lever: Option<bool>,
}

impl Alarms {
    /// Nothing came of a game that begins with this position. Takes no memory.
    pub fn new(alloc: Global, start: &Position) -> Alarms
        ensures { (setting : Setting) → setting.start ≡ start.now → StandsFor result setting [] }
    {
        // For its clause: the position is valid.
        start.parts();
        Alarms {
            looks: Looks::new(alloc),
            course: Course::new(start),
            line: Line::new(),
            shown: None,
            result: result_at(start, None),
            reading: None,
            lever: None,
        }
    }

    /// Takes an event that these bytes have brought. The session has taken it already. With it the board's last picture is this one, and the
    /// game has this result.
    ///
    /// # Errors
    ///
    /// Where there is no memory for an alarm. Then nothing more may be taken.
    pub fn take(
        &mut self,
        chunk: Chunk,
        event: &Event,
        sight: Sight,
        picture: &[u8; 64],
        session: &Session,
        outcome: Option<Outcome>,
    ) -> Result<(), AllocError>
        ensures { (setting : Setting) (items : List Item) → StandsFor self.old setting items → IsShown setting (events_of items) event.now (shown_at sight picture.now)
            → HasMoved setting (events_of items) event.now (moves sight)
            → HasTakenEvents session.now setting (event.now ∷ events_of items) → HasResult setting.start session.now.settler.score outcome
            → OnOk result (StandsFor self.new setting (Sent chunk event.now ∷ items)) }
    {
        let when = chunk.when;
        let settler = session.settler();
        let gap = self.line.gap_before(chunk);
        tell_gap(&mut self.looks, when, self.course.count, gap)?;
        tell_picture(&mut self.looks, when, &self.course, sight, picture)?;
        tell_plies(
            &mut self.looks,
            when,
            &mut self.course,
            settler,
            sight,
            picture,
        )?;
        let plies = self.course.count;
        tell_result(&mut self.looks, when, plies, self.result, outcome)?;
        self.line.hear(chunk);
        show(&mut self.shown, sight, picture);
        self.result = outcome;
        tell_clock(
            &mut self.looks,
            chunk,
            plies,
            event,
            session,
            &mut self.reading,
            &mut self.lever,
        )
    }

    /// Takes news.
    ///
    /// # Errors
    ///
    /// As `take`.
    pub fn note(&mut self, at: u64, news: News) -> Result<(), AllocError>
        ensures { (setting : Setting) (items : List Item) → StandsFor self.old setting items → OnOk result (StandsFor self.new setting (Noted at news ∷ items)) }
    {
        let stands = self.course.stands(&self.shown);
        tell_news(&mut self.looks, at, self.course.count, stands, news)?;
        self.line.note(at, news);
        Ok(())
    }

    /// Whether the clock has run, and stood when it spoke last.
    pub fn is_clock_stopped(&self) -> bool
        ensures { (setting : Setting) (items : List Item) → StandsFor self.now setting items → ClockIsStopped setting items result }
    {
        self.looks.is_clock_stopped()
    }

    /// The alarms that are open, in the order in which they came.
    pub fn open(&self) -> &[Look]
        ensures { (setting : Setting) (items : List Item) → StandsFor self.now setting items → AreOpen setting items result.now }
    {
        self.looks.alarms()
    }
}
