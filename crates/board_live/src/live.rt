//! The machine: it takes what happens at a board, and says what it comes to.
ghost use Rattle.std.specs.Prelude.{◌≡◌, ◌<◌, ◌^◌, ◌∷◌, [], ◌++◌, ℕ, Bool, List, IfOk, IfSome, OnOk};
ghost use Rattle.board_cable.specs.Pace.{AsksAlike};
ghost use Rattle.board_cable.specs.Silence.{is_silent};
ghost use Rattle.board_cable.specs.Whose.{HandledAlike, own_number};
ghost use Rattle.board_cable.specs.Keeping.{aside, kept};
ghost use Rattle.board_cable.specs.Turns.{Told, Turn, told};
ghost use Rattle.board_captures.specs.Reading.{setting_of};
ghost use Rattle.board_events.specs.Settings.{Setting};
ghost use Rattle.board_game.specs.Ending.{IsEndOf};
ghost use Rattle.board_game.specs.Games.{StandsFor as GameStands};
ghost use Rattle.board_game.specs.Report.{IsReport, first_line};
ghost use Rattle.board_live.specs.Coming.{came};
ghost use Rattle.square_runs.specs.Lasting.{earlier};
ghost use Rattle.board_live.specs.Due.{IsDue, MayChange, StaysAlike};
ghost use Rattle.board_live.specs.Ending.{EndStays};
ghost use Rattle.board_game.specs.Alarming.{AlarmsAre};
ghost use Rattle.board_live.specs.Live.{Answers, HasBegun, StandsFor, clock_news as clock_news_of, is_change as is_change_of, unsaid as unsaid_of};
ghost use Rattle.board_live.specs.Moments.{Moment, cabled, moment_of};
ghost use Rattle.board_live.specs.Saying.{IsRead};

use crate::attending::Attending;
use crate::ending::end_said;
use crate::happened::{Happened, begins};
use crate::hearing::hear;
use crate::saying::{Saying, without_other};
use board_alarms::Look;
use board_cable::{Handling, Request};
use board_captures::Method;
use board_endings::End;
use board_game::Game;
use board_game::laws::end_stays_until_due;
use board_standing::State;
use board_standing::laws::stays_until_due;
use std::alloc::{AllocError, Global};

/// A board that is recorded.
#[derive(Drop)]
pub struct Live {
    attending: Attending,
    game: Game,
    saying: Saying,
    /// When something happened last.
    at: u64,
}

/// What is answered to what happens.
#[derive(Clone, Copy)]
pub struct Answer {
    /// What is done with what the board has sent. If it is kept, `Live::kept` has what the capture gets now.
    pub handling: Handling,
    /// The serial number of the game's board, if it is news, and the host has not told it.
    pub number: Option<[u8; 5]>,
    /// What the board is sent now. It counts as sent.
    pub request: Option<Request>,
    /// So many of the open alarms, the first ones, aren't to be said now: they were said, or this call hasn't begun. Those behind
    /// them are news; when a call begins all are.
    pub unsaid: usize,
    /// Whether the clock has run and stood when it spoke last, if that is to be said: when a call begins, if it did; and then whenever it is
    /// news.
    pub is_clock_stopped: Option<bool>,
    /// How the board stands, if that is to be said: first when a call begins, and then whenever it is news.
    pub state: Option<State>,
    /// What is to be said of the game's end: all when a call begins, and then what is news.
    pub end: End,
    /// Whether the capture had room for all bytes.
    pub is_whole: bool,
}

/// The sooner of two times.
fn sooner(one: Option<u64>, other: Option<u64>) -> Option<u64>
    ensures { result ≡ earlier one other }
{
    match (one, other) {
        (None, other) => other,
        (Some(one), None) => Some(one),
        (Some(one), Some(other)) => Some(one.min(other)),
    }
}

/// How many of the open alarms aren't to be said.
fn unsaid(is_live: bool, begins: bool, before: usize, now: usize) -> usize
    ensures { result ≡ unsaid_of is_live begins before now }
{
    if !is_live {
        return now;
    }
    if begins { 0 } else { before }
}

/// Whether one of these holds, and the other doesn't.
fn is_change(one: bool, other: bool) -> bool
    ensures { result ≡ is_change_of one other }
{
    if one { !other } else { other }
}

/// What is said of the clock, if it was stopped before or not, and is now or not.
fn clock_news(is_live: bool, begins: bool, before: bool, now: bool) -> Option<bool>
    ensures { result ≡ clock_news_of is_live begins before now }
{
    let said = if begins { false } else { before };
    let is_news = is_change(said, now);
    if is_live && is_news { Some(now) } else { None }
}

/// For its clause: a mask has 64 bits.
fn count_bits(squares: u64)
    ensures { squares < 2 ^ 64 }
{}

/// For its clause: so has a time.
fn count_time(time: Option<u64>)
    ensures { IfSome time (λ t. t < 2 ^ 64) }
{}

impl Live {
    /// Nothing has happened. Takes no memory.
    pub fn new(alloc: Global, method: &Method) -> Live
        ensures stands { StandsFor result (setting_of method.now) method.now.recovers [] (first_line (setting_of method.now)) }
        ensures begun { HasBegun result }
    {
        let attending = Attending::new(alloc);
        let game = Game::new(alloc, method);
        let saying = Saying::new();
        Live {
            attending,
            game,
            saying,
            at: 0,
        }
    }

    /// Takes what happens, with its bytes: those that the board has sent, that were added, or that were kept in a call before.
    /// Appends the lines of the report to `lines`.
    ///
    /// # Errors
    ///
    /// Where there is no memory. Then nothing more may be taken.
    pub fn take(
        &mut self,
        happened: Happened,
        bytes: &[u8],
        lines: &mut Vec<u8>,
    ) -> Result<Answer, AllocError>
        requires begun { HasBegun self.old }
        ensures stands { (setting : Setting) (recovers : Bool) (past : List Moment) (text : List ℕ) → StandsFor self.old setting recovers past text
            → OnOk result ((more : List ℕ) × (lines.new.items ≡ lines.old.items ++ more)
            × StandsFor self.new setting recovers (moment_of happened bytes.now ∷ past) (text ++ more)) }
        ensures answers { (setting : Setting) (recovers : Bool) (past : List Moment) (text : List ℕ) (turn : Turn) (turns : List Turn)
            → StandsFor self.old setting recovers past text → Told (cabled (moment_of happened bytes.now ∷ past)) (turn ∷ turns)
            → IfOk result (Answers setting recovers (moment_of happened bytes.now) past turn turns) }
        ensures begun { OnOk result (HasBegun self.new) }
    {
        let comes = self.attending.take(happened, bytes)?;
        let before = self.game.alarms().len();
        let was_stopped = self.game.is_clock_stopped();
        let before_end = self.game.end(self.at);
        let is_whole = hear(
            &mut self.game,
            happened,
            bytes,
            self.attending.kept(),
            comes.silence,
            lines,
        )?;
        let is_own = self.attending.cable.is_own();
        let stands = self.game.state(happened.at);
        let now = without_other(is_own, stands);
        // For its clause: a mask has 64 bits.
        count_bits(now.squares);
        let state = self.saying.say(happened.what, now);
        let unsaid = unsaid(
            self.saying.is_live,
            begins(happened.what),
            before,
            self.game.alarms().len(),
        );
        let is_clock_stopped = clock_news(
            self.saying.is_live,
            begins(happened.what),
            was_stopped,
            self.game.is_clock_stopped(),
        );
        let now_end = self.game.end(happened.at);
        let end = end_said(
            self.saying.is_live,
            begins(happened.what),
            before_end,
            now_end,
        );
        self.at = happened.at;
        Ok(Answer {
            handling: comes.handling,
            number: comes.number,
            request: comes.request,
            unsaid,
            is_clock_stopped,
            state,
            end,
            is_whole,
        })
    }

    /// What the capture gets now of what the board has sent. It is there until more happens.
    pub fn kept(&self) -> &[u8]
        ensures { (setting : Setting) (recovers : Bool) (past : List Moment) (text : List ℕ) (turns : List Turn)
            → StandsFor self.now setting recovers past text → Told (cabled past) turns → result.now ≡ kept turns }
    {
        self.attending.kept()
    }

    /// The alarms that are open, in the order in which they came.
    pub fn alarms(&self) -> &[Look]
        ensures { (setting : Setting) (recovers : Bool) (past : List Moment) (text : List ℕ) (turns : List Turn)
            → StandsFor self.now setting recovers past text → Told (cabled past) turns → AlarmsAre setting recovers (came past turns) result.now }
    {
        self.game.alarms()
    }

    /// How the board stands at this time, which is none before the last at which something happened. If the board on the cable has sent
    /// the number that was known when the line was opened, there is no hint that it may be another one.
    pub fn state(&self, now: u64) -> State
        ensures { (setting : Setting) (recovers : Bool) (past : List Moment) (text : List ℕ) (turns : List Turn)
            → StandsFor self.now setting recovers past text → Told (cabled past) turns → IsRead setting recovers past turns now result }
    {
        let is_own = self.attending.cable.is_own();
        let stands = self.game.state(now);
        without_other(is_own, stands)
    }

    /// When to wake, if nothing happens: none of what is said here changes before, and then some of it may. None: never. From a valid
    /// start it follows from what has happened (`wakes_once`).
    pub fn due(&self, now: u64) -> Option<u64>
        ensures asks { (setting : Setting) (recovers : Bool) (past : List Moment) (text : List ℕ) (turns : List Turn)
            → StandsFor self.now setting recovers past text → Told (cabled past) turns → AsksAlike now (told turns) result }
        ensures handling { (setting : Setting) (recovers : Bool) (past : List Moment) (text : List ℕ) (turns : List Turn)
            → StandsFor self.now setting recovers past text → Told (cabled past) turns → HandledAlike now (told turns) result }
        ensures state { (setting : Setting) (recovers : Bool) (past : List Moment) (text : List ℕ) (turns : List Turn)
            → StandsFor self.now setting recovers past text → Told (cabled past) turns → StaysAlike setting recovers (came past turns) now result }
        ensures end { (setting : Setting) (recovers : Bool) (past : List Moment) (text : List ℕ) (turns : List Turn)
            → StandsFor self.now setting recovers past text → Told (cabled past) turns → EndStays setting recovers (came past turns) now result }
        ensures changes { (setting : Setting) (recovers : Bool) (past : List Moment) (text : List ℕ) (turns : List Turn)
            → StandsFor self.now setting recovers past text → Told (cabled past) turns
            → IfSome result (λ due. MayChange setting recovers (came past turns) (told turns) now due) }
        ensures wakes { (setting : Setting) (recovers : Bool) (past : List Moment) (text : List ℕ) (turns : List Turn)
            → StandsFor self.now setting recovers past text → Told (cabled past) turns → IsDue setting recovers (came past turns) (told turns) now result }
    {
        // For its clause: if nothing is heard, the state stays until it is due.
        stays_until_due();
        // For its clause: the game stands as it does until time is due to end it.
        end_stays_until_due();
        let cable = self.attending.cable.due(now);
        // For its clause: a time has 64 bits.
        count_time(cable);
        let game = self.game.due(now);
        let end = self.game.ends_at(now);
        let known = sooner(cable, game);
        sooner(known, end)
    }

    /// How the game stands with its end at this time, which is none before the last at which something happened.
    pub fn end(&self, now: u64) -> End
        ensures { (setting : Setting) (recovers : Bool) (past : List Moment) (text : List ℕ) (turns : List Turn)
            → StandsFor self.now setting recovers past text → Told (cabled past) turns → IsEndOf setting recovers (came past turns) now result }
    {
        self.game.end(now)
    }

    /// Whether the board sends no dump, though it was asked for 5 s.
    pub fn is_silent(&self) -> bool
        ensures { (setting : Setting) (recovers : Bool) (past : List Moment) (text : List ℕ) (turns : List Turn)
            → StandsFor self.now setting recovers past text → Told (cabled past) turns → result ≡ is_silent (told turns) }
    {
        self.attending.cable.is_silent()
    }

    /// The serial number of the game's board, if it is known.
    pub fn serial(&self) -> Option<[u8; 5]>
        ensures { (setting : Setting) (recovers : Bool) (past : List Moment) (text : List ℕ) (turns : List Turn)
            → StandsFor self.now setting recovers past text → Told (cabled past) turns → result ≡ own_number (told turns) }
    {
        self.attending.cable.serial()
    }

    /// What is kept aside of another board, until the arbiter takes that board or another game takes what it has sent.
    pub fn aside(&self) -> &[u8]
        ensures { (setting : Setting) (recovers : Bool) (past : List Moment) (text : List ℕ) (turns : List Turn)
            → StandsFor self.now setting recovers past text → Told (cabled past) turns → result.now ≡ aside turns }
    {
        self.attending.cable.aside()
    }

    /// The board's game.
    pub fn game(&self) -> &Game
        ensures same { result.now ≡ self.now.game }
        ensures stands { (setting : Setting) (recovers : Bool) (past : List Moment) (text : List ℕ) (turns : List Turn)
            → StandsFor self.now setting recovers past text → Told (cabled past) turns → GameStands result.now setting recovers (came past turns) text }
    {
        &self.game
    }

    /// For its clause: what was appended so far is the report of what came to the game, behind its first line.
    pub fn conclude(&self)
        ensures { (setting : Setting) (recovers : Bool) (past : List Moment) (text : List ℕ) (turns : List Turn)
            → StandsFor self.now setting recovers past text → Told (cabled past) turns → IsReport setting recovers (came past turns) text }
    {
        self.game.conclude();
    }
}
