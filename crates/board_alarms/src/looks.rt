//! The alarms that are open.
ghost use Rattle.std.specs.Prelude.{◌≡◌, ◌∷◌, ◌++◌, [], List, OnOk, if◌then◌else◌};
ghost use Rattle.board_doubts.specs.declared.heard.Event.{Event as EventOf};
ghost use Rattle.board_doubts.specs.declared.heard.Heard.TheVariants.{Agrees, Shows};
ghost use Rattle.board_alarms.specs.declared.look.Told.{Told as ToldOf};
ghost use Rattle.board_doubts.specs.Clock.{has_stopped};
ghost use Rattle.board_doubts.specs.Unplayed.{unplayed as unplayed_of_past, unplayed_by};
ghost use Rattle.board_alarms.specs.Keeping.{LooksStandFor};
ghost use Rattle.board_alarms.specs.Looks.{alarms, doubtful, heard, is_looked, listed, stopped, unplayed as unplayed_look};

use crate::look::{Look, Told};
use board_doubts::{
    AfterWrong, Doubt, Doubts, Event, Heard, Seen, StoppedClock, Tried, first_of, some_moves,
};
use std::alloc::{AllocError, Global};

/// Whether somebody has looked.
fn is_looked(what: Heard) -> bool
    ensures { result ≡ is_looked what }
{
    matches!(what, Heard::Looked)
}

fn doubtful(plies: u64, doubt: Option<Doubt>) -> Option<Look>
    ensures { result ≡ doubtful plies doubt }
{
    match doubt {
        None => None,
        Some(doubt) => Some(Look::Doubtful { plies, doubt }),
    }
}

fn stopped(plies: u64, tried: Option<Tried>) -> Option<Look>
    ensures { result ≡ stopped plies tried }
{
    match tried {
        None => None,
        Some(tried) => Some(Look::Stopped {
            plies: plies.saturating_sub(tried.plies),
            moves: tried.moves,
        }),
    }
}

fn unplayed(plies: u64, moves: Option<Tried>) -> Option<Look>
    ensures { result ≡ unplayed_look plies moves }
{
    match moves {
        None => None,
        Some(moves) => Some(Look::Unplayed {
            plies: plies.saturating_sub(moves.plies),
            moves: moves.moves,
        }),
    }
}

/// What is named when this is heard, if nobody may have played these moves.
fn named(what: Heard, moves: Option<Tried>) -> Option<Tried>
    ensures { (past : List EventOf) → moves ≡ unplayed_of_past past → result ≡ unplayed_by what past }
{
    match what {
        Heard::Ends => moves,
        _ => None,
    }
}

/// Adds an alarm, if there is one.
fn add(looks: &mut Vec<Look>, look: Option<Look>) -> Result<(), AllocError>
    ensures { OnOk result (looks.new.items ≡ looks.old.items ++ listed look) }
{
    match look {
        None => Ok(()),
        Some(look) => Ok(looks.push(look)?),
    }
}

/// Forgets the alarms if somebody has looked.
fn forget(looks: &mut Vec<Look>, what: Heard)
    ensures { looks.new.items ≡ (if is_looked what then [] else looks.old.items) }
{
    if is_looked(what) {
        looks.clear();
    }
}

/// Keeps the alarms of a game until somebody has looked.
#[derive(Drop)]
pub struct Looks {
    doubts: Doubts,
    clock: StoppedClock,
    after_wrong: AfterWrong,
    /// In the order in which they came.
    alarms: Vec<Look>,
}

impl Looks {
    /// Nothing was told. Takes no memory.
    pub fn new(alloc: Global) -> Looks
        ensures { LooksStandFor result [] }
    {
        let doubts = Doubts::new();
        let clock = StoppedClock::new();
        let after_wrong = AfterWrong::new();
        let alarms = Vec::new(alloc);
        Looks {
            doubts,
            clock,
            after_wrong,
            alarms,
        }
    }

    /// Takes what is told.
    ///
    /// # Errors
    ///
    /// Where there is no memory for an alarm. Then nothing more may be taken.
    pub fn take(&mut self, told: Told) -> Result<(), AllocError>
        ensures { (past : List ToldOf) → LooksStandFor self.old past → OnOk result (LooksStandFor self.new (told ∷ past)) }
    {
        match told {
            Told::Hears { event, plies } => self.hear(event, plies),
            Told::Suspects(n) => add(&mut self.alarms, Some(Look::Suspected(n))),
        }
    }

    /// Takes a picture, as `take` takes it. The game then has so many plies.
    ///
    /// # Errors
    ///
    /// As `take`.
    pub fn see(
        &mut self,
        at: u64,
        is_added: bool,
        seen: &Seen,
        plies: u64,
    ) -> Result<(), AllocError>
        ensures { let event : EventOf = record { at = at; is_added = is_added; what = Shows seen.now } in (past : List ToldOf)
            → LooksStandFor self.old past → OnOk result (LooksStandFor self.new (ToldOf.Hears event plies ∷ past)) }
    {
        let doubt = self.doubts.see(at, is_added, seen);
        self.after_wrong.see(at);
        add(&mut self.alarms, doubtful(plies, doubt))
    }

    /// Takes the news that the board shows the game's position, as `take` takes it. The game then has so many plies.
    ///
    /// # Errors
    ///
    /// As `take`.
    pub fn agree(&mut self, at: u64, is_added: bool, plies: u64) -> Result<(), AllocError>
        ensures { let event : EventOf = record { at = at; is_added = is_added; what = Agrees } in (past : List ToldOf)
            → LooksStandFor self.old past → OnOk result (LooksStandFor self.new (ToldOf.Hears event plies ∷ past)) }
    {
        let doubt = self.doubts.agree(at, is_added);
        self.after_wrong.agree();
        add(&mut self.alarms, doubtful(plies, doubt))
    }

    fn hear(&mut self, event: Event, plies: u64) -> Result<(), AllocError>
        ensures { (past : List ToldOf) → LooksStandFor self.old past → OnOk result (LooksStandFor self.new (ToldOf.Hears event plies ∷ past)) }
    {
        let named = named(event.what, self.unplayed());
        let doubt = self.doubts.take(event);
        let tried = self.clock.take(event);
        self.after_wrong.take(event);
        forget(&mut self.alarms, event.what);
        add(&mut self.alarms, doubtful(plies, doubt))?;
        add(&mut self.alarms, stopped(plies, tried))?;
        add(&mut self.alarms, unplayed(plies, named))
    }

    /// The last moves that nobody may have played.
    fn unplayed(&self) -> Option<Tried>
        ensures { (past : List ToldOf) → LooksStandFor self.now past → result ≡ unplayed_of_past (heard past) }
    {
        let tried = self.clock.tried();
        let odd = self.after_wrong.odd();
        let unpressed = self.doubts.unpressed_last();
        let stopped = some_moves(tried.moves, tried.plies);
        let others = first_of(some_moves(odd, odd), some_moves(unpressed, unpressed));
        first_of(stopped, others)
    }

    /// Whether the clock has run, and stood when it spoke last.
    pub fn is_clock_stopped(&self) -> bool
        ensures { (past : List ToldOf) → LooksStandFor self.now past → result ≡ has_stopped (heard past) }
    {
        self.clock.has_stopped()
    }

    /// The alarms that are open, in the order in which they came.
    pub fn alarms(&self) -> &[Look]
        ensures { (past : List ToldOf) → LooksStandFor self.now past → result.now ≡ alarms past }
    {
        self.alarms.as_slice()
    }
}
