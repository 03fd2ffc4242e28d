//! What is heard of one event, told to the alarms.
ghost use Rattle.std.specs.Prelude.{◌≡◌, ◌↔◌, ◌∷◌, IsTrue, false, List, None, OnOk, Option, Some, if◌then◌else◌, is_some};
ghost use Rattle.chess_rules.specs.declared.parts.Parts.{Parts};
ghost use Rattle.dgt_frame.specs.declared.events.Event.{Event as EventOf};
ghost use Rattle.settle_core.specs.declared.plies.Ply.{Ply as PlyOf};
ghost use Rattle.board_events.specs.History.{reading_at};
ghost use Rattle.board_events.specs.Session.{HasTakenEvents};
ghost use Rattle.board_events.specs.Settings.{Setting};
ghost use Rattle.board_doubts.specs.declared.heard.Heard.{Heard as HeardOf};
ghost use Rattle.board_doubts.specs.declared.heard.Heard.TheVariants.{Agrees, Ends, Reopens};
ghost use Rattle.board_alarms.specs.declared.look.Told.{Told as ToldOf};
ghost use Rattle.board_alarms.specs.Clock.{lever_at};
ghost use Rattle.board_alarms.specs.Hearing.{AreMoved, HearsPicture, HearsResult, agrees as agrees_with, away_of, moves as moves_of, shown_at, with_heard};
ghost use Rattle.board_alarms.specs.Inside.{Grows, ShowsLast, is_time, with_clock};
ghost use Rattle.board_alarms.specs.Items.{Item, Sent, events_of};
ghost use Rattle.board_alarms.specs.Keeping.{KeepsCourse, LooksStandFor};
ghost use Rattle.board_alarms.specs.Plies.{HearsPlies};

use crate::chunk::{Chunk, When};
use crate::clock::{clock, counts, later, lever_said, presses};
use crate::course::Course;
use crate::look::Told;
use crate::looks::Looks;
use crate::news::Sight;
use board_doubts::{Event, Gap, Heard};
use board_events::Session;
use chess_clock::Reading;
use dgt_frame::{Event as SentEvent, Message};
use settle_core::{Outcome, Settler};
use std::alloc::AllocError;

/// Tells what is heard then, if anything. The game then has so many plies.
pub fn tell(
    looks: &mut Looks,
    when: When,
    plies: u64,
    what: Option<Heard>,
) -> Result<(), AllocError>
    ensures { (told : List ToldOf) → LooksStandFor looks.old told → OnOk result (LooksStandFor looks.new (with_heard when.at when.is_added plies what told)) }
{
    let Some(what) = what else {
        return Ok(());
    };
    let event = Event {
        at: when.at,
        is_added: when.is_added,
        what,
    };
    looks.take(Told::Hears { event, plies })
}

/// Tells that the board wasn't heard for a time, if so.
pub fn tell_gap(
    looks: &mut Looks,
    when: When,
    plies: u64,
    gap: Option<Gap>,
) -> Result<(), AllocError>
    ensures { (told : List ToldOf) → LooksStandFor looks.old told → OnOk result (LooksStandFor looks.new (with_heard when.at when.is_added plies (away_of gap) told)) }
{
    match gap {
        None => Ok(()),
        Some(gap) => tell(looks, when, plies, Some(Heard::Away(gap))),
    }
}

/// Tells the picture that an event shows, if it is another one. The game hasn't gone on with it yet.
pub fn tell_picture(
    looks: &mut Looks,
    when: When,
    course: &Course,
    sight: Sight,
    picture: &[u8; 64],
) -> Result<(), AllocError>
    ensures { (start : Parts) (plies : List PlyOf) (told : List ToldOf) → KeepsCourse course.now start plies → LooksStandFor looks.old told
        → OnOk result ((heard : Option HeardOf) × HearsPicture start plies (shown_at sight picture.now) heard
        × LooksStandFor looks.new (with_heard when.at when.is_added course.now.count heard told)) }
{
    if !sight.is_another() {
        return Ok(());
    }
    let seen = course.seen(picture);
    looks.see(when.at, when.is_added, &seen, course.count)
}

/// Tells that the board shows the game's position, if so.
fn tell_agreement(looks: &mut Looks, when: When, plies: u64, agrees: bool) -> Result<(), AllocError>
    ensures { (told : List ToldOf) → LooksStandFor looks.old told → OnOk result (LooksStandFor looks.new (with_heard when.at when.is_added plies (if agrees then Some Agrees else None) told)) }
{
    if agrees {
        looks.agree(when.at, when.is_added, plies)
    } else {
        Ok(())
    }
}

/// Tells what is heard of the plies, and lets the game go on to those of the settler.
pub fn tell_plies(
    looks: &mut Looks,
    when: When,
    course: &mut Course,
    settler: &Settler,
    sight: Sight,
    picture: &[u8; 64],
) -> Result<(), AllocError>
    ensures { (start : Parts) (old : List PlyOf) (told : List ToldOf) → KeepsCourse course.old start old → settler.now.start ≡ start
        → Grows old settler.now.score.plies → AreMoved (moves_of sight) old settler.now.score.plies
        → ShowsLast sight settler.now.last picture.now → LooksStandFor looks.old told → OnOk result ((news ply : Option HeardOf)
        × HearsPlies start (agrees_with start settler.now.score.plies (shown_at sight picture.now)) old settler.now.score.plies news ply
        × KeepsCourse course.new start settler.now.score.plies
        × LooksStandFor looks.new (with_heard when.at when.is_added course.new.count ply (with_heard when.at when.is_added course.new.count news told))) }
{
    if sight.moves() {
        let heard = course.go_on(settler);
        tell(looks, when, course.count, heard.news)?;
        return tell(looks, when, course.count, heard.ply);
    }
    let agrees = course.agrees(sight, settler.differs(), picture);
    tell_agreement(looks, when, course.count, agrees)
}

fn is_result(one: Option<Outcome>, other: Option<Outcome>) -> bool
    ensures { IsTrue result ↔ (one ≡ other) }
{
    one == other
}

/// What is heard of a result that is another one now.
fn result_heard(new: Option<Outcome>) -> Heard
    ensures { result ≡ (if is_some new then Ends else Reopens) }
{
    match new {
        Some(_) => Heard::Ends,
        None => Heard::Reopens,
    }
}

/// Tells that the result has become another one, if so.
pub fn tell_result(
    looks: &mut Looks,
    when: When,
    plies: u64,
    old: Option<Outcome>,
    new: Option<Outcome>,
) -> Result<(), AllocError>
    ensures { (told : List ToldOf) → LooksStandFor looks.old told → OnOk result ((heard : Option HeardOf) × HearsResult old new heard
        × LooksStandFor looks.new (with_heard when.at when.is_added plies heard told)) }
{
    if is_result(new, old) {
        return Ok(());
    }
    tell(looks, when, plies, Some(result_heard(new)))
}

fn is_time(event: &SentEvent) -> bool
    ensures { result ≡ is_time event.now }
{
    matches!(event, SentEvent::Message(Message::Time(_)))
}

/// Tells what a time message says of the clock.
fn tell_time(
    looks: &mut Looks,
    chunk: Chunk,
    plies: u64,
    event: &SentEvent,
    session: &Session,
    reading: &mut Option<Reading>,
    lever: &mut Option<bool>,
) -> Result<(), AllocError>
    ensures { (setting : Setting) (items : List Item) (told : List ToldOf) → HasTakenEvents session.now setting (event.now ∷ events_of items)
        → reading.old ≡ reading_at setting.first (events_of items) → lever.old ≡ lever_at items → LooksStandFor looks.old told
        → OnOk result ((reading.new ≡ reading_at setting.first (event.now ∷ events_of items)) × (lever.new ≡ lever_at (Sent chunk event.now ∷ items))
        × LooksStandFor looks.new (with_clock chunk plies setting.first event.now items told)) }
{
    let when = chunk.when;
    let now = session.reading();
    let said = lever_said(chunk, event);
    tell(looks, when, plies, counts(chunk, reading, &now))?;
    tell(looks, when, plies, presses(said, *lever))?;
    tell(looks, when, plies, clock(chunk, event))?;
    *reading = now;
    *lever = later(said, *lever);
    Ok(())
}

/// Tells what is heard of the clock, if the event is a time message.
pub fn tell_clock(
    looks: &mut Looks,
    chunk: Chunk,
    plies: u64,
    event: &SentEvent,
    session: &Session,
    reading: &mut Option<Reading>,
    lever: &mut Option<bool>,
) -> Result<(), AllocError>
    ensures { (setting : Setting) (items : List Item) (told : List ToldOf) → HasTakenEvents session.now setting (event.now ∷ events_of items)
        → reading.old ≡ reading_at setting.first (events_of items) → lever.old ≡ lever_at items → LooksStandFor looks.old told
        → OnOk result ((reading.new ≡ reading_at setting.first (event.now ∷ events_of items)) × (lever.new ≡ lever_at (Sent chunk event.now ∷ items))
        × LooksStandFor looks.new (with_clock chunk plies setting.first event.now items told)) }
{
    if is_time(event) {
        return tell_time(looks, chunk, plies, event, session, reading, lever);
    }
    Ok(())
}
