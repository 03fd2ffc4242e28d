//! What is told of how a game ends.
ghost use Rattle.std.specs.Prelude.{◌≡◌, ◌∷◌, List, OnOk};
ghost use Rattle.chess_rules.specs.Valid.{Valid};
ghost use Rattle.dgt_frame.specs.declared.events.Event.{Event as EventOf};
ghost use Rattle.board_alarms.specs.Hearing.{HasResult};
ghost use Rattle.board_events.specs.Session.{HasTakenEvents};
ghost use Rattle.board_events.specs.Settings.{Setting};
ghost use Rattle.board_endings.specs.Items.{Item as EndItem, Sent as Comes, events_of as end_events};
ghost use Rattle.board_endings.specs.Keeping.{StandsFor as EndingsStand};
ghost use Rattle.board_game.specs.Ending.{bytes_with, end_news, end_of_line, with_end_news};
ghost use Rattle.board_game.specs.Inside.Shown.{HasSeen, IsShown};

use crate::note::Note;
use crate::pictures::{Pictures, Shown, sight};
use board_alarms::Chunk;
use board_endings::{Endings, News};
use board_events::Session;
use board_standing::Heard;
use settle_core::Outcome;
use std::alloc::AllocError;

/// What news of the line are to the end of a game.
fn of_line(heard: Heard) -> Option<News>
    ensures { result ≡ end_of_line heard }
{
    match heard {
        Heard::Begins => Some(News::Begins),
        _ => None,
    }
}

/// What a note is to it.
fn news_of(note: Note) -> Option<News>
    ensures { result ≡ end_news note }
{
    match note {
        Note::Line(heard) => of_line(heard),
        Note::PutsBack => Some(News::GoesBack),
        Note::Reopens => Some(News::Reopens),
        Note::Passes => Some(News::Passes),
        Note::Resumes => Some(News::Begins),
        Note::Looked | Note::Suspects(_) => None,
    }
}

/// Tells a note, if it is news.
pub fn note_end(endings: &mut Endings, at: u64, note: Note) -> Result<(), AllocError>
    ensures { (setting : Setting) (items : List EndItem) → EndingsStand endings.old setting items
        → OnOk result (EndingsStand endings.new setting (with_end_news at (end_news note) items)) }
{
    match news_of(note) {
        None => Ok(()),
        Some(news) => endings.note(at, news),
    }
}

/// How many bytes the capture has with an event that ends at this offset.
fn bytes_with(chunk: Chunk, offset: u32) -> u64
    ensures { result ≡ bytes_with chunk offset }
{
    if chunk.when.is_added {
        chunk.end
    } else {
        offset as u64 + 1
    }
}

/// Tells an event, which the session and the pictures have taken. It ends at this offset, and the game has this result with it.
pub fn tell_end(
    endings: &mut Endings,
    chunk: Chunk,
    offset: u32,
    shown: Shown,
    pictures: &Pictures,
    session: &Session,
    outcome: Option<Outcome>,
) -> Result<(), AllocError>
    ensures { (setting : Setting) (items : List EndItem) (event : EventOf) → Valid setting.start → EndingsStand endings.old setting items
        → HasSeen pictures.now setting (event ∷ end_events items) → IsShown setting (end_events items) event shown
        → HasTakenEvents session.now setting (event ∷ end_events items) → HasResult setting.start session.now.settler.score outcome
        → OnOk result (EndingsStand endings.new setting (Comes chunk.when.at chunk.when.is_added (bytes_with chunk offset) event ∷ items)) }
{
    let bytes = bytes_with(chunk, offset);
    endings.take(
        chunk.when,
        bytes,
        sight(shown),
        pictures.last(),
        session,
        outcome,
    )
}
