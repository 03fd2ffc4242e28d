//! The text of the game so far.
ghost use Rattle.std.specs.Prelude.{◌≡◌, ℕ, Bool, List, IfOk, OnOk};
ghost use Rattle.dgt_frame.specs.declared.events.Event.{Event as EventOf};
ghost use Rattle.board_events.specs.Game.{IsGameOf};
ghost use Rattle.board_events.specs.Session.{HasTakenEvents};
ghost use Rattle.board_events.specs.Settings.{Setting};
ghost use Rattle.board_game.specs.Games.{StandsFor};
ghost use Rattle.board_game.specs.History.{Came};
ghost use Rattle.chess_game.specs.Values.{value_of, with_value};
ghost use Rattle.pgn_book.specs.Pgn.{Pgn};
ghost use Rattle.live_lines.specs.Text.{GivesText};

use board_events::Session;
use board_game::Game as BoardGame;
use chess_game::{Game, Tag, Tags};
use pgn_book::write_pgn;
use std::alloc::{AllocError, Global};
use watched_streams::Watch;

/// Gives a tag the value that it has in others.
fn set(copy: &mut Tags, tag: Tag, tags: &Tags) -> Result<(), AllocError>
    ensures { OnOk result (copy.new ≡ with_value tag (value_of tag tags.now) copy.old) }
{
    match copy.set(tag, tags.get(tag)) {
        Ok(()) => Ok(()),
        Err(_) => Err(AllocError),
    }
}

/// The same tags once more.
fn copy_of(alloc: Global, tags: &Tags) -> Result<Tags, AllocError>
    ensures { IfOk result (λ copy. copy ≡ tags.now) }
{
    let mut copy = Tags::new(alloc);
    set(&mut copy, Tag::Event, tags)?;
    set(&mut copy, Tag::Site, tags)?;
    set(&mut copy, Tag::Date, tags)?;
    set(&mut copy, Tag::Round, tags)?;
    set(&mut copy, Tag::White, tags)?;
    set(&mut copy, Tag::Black, tags)?;
    Ok(copy)
}

/// The game so far, with these tags. The session goes on.
fn game_of(alloc: Global, session: &Session, tags: Tags) -> Result<Game, AllocError>
    ensures { (setting : Setting) (past : List EventOf) → HasTakenEvents session.now setting past
        → IfOk result (λ game. IsGameOf game setting tags past) }
{
    let settler = session.settler();
    let start = *settler.start();
    let plies = Vec::from_slice(alloc, settler.moves())?;
    Ok(Game::new(tags, start, plies, settler.sign()))
}

/// The text of a game.
fn text_of(alloc: Global, game: &Game) -> Result<Vec<u8>, AllocError>
    ensures { IfOk result (λ text. Pgn game.now text.items) }
{
    let mut written = Watch::new(Vec::new(alloc));
    if write_pgn(game, &mut written).is_err() {
        return Err(AllocError);
    }
    Vec::from_slice(alloc, written.inner().as_slice())
}

/// The text of the game so far, with these tags, if it is wanted; else nothing.
pub fn text_if(
    alloc: Global,
    is_wanted: bool,
    game: &BoardGame,
    tags: &Tags,
) -> Result<Vec<u8>, AllocError>
    ensures { (setting : Setting) (recovers : Bool) (past : List Came) (report : List ℕ) → StandsFor game.now setting recovers past report
        → IfOk result (λ text. GivesText is_wanted setting recovers tags.now past text.items) }
{
    if !is_wanted {
        return Ok(Vec::new(alloc));
    }
    let copy = copy_of(alloc, tags)?;
    let played = game_of(alloc, game.session(), copy)?;
    text_of(alloc, &played)
}
