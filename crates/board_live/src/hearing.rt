//! What comes to the game.
ghost use Rattle.std.specs.Prelude.{◌≡◌, ◌≤◌, ◌↔◌, ◌++◌, [], ℕ, Bool, List, IfOk, IsTrue, OnOk, length};
ghost use Rattle.board_events.specs.Settings.{Setting};
ghost use Rattle.board_game.specs.Games.{HasBegun, StandsFor};
ghost use Rattle.board_game.specs.History.{Came, room_of};
ghost use Rattle.board_live.specs.Coming.{HasRoom, came_with, with_bytes, with_news};
ghost use Rattle.board_live.specs.Moments.{already, is_added, news_of};

use crate::happened::{Happened, already, is_added, lined, news_of};
use board_alarms::When;
use board_game::{Game, Note};
use board_standing::Heard;
use std::alloc::AllocError;

/// Tells the game what isn't in its bytes, if there is anything.
fn tell(game: &mut Game, at: u64, news: Option<Note>) -> Result<(), AllocError>
    ensures told { (setting : Setting) (recovers : Bool) (past : List Came) (text : List ℕ) → StandsFor game.old setting recovers past text
        → OnOk result (StandsFor game.new setting recovers (with_news at news past) text) }
    ensures begun { HasBegun game.old → OnOk result (HasBegun game.new) }
{
    match news {
        None => Ok(()),
        Some(news) => game.tell(at, news),
    }
}

fn is_nothing(bytes: &[u8]) -> bool
    ensures { IsTrue result ↔ (bytes.now ≡ []) }
{
    bytes.is_empty()
}

fn both(one: bool, other: bool) -> bool
    ensures { IsTrue result ↔ (IsTrue one × IsTrue other) }
{
    one && other
}

/// Gives the game bytes, if there are any. Whether it has taken all of them.
fn give(game: &mut Game, when: When, bytes: &[u8], lines: &mut Vec<u8>) -> Result<bool, AllocError>
    requires begun { HasBegun game.old }
    ensures told { (setting : Setting) (recovers : Bool) (past : List Came) (text : List ℕ) → StandsFor game.old setting recovers past text
        → OnOk result ((more : List ℕ) × (lines.new.items ≡ lines.old.items ++ more)
        × StandsFor game.new setting recovers (with_bytes when bytes.now past) (text ++ more)) }
    ensures whole { (setting : Setting) (recovers : Bool) (past : List Came) (text : List ℕ) → StandsFor game.old setting recovers past text
        → IfOk result (λ is. IsTrue is ↔ (length bytes.now ≤ room_of past)) }
    ensures begun { OnOk result (HasBegun game.new) }
{
    if is_nothing(bytes) {
        return Ok(true);
    }
    game.take(when, bytes, lines)
}

/// Tells the game what isn't in its bytes, and then gives it bytes. Whether it has taken all of them.
fn tell_and_give(
    game: &mut Game,
    when: When,
    news: Option<Note>,
    bytes: &[u8],
    lines: &mut Vec<u8>,
) -> Result<bool, AllocError>
    requires begun { HasBegun game.old }
    ensures told { (setting : Setting) (recovers : Bool) (past : List Came) (text : List ℕ) → StandsFor game.old setting recovers past text
        → OnOk result ((more : List ℕ) × (lines.new.items ≡ lines.old.items ++ more)
        × StandsFor game.new setting recovers (with_bytes when bytes.now (with_news when.at news past)) (text ++ more)) }
    ensures whole { (setting : Setting) (recovers : Bool) (past : List Came) (text : List ℕ) → StandsFor game.old setting recovers past text
        → IfOk result (λ is. IsTrue is ↔ (length bytes.now ≤ room_of (with_news when.at news past))) }
    ensures begun { OnOk result (HasBegun game.new) }
{
    tell(game, when.at, news)?;
    give(game, when, bytes, lines)
}

/// Gives the game bytes, and then tells it what isn't in them. Whether it has taken all of them.
fn give_and_tell(
    game: &mut Game,
    when: When,
    bytes: &[u8],
    news: Option<Note>,
    lines: &mut Vec<u8>,
) -> Result<bool, AllocError>
    requires begun { HasBegun game.old }
    ensures told { (setting : Setting) (recovers : Bool) (past : List Came) (text : List ℕ) → StandsFor game.old setting recovers past text
        → OnOk result ((more : List ℕ) × (lines.new.items ≡ lines.old.items ++ more)
        × StandsFor game.new setting recovers (with_news when.at news (with_bytes when bytes.now past)) (text ++ more)) }
    ensures whole { (setting : Setting) (recovers : Bool) (past : List Came) (text : List ℕ) → StandsFor game.old setting recovers past text
        → IfOk result (λ is. IsTrue is ↔ (length bytes.now ≤ room_of past)) }
    ensures begun { OnOk result (HasBegun game.new) }
{
    let is_whole = give(game, when, bytes, lines)?;
    tell(game, when.at, news)?;
    Ok(is_whole)
}

/// Gives the game what comes to it. Whether it has taken all bytes.
pub fn hear(
    game: &mut Game,
    happened: Happened,
    bytes: &[u8],
    kept: &[u8],
    silence: Option<Heard>,
    lines: &mut Vec<u8>,
) -> Result<bool, AllocError>
    requires begun { HasBegun game.old }
    ensures told { (setting : Setting) (recovers : Bool) (past : List Came) (text : List ℕ) → StandsFor game.old setting recovers past text
        → OnOk result ((more : List ℕ) × (lines.new.items ≡ lines.old.items ++ more) × StandsFor game.new setting recovers
        (came_with happened.at (news_of happened.what) (is_added happened.what) (already happened.what bytes.now) kept.now silence past) (text ++ more)) }
    ensures whole { (setting : Setting) (recovers : Bool) (past : List Came) (text : List ℕ) → StandsFor game.old setting recovers past text
        → IfOk result (λ is. IsTrue is ↔ HasRoom happened.at (news_of happened.what) (is_added happened.what) (already happened.what bytes.now) kept.now past) }
    ensures begun { OnOk result (HasBegun game.new) }
{
    let news = news_of(happened.what);
    let has = already(happened.what, bytes);
    let added = When {
        at: happened.at,
        is_added: is_added(happened.what),
    };
    let sent = When {
        at: happened.at,
        is_added: false,
    };
    let first = tell_and_give(game, added, news, has, lines)?;
    let second = give_and_tell(game, sent, kept, lined(silence), lines)?;
    Ok(both(first, second))
}
