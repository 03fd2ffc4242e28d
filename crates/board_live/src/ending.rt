//! What is said of the end of the game.
ghost use Rattle.std.specs.Prelude.{◌≡◌, ◌↔◌, IsTrue};
ghost use Rattle.board_live.specs.Ending.{IsNews, SaysCount, SaysNews, SaysOver};

use board_endings::End;
use game_over::Over;

fn is_end(one: Over, other: Over) -> bool
    ensures { IsTrue result ↔ (one ≡ other) }
{
    one == other
}

fn is_over(one: Option<Over>, other: Option<Over>) -> bool
    ensures { IsTrue result ↔ (one ≡ other) }
{
    match (one, other) {
        (None, None) => true,
        (Some(one), Some(other)) => is_end(one, other),
        _ => false,
    }
}

fn is_count(one: Option<u64>, other: Option<u64>) -> bool
    ensures { IsTrue result ↔ (one ≡ other) }
{
    one == other
}

fn over_news(before: Option<Over>, now: Option<Over>) -> Option<Over>
    ensures { SaysOver before now result }
{
    if is_over(now, before) { None } else { now }
}

fn count_news(before: Option<u64>, now: Option<u64>) -> Option<u64>
    ensures { SaysCount before now result }
{
    if is_count(now, before) { None } else { now }
}

/// What is news of how the game stands with its end.
fn news(before: &End, now: &End) -> End
    ensures { IsNews before.now now.now result }
{
    End {
        over: over_news(before.over, now.over),
        goes_on: count_news(before.goes_on, now.goes_on),
        begins: count_news(before.begins, now.begins),
    }
}

/// What is said of it, if this call has begun, or begins.
pub fn end_said(is_live: bool, begins: bool, before: End, now: End) -> End
    ensures { SaysNews is_live begins before now result }
{
    if !is_live {
        return End {
            over: None,
            goes_on: None,
            begins: None,
        };
    }
    if begins { now } else { news(&before, &now) }
}
