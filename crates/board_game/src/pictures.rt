//! The pictures of a board, compared with others.
ghost use Rattle.std.specs.Prelude.{◌≡◌, ◌<◌, ◌∷◌, [], ℕ, List, MatchOption, None, Some, false, length, slice_set, true};
ghost use Rattle.chess_rules.specs.Valid.{Valid};
ghost use Rattle.dgt_frame.specs.declared.events.Event.{Event as EventOf};
ghost use Rattle.settle_core.specs.Entries.{last_picture};
ghost use Rattle.settle_core.specs.Masks.{IsDiff};
ghost use Rattle.board_events.specs.History.{IsInRange};
ghost use Rattle.board_events.specs.Pictures.{IsLast, pictures};
ghost use Rattle.board_events.specs.Session.{TellsTaken, entries_in};
ghost use Rattle.board_events.specs.Settings.{Setting};
ghost use Rattle.board_alarms.specs.Hearing.{HasMoved, IsShown as IsWhole, is_another as is_another_sight, moves as moves_sight, shown_at};
ghost use Rattle.board_game.specs.Inside.Shown.{HasSeen, IsShown, is_another, moves as moves_of};

use board_alarms::Sight;
use board_events::{Change, Taken, View};
use chess_rules::Position;
use dgt_frame::Event;
use settle_core::Seen;
use settle_core::masks::diff_mask;

/// What an event shows. A mask has bit n for square n.
#[derive(Clone, Copy)]
pub enum Shown {
    /// No picture.
    Nothing,
    /// The last picture again.
    Again,
    /// Another picture, or the first.
    Another {
        /// Where it differs from the one before it.
        changed: u64,
        /// Where it differs from the start, seen from the other side.
        turned: u64,
        /// The plies have become others with it.
        moves: bool,
    },
}

/// Follows the pictures of a board.
#[derive(Clone, Copy)]
pub struct Pictures {
    view: View,
    has_shown: bool,
    /// The start, seen from the other side.
    turned: [u8; 64],
    /// Where the last picture differs from it.
    mask: u64,
}

/// Whether the plies have become others, if this was seen.
fn moves(seen: Option<Seen>) -> bool
    ensures { result ≡ moves_of seen }
{
    match seen {
        Some(Seen::Moved(_) | Seen::Replaced(_)) => true,
        _ => false,
    }
}

/// Where two pictures differ that differed on this mask, now that the second one shows this code on one square.
fn changed(mask: u64, picture: &[u8; 64], square: u8, code: u8) -> u64
    requires { square < 64 }
    ensures { (seen : List ℕ) → length seen ≡ 64 → IsDiff mask picture.now seen → IsDiff result picture.now (slice_set seen square code) }
{
    if picture[square as usize] == code {
        mask & !(1 << square)
    } else {
        mask | (1 << square)
    }
}

/// For its clause: a picture has 64 codes.
fn count_codes(picture: &[u8; 64])
    ensures { length picture.now ≡ 64 }
{}

/// Where a picture differs from the one before it, if there was one.
fn changed_from(was_shown: bool, before: &[u8; 64], picture: &[u8; 64]) -> u64
    ensures first { was_shown ≡ false → result ≡ 0 }
    ensures later { was_shown ≡ true → IsDiff result before.now picture.now }
{
    if was_shown {
        diff_mask(before, picture)
    } else {
        0
    }
}

/// What an event shows, as alarms are told it.
pub fn sight(shown: Shown) -> Sight
    ensures whole { (setting : Setting) (past : List EventOf) (event : EventOf) (seen : List ℕ) → IsLast seen (pictures setting.rotated (event ∷ past))
        → IsShown setting past event shown → IsWhole setting past event (shown_at result seen) }
    ensures another { is_another_sight result ≡ is_another shown }
    ensures moved { (setting : Setting) (past : List EventOf) (event : EventOf) → Valid setting.start → IsShown setting past event shown
        → HasMoved setting past event (moves_sight result) }
{
    match shown {
        Shown::Nothing => Sight::Nothing,
        Shown::Again => Sight::Again,
        Shown::Another { moves, .. } => if moves { Sight::Moves } else { Sight::Another },
    }
}

impl Pictures {
    /// No picture was seen.
    pub fn new(start: &Position, rotated: bool) -> Pictures
        ensures { (setting : Setting) → setting.start ≡ start.now → setting.rotated ≡ rotated → HasSeen result setting [] }
    {
        let mut turned = start.picture();
        turned.reverse();
        Pictures {
            view: View::new(rotated),
            has_shown: false,
            turned,
            mask: 0,
        }
    }

    /// Takes the next event, of which the session has told this, and says what it shows.
    pub fn see(&mut self, taken: &Taken, event: &Event) -> Shown
        requires { IsInRange event.now }
        ensures seen { (setting : Setting) (past : List EventOf) → HasSeen self.old setting past → HasSeen self.new setting (event.now ∷ past) }
        ensures shown { (setting : Setting) (past : List EventOf) → Valid setting.start → TellsTaken setting past event.now taken.now → HasSeen self.old setting past
            → IsShown setting past event.now result }
    {
        let was_shown = self.has_shown;
        let before = *self.view.picture();
        // For its clause: a picture has 64 codes.
        count_codes(&before);
        let change = self.view.see(event);
        let picture = self.view.picture();
        match change {
            Change::Nothing => {
                if taken.seen.is_some() {
                    Shown::Again
                } else {
                    Shown::Nothing
                }
            }
            Change::Square { square, code } => {
                let changed_here = changed(0, &before, square, code);
                let turned = changed(self.mask, &self.turned, square, code);
                self.has_shown = true;
                self.mask = turned;
                Shown::Another {
                    changed: changed_here,
                    turned,
                    moves: moves(taken.seen),
                }
            }
            Change::Picture => {
                let changed_here = changed_from(was_shown, &before, picture);
                let turned = diff_mask(&self.turned, picture);
                self.has_shown = true;
                self.mask = turned;
                Shown::Another {
                    changed: changed_here,
                    turned,
                    moves: moves(taken.seen),
                }
            }
        }
    }

    /// The picture that the board was seen to show last; none where it has shown nothing.
    pub fn seen(&self) -> Option<&[u8; 64]>
        ensures { (setting : Setting) (past : List EventOf) → HasSeen self.now setting past
            → MatchOption result (last_picture (entries_in setting past) ≡ None) (λ picture. last_picture (entries_in setting past) ≡ Some picture.now) }
    {
        if self.has_shown {
            Some(self.view.picture())
        } else {
            None
        }
    }

    /// The last picture.
    pub fn last(&self) -> &[u8; 64]
        ensures { (setting : Setting) (past : List EventOf) → HasSeen self.now setting past → IsLast result.now (pictures setting.rotated past) }
    {
        self.view.picture()
    }
}
