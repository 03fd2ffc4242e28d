//! Which states are said.
ghost use Rattle.std.specs.Prelude.{◌≡◌, false, None};
ghost use Rattle.board_live.specs.Saying.{Says, SaysAfter, but_other, last_said, live_by, said_before, without_other};

use crate::happened::{What, begins, live_after};
use board_standing::{Hint, State};

/// Says a state if it is the first in this call, or news.
#[derive(Clone, Copy)]
pub struct Saying {
    /// Whether this call has begun.
    pub is_live: bool,
    /// The state that was said last.
    pub last: Option<State>,
}

fn but_other(is_own: bool, hint: Option<Hint>) -> Option<Hint>
    ensures { result ≡ but_other is_own hint }
{
    match (is_own, hint) {
        (true, Some(Hint::OtherBoard)) => None,
        _ => hint,
    }
}

/// The state, without the hint that another board may be on the line if the game's own is.
pub fn without_other(is_own: bool, state: State) -> State
    ensures { result ≡ without_other is_own state }
{
    State {
        kind: state.kind,
        since: state.since,
        squares: state.squares,
        hint: but_other(is_own, state.hint),
    }
}

fn says_after(before: Option<State>, state: State) -> Option<State>
    ensures { SaysAfter before state result }
{
    let Some(before) = before else {
        return Some(state);
    };
    if state.is_news(before) {
        Some(state)
    } else {
        None
    }
}

fn says(is_live: bool, before: Option<State>, state: State) -> Option<State>
    ensures { Says is_live before state result }
{
    if is_live {
        says_after(before, state)
    } else {
        None
    }
}

fn said_before(what: What, last: Option<State>) -> Option<State>
    ensures { result ≡ said_before what last }
{
    if begins(what) { None } else { last }
}

fn last_said(said: Option<State>, before: Option<State>) -> Option<State>
    ensures { result ≡ last_said said before }
{
    match said {
        None => before,
        Some(state) => Some(state),
    }
}

impl Saying {
    /// Nothing was said.
    pub fn new() -> Saying
        ensures { result ≡ record { is_live = false; last = None } }
    {
        Saying {
            is_live: false,
            last: None,
        }
    }

    /// What is said of this state, when this has happened.
    pub fn say(&mut self, what: What, state: State) -> Option<State>
        ensures live { self.new.is_live ≡ live_by what self.old.is_live }
        ensures says { Says self.new.is_live (said_before what self.old.last) state result }
        ensures last { self.new.last ≡ last_said result (said_before what self.old.last) }
    {
        self.is_live = live_after(what, self.is_live);
        let before = said_before(what, self.last);
        let said = says(self.is_live, before, state);
        self.last = last_said(said, before);
        said
    }
}
