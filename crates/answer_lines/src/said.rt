//! What is said.

use board_cable::{Handling, Request};
use board_standing::State;

/// What is answered to one event.
#[derive(Clone, Copy)]
pub struct Said {
    /// What is done with what the board has sent. None: nothing was heard.
    pub handling: Option<Handling>,
    /// The serial number of the game's board, if it is news.
    pub number: Option<[u8; 5]>,
    /// What the board is sent now.
    pub request: Option<Request>,
    /// Whether the capture had room for all bytes.
    pub is_whole: bool,
    /// Whether the clock is stopped, if that is to be said.
    pub is_clock_stopped: Option<bool>,
    /// How the board stands, if that is to be said.
    pub state: Option<State>,
    /// When to wake, if nothing happens. None: never.
    pub due: Option<u64>,
}
