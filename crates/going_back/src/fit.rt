//! A change of a game that would explain what its board shows.
use chess_rules::Move;
use unseen_pairs::TwoPlies;

/// The plies that come: at most two.
#[derive(Clone, Copy, PartialEq, Eq)]
pub enum Coming {
    Nothing,
    One(Move),
    Two(TwoPlies),
}

/// So many of the last plies of a game go, at most two, and these come in their place.
#[derive(Clone, Copy, PartialEq, Eq)]
pub struct Fit {
    pub gone: u8,
    pub coming: Coming,
}
