//! A settler that tries every origin, target and promotion.

use crate::told::{Told, way_of};
use chess_rules::{Move, Position};
use dgt_vectors::trying::{after, only_move, sign};
use settle_core::Outcome;

/// The settler that tries every origin, target and promotion.
#[derive(Clone, Copy)]
pub struct Plain {
    pub position: Position,
    /// The position before the last move.
    pub before: Option<Position>,
    pub last_move: Option<Move>,
    pub sign: Option<Outcome>,
    pub last: Option<[u8; 64]>,
}

impl Plain {
    /// It has seen nothing.
    pub fn new(position: Position) -> Plain {
        Plain {
            position,
            before: None,
            last_move: None,
            sign: None,
            last: None,
        }
    }

    /// The move that is settled in the place of the last one.
    fn replacing(&self, picture: &[u8; 64]) -> Option<Move> {
        let before = self.before?;
        let m = only_move(&before, picture)?;
        let last = self.last_move?;
        if way_of(&m) == way_of(&last) {
            None
        } else {
            Some(m)
        }
    }

    /// Shows it a picture.
    pub fn see(&mut self, picture: &[u8; 64]) -> Told {
        if self.last == Some(*picture) {
            return Told::Same;
        }
        self.last = Some(*picture);
        if let Some(m) = only_move(&self.position, picture) {
            self.before = Some(self.position);
            self.position = after(&self.position, &m);
            self.last_move = Some(m);
            self.sign = None;
            return Told::Moved(way_of(&m));
        }
        if let Some(outcome) = sign(&self.position, picture) {
            self.sign = Some(outcome);
            return Told::Sign(outcome);
        }
        if let Some(m) = self.replacing(picture) {
            if let Some(before) = self.before {
                self.position = after(&before, &m);
            }
            self.last_move = Some(m);
            self.sign = None;
            return Told::Replaced(way_of(&m));
        }
        Told::Waits
    }
}
