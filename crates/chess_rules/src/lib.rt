//! The rules of chess, by the FIDE Laws of Chess of 2023: valid positions, legal moves, the position after a move, how
//! a game ends, and the piece codes that a DGT Electronic Board sends for a position.
//!
//! Begin with `parts.rt` and `position.rt`. `rules.rt` says which moves are legal, over `walk.rt`, which finds attacks;
//! `moves.rt` lists them, `advance.rt` makes the position after one, `picture.rt` its codes. A call or a value marked
//! `For its clause` changes nothing: the proof needs what its contract says.
#![tactic(auto)]

mod advance;
mod chess_move;
mod initial;
pub mod laws;
mod lines;
mod moves;
mod parts;
mod picture;
mod pieces;
mod position;
mod rules;
mod square;
mod walk;

pub use advance::{is_castling, is_en_passant, wing_towards};
pub use chess_move::Move;
pub use lines::Wing;
pub use parts::{Invalid, Parts, Rights, Status};
pub use pieces::{Kind, Piece, Side};
pub use position::Position;
pub use rules::kind_on;
pub use square::Square;
