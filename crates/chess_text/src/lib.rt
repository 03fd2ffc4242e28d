//! The texts of chess: positions as FEN, moves as SAN, pictures as placements.
//!
//! Begin with `fen.rt`, over `fields.rt` and `placement.rt`, and with `san.rt`, which writes, and `san_reading.rt`,
//! which reads by trying the moves that `aim.rt` leaves. `start.rt` has the position that a game starts from, and
//! `placement_text.rt` follows a picture that changes. `laws.rt` has what holds of all texts.
#![tactic(auto)]

mod aim;
mod bytes;
mod capture;
mod fen;
mod field_text;
mod fields;
pub mod laws;
mod placement;
mod placement_text;
mod rank_text;
mod san;
mod san_reading;
mod squares;
mod start;

pub use fen::{FenError, read_fen, write_fen};
pub use placement::write_placement;
pub use placement_text::PlacementText;
pub use san::write_san;
pub use san_reading::{SanError, read_san};
pub use start::start_of;
