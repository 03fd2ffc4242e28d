//! What tests share: bytes in fixed arrays, readers and writers in memory that fail, the codes of boards, the texts of
//! games; captures built in code, with what is recorded of them; recordings over such streams; a slow search for the
//! move that a picture settles. No contract rests on these helpers.
#![tactic(auto)]

pub mod boards;
pub mod bytes;
pub mod captures;
pub mod message_rows;
pub mod move_rows;
pub mod recording;
pub mod row;
pub mod rows;
pub mod streams;
pub mod texts;
pub mod trying;
