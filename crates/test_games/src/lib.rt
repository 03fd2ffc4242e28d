//! Tests of the public calls of `board_events`, `board_session`, `chess_game` and `pgn_book`.
#![tactic(auto)]

#[cfg(test)]
mod broken_input;
#[cfg(test)]
mod decoding;
#[cfg(test)]
mod failed_writes;
#[cfg(test)]
mod games;
#[cfg(test)]
mod orders;
#[cfg(test)]
mod recordings;
#[cfg(test)]
mod refusals;
#[cfg(test)]
mod refused_texts;
#[cfg(test)]
mod rows;
#[cfg(test)]
mod sessions;
#[cfg(test)]
mod settling;
#[cfg(test)]
mod slow;
#[cfg(test)]
mod tag_values;
#[cfg(test)]
mod written_games;
