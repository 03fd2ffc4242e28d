//! Tests of the public calls of `chess_rules` and `chess_text`, and of `settle_core`, `unseen_pairs` and `pair_frames`.
#![tactic(auto)]

#[cfg(test)]
mod answers;
#[cfg(test)]
mod candidates;
#[cfg(test)]
mod clocks;
#[cfg(test)]
mod corrected_pairs;
#[cfg(test)]
mod corrections;
#[cfg(test)]
mod dumps;
#[cfg(test)]
mod endings;
#[cfg(test)]
mod games;
#[cfg(test)]
mod hidden;
#[cfg(test)]
mod known_positions;
#[cfg(test)]
mod last;
#[cfg(test)]
mod many;
#[cfg(test)]
mod moves;
#[cfg(test)]
mod pair_clocks;
#[cfg(test)]
mod pair_starts;
#[cfg(test)]
mod placements;
#[cfg(test)]
mod plain;
#[cfg(test)]
mod position_texts;
#[cfg(test)]
mod put_in_frames;
#[cfg(test)]
mod readings;
#[cfg(test)]
mod shown_games;
#[cfg(test)]
mod starts;
#[cfg(test)]
mod told;
#[cfg(test)]
mod waits;
#[cfg(test)]
mod ways;
