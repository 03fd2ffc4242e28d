//! Tests of the public calls on boards and what they send. Of `watched_streams`, streams that fail; of `dgt_frame`, frames and
//! times; of `board_captures` and `going_back`, captures that go back; of `board_cable`, what a board is sent when, and what is
//! done with what it sends, without its bytes and with them; of `board_times`, files of times; of `square_runs`, since
//! when squares are in masks; of `board_standing`, how a board stands; of `board_doubts`, which news of a game is doubtful;
//! of `board_alarms`, which alarms are open; of `game_over` and `board_endings`, whether a game is over, and where it ended; of
//! `board_game`, one game while its capture grows; of `board_live`, a board that is recorded; of `answer_lines`, the lines of an answer;
//! of `live_lines`, what a host tells a recorder, and what it is answered.
//!
//! The files `NAME_page.rt` have the examples on the crates' pages, as they stand there: `tests/pages` compares them. They are here
//! since they load the same libraries.
#![tactic(auto)]

#[cfg(test)]
mod adding_page;
#[cfg(test)]
mod alarmed;
#[cfg(test)]
mod answer_lines_page;
#[cfg(test)]
mod backs;
#[cfg(test)]
mod board_alarms_page;
#[cfg(test)]
mod board_cable_page;
#[cfg(test)]
mod board_captures_page;
#[cfg(test)]
mod board_doubts_page;
#[cfg(test)]
mod board_endings_page;
#[cfg(test)]
mod board_events_page;
#[cfg(test)]
mod board_game_page;
#[cfg(test)]
mod board_listing_page;
#[cfg(test)]
mod board_live_page;
#[cfg(test)]
mod board_over;
#[cfg(test)]
mod board_session_page;
#[cfg(test)]
mod board_standing_page;
#[cfg(test)]
mod board_times_page;
#[cfg(test)]
mod cables;
#[cfg(test)]
mod chess_clock_page;
#[cfg(test)]
mod chess_game_page;
#[cfg(test)]
mod chess_rules_page;
#[cfg(test)]
mod chess_text_page;
#[cfg(test)]
mod coded_frames;
#[cfg(test)]
mod dgt_frame_page;
#[cfg(test)]
mod dgt_replay_page;
#[cfg(test)]
mod doubted;
#[cfg(test)]
mod ended;
#[cfg(test)]
mod fits;
#[cfg(test)]
mod game_over_page;
#[cfg(test)]
mod games;
#[cfg(test)]
mod going_back_page;
#[cfg(test)]
mod hints;
#[cfg(test)]
mod histories;
#[cfg(test)]
mod instead;
#[cfg(test)]
mod live_alarms;
#[cfg(test)]
mod live_clock;
#[cfg(test)]
mod nearest;
#[cfg(test)]
mod over;
#[cfg(test)]
mod own_boards;
#[cfg(test)]
mod pair_frames_page;
#[cfg(test)]
mod pgn_book_page;
#[cfg(test)]
mod read_times;
#[cfg(test)]
mod recorded;
#[cfg(test)]
mod recovery_page;
#[cfg(test)]
mod replay_arguments_page;
#[cfg(test)]
mod requests;
#[cfg(test)]
mod runs;
#[cfg(test)]
mod settle_core_page;
#[cfg(test)]
mod square_runs_page;
#[cfg(test)]
mod states;
#[cfg(test)]
mod text_subcommands_page;
#[cfg(test)]
mod times;
#[cfg(test)]
mod told_lines;
#[cfg(test)]
mod tried;
#[cfg(test)]
mod typed_lines_page;
#[cfg(test)]
mod unseen_pairs_page;
#[cfg(test)]
mod watched_streams_page;
#[cfg(test)]
mod watching;
#[cfg(test)]
mod words;
