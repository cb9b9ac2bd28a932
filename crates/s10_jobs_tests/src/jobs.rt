//! Tests of jobs: calls, reports, turns and their lines.

mod copies;
mod day_guard;
mod each_line;
mod ledger_log;
mod many_lines;
mod notes;
mod questions;
mod replays;
mod reports;
mod snapshots;
mod stopping_folder;
mod tries;
mod turn_lines;
mod turns;
