//! Part of `s10_cli`, split off for the prover alone. Defines the command line of `s10`: its
//! subcommands, their words and their options.
#![tactic(auto)]

mod again_command;
mod audit_command;
mod builders;
mod check_command;
mod command;
mod copy_command;
mod create_command;
mod draw_command;
mod filters;
mod grant_command;
mod info_command;
mod loop_command;
mod make_command;
mod notes_command;
mod options;
mod query_command;
mod questions;
mod replay_command;
mod report_command;
mod serve_command;
mod show_command;
mod void_command;
mod withdraw_command;

pub use command::parse;
