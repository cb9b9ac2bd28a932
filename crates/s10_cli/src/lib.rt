//! Reads jobs from a command line of `s10`, and runs the subcommands that need no file or socket.
#![tactic(auto)]

mod buffered;
mod call_jobs;
mod command_line;
mod input;
mod job_words;
mod ledger_jobs;
mod line_end;
mod notes_jobs;
mod option_values;
mod parts;
mod printing;

pub use buffered::flush_buffer;
pub use command_line::{run_buffered, run_line};
pub use line_end::LineEnd;
