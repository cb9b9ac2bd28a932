//! Tests of the command line, and of jobs over ledgers in tables, files and sockets of this
//! machine.

mod buffers;
mod command_lines;
mod each_line;
mod job_words;
mod jobs;
mod kept_files;
pub(crate) mod ledgers;
mod loopback;
mod questions;
mod refused_files;
mod serving;
mod snapshots;
mod wanted_job;
