//! Reads a job from the options of a command line.
ghost use Rattle.clap.specs.Words.{subcommand_rows_of};
ghost use Rattle.s10_cli.specs.Options.{rows_in, Finds};
ghost use Rattle.s10_cli.specs.Jobs.{AsksFor, IsNamedJob};

use crate::call_jobs::{draw_job, grant_job, query_job, void_job, withdraw_job};
use crate::ledger_jobs::{
    audit_job, copy_job, create_job, info_job, loop_job, report_job, serve_job,
};
use crate::notes_jobs::{again_job, notes_job};
use clap::ArgMatches;
use s10_jobs::Job;

/// Returns the job that a parsed command line asks for, or `None` if it asks for no job.
pub(crate) fn job_in<'a>(matches: &ArgMatches<'a>) -> Option<Job<'a>>
    ensures { Finds (IsNamedJob (subcommand_rows_of matches.now)) result }
{
    let Some((name, found)) = matches.subcommand() else {
        return None;
    };
    job_of(name, found)
}

// Returns the job of a subcommand, from the options found for it.
//
// Returns `None` if no job has this name, or if a required option is missing or its number is out
// of range.
fn job_of<'a>(name: &str, found: &ArgMatches<'a>) -> Option<Job<'a>>
    ensures { Finds (AsksFor name.now (rows_in found.now)) result }
{
    match name {
        "create" => create_job(found),
        "serve" => serve_job(found),
        "grant" => grant_job(found),
        "draw" => draw_job(found),
        "void" => void_job(found),
        "query" => query_job(found),
        "withdraw" => withdraw_job(found),
        "notes" => notes_job(found),
        "again" => again_job(found),
        "report" => report_job(found),
        "info" => info_job(found),
        "audit" => audit_job(found),
        "copy" => copy_job(found),
        "loop" => Some(loop_job(found)),
        _ => None,
    }
}
