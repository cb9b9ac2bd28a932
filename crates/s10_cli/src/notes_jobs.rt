//! Reads the jobs of a command line over notes that send no new request: `notes` and `again`.
ghost use Rattle.std.specs.Prelude.{codes};
ghost use Rattle.s10_cli.specs.Options.{rows_in, Finds};
ghost use Rattle.s10_cli.specs.Jobs.{AsksFor};

use crate::option_values::{number_of, text_of, tries_of};
use clap::ArgMatches;
use s10_jobs::Job;

/// Returns the creation of notes that the words of `notes` ask for.
///
/// Returns `None` if a required option is missing or its number is out of range. Neither occurs in
/// a command line that `parse` accepted.
pub fn notes_job<'a>(found: &ArgMatches<'a>) -> Option<Job<'a>>
    ensures { Finds (AsksFor (codes "notes") (rows_in found.now)) result }
{
    Some(Job::Notes {
        file: text_of(found, "file")?,
        customer: number_of(found, "customer")?,
        first: number_of(found, "first")?,
        last: number_of(found, "last")?,
    })
}

/// Returns the repeat of an open request that the words of `again` ask for.
///
/// Returns `None` if a required option is missing or its number is out of range. Neither occurs in
/// a command line that `parse` accepted.
pub fn again_job<'a>(found: &ArgMatches<'a>) -> Option<Job<'a>>
    ensures { Finds (AsksFor (codes "again") (rows_in found.now)) result }
{
    Some(Job::Again {
        to: text_of(found, "to")?,
        notes: text_of(found, "notes")?,
        tries: tries_of(found)?,
    })
}
