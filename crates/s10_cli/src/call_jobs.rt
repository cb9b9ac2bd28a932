//! Reads the jobs of a command line that call a server with a request: `grant`, `draw`, `void`,
//! `query` and `withdraw`.
ghost use Rattle.std.specs.Prelude.{codes};
ghost use Rattle.s10_cli.specs.Options.{rows_in, Finds, IsAsker};
ghost use Rattle.s10_cli.specs.Jobs.{AsksFor};

use crate::option_values::{POST, count_of, number_of, serial_of, text_of, tries_of};
use clap::ArgMatches;
use s10_jobs::{Asker, BodyWords, Job, Question};

/// Returns the request for a grant that the words of `grant` ask for.
///
/// Returns `None` if the options give the request no number, or notes beside one. Otherwise no option
/// is missing or out of range in a command line that `parse` accepted.
pub fn grant_job<'a>(found: &ArgMatches<'a>) -> Option<Job<'a>>
    ensures { Finds (AsksFor (codes "grant") (rows_in found.now)) result }
{
    let body = BodyWords::Grant {
        holder: number_of(found, "holder")?,
        service: text_of(found, "service")?,
        country: text_of(found, "country")?,
        first: serial_of(found, "first")?,
        last: serial_of(found, "last")?,
    };
    Some(Job::Ask(Question {
        to: text_of(found, "to")?,
        asker: asker_of(found, true)?,
        body,
        tries: tries_of(found)?,
    }))
}

/// Returns the request for one identifier or a sheet that the words of `draw` ask for.
///
/// Returns `None` if the options give the request no number, or notes beside one. Otherwise no option
/// is missing or out of range in a command line that `parse` accepted.
pub fn draw_job<'a>(found: &ArgMatches<'a>) -> Option<Job<'a>>
    ensures { Finds (AsksFor (codes "draw") (rows_in found.now)) result }
{
    let service = text_of(found, "service")?;
    let country = text_of(found, "country")?;
    let body = match count_of(found) {
        None => BodyWords::Draw { service, country },
        Some(count) => BodyWords::DrawMany {
            service,
            country,
            count,
        },
    };
    Some(Job::Ask(Question {
        to: text_of(found, "to")?,
        asker: asker_of(found, false)?,
        body,
        tries: tries_of(found)?,
    }))
}

/// Returns the request to void an identifier that the words of `void` ask for.
///
/// Returns `None` if the options give the request no number, or notes beside one. Otherwise no option
/// is missing or out of range in a command line that `parse` accepted.
pub fn void_job<'a>(found: &ArgMatches<'a>) -> Option<Job<'a>>
    ensures { Finds (AsksFor (codes "void") (rows_in found.now)) result }
{
    let body = BodyWords::Void {
        id: text_of(found, "id")?,
    };
    Some(Job::Ask(Question {
        to: text_of(found, "to")?,
        asker: asker_of(found, false)?,
        body,
        tries: tries_of(found)?,
    }))
}

/// Returns the query of an identifier that the words of `query` ask for.
///
/// Returns `None` if the options give the request no number, or notes beside one. Otherwise no option
/// is missing or out of range in a command line that `parse` accepted.
pub fn query_job<'a>(found: &ArgMatches<'a>) -> Option<Job<'a>>
    ensures { Finds (AsksFor (codes "query") (rows_in found.now)) result }
{
    let body = BodyWords::Query {
        id: text_of(found, "id")?,
    };
    Some(Job::Ask(Question {
        to: text_of(found, "to")?,
        asker: asker_of(found, false)?,
        body,
        tries: tries_of(found)?,
    }))
}

/// Returns the request to withdraw a range that the words of `withdraw` ask for.
///
/// Returns `None` if the options give the request no number, or notes beside one. Otherwise no option
/// is missing or out of range in a command line that `parse` accepted.
pub fn withdraw_job<'a>(found: &ArgMatches<'a>) -> Option<Job<'a>>
    ensures { Finds (AsksFor (codes "withdraw") (rows_in found.now)) result }
{
    let body = BodyWords::Withdraw {
        range: number_of(found, "range")?,
    };
    Some(Job::Ask(Question {
        to: text_of(found, "to")?,
        asker: asker_of(found, true)?,
        body,
        tries: tries_of(found)?,
    }))
}

// Returns what gives a request its number: either notes, or a number and a customer.
fn asker_of<'a>(found: &ArgMatches<'a>, is_post: bool) -> Option<Asker<'a>>
    ensures { Finds (IsAsker is_post (rows_in found.now)) result }
{
    let named = number_of(found, "customer");
    let number = number_of(found, "number");
    let customer = if is_post { Some(POST) } else { named };
    match (text_of(found, "notes"), number) {
        (None, Some(number)) => Some(Asker::Numbered {
            customer: customer?,
            number,
        }),
        (Some(notes), None) if named.is_none() => Some(Asker::Noted(notes)),
        _ => None,
    }
}
