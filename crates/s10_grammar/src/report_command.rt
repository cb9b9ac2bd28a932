//! Builds the subcommand `report`.
ghost use Rattle.std.specs.Prelude.{IfOk};
ghost use Rattle.s10_grammar.specs.Grammar.{ReadsAs, report_shape};

use crate::builders::{flag, named, with};
use crate::filters::with_filters;
use crate::options::{day_option, ledger_option, snapshot_option};
use clap::Command;
use std::alloc::{AllocError, Global};

/// Builds the subcommand `report`, with its words, its options and its help.
///
/// # Errors
///
/// `AllocError` if memory is lacking.
pub fn report_command<'a>(alloc: Global) -> Result<Command<'a>, AllocError>
    ensures { IfOk result (λ command. ReadsAs command report_shape) }
{
    let command = named(
        alloc,
        "report",
        "Report the ranges of the ledger in a file, or the identifiers issued",
        REPORT_EXAMPLES,
    );
    let command = with(Ok(command), ledger_option(alloc));
    let command = with(command, snapshot_option(alloc));
    let command = with(
        command,
        flag(
            alloc,
            "issues",
            "Report the identifiers issued instead of the ranges",
        ),
    );
    let command = with(
        command,
        flag(
            alloc,
            "csv",
            "Write records with commas (RFC 4180), with each day also as a date",
        ),
    );
    let command = with_filters(alloc, command);
    with(
        command,
        day_option(
            alloc,
            "The day on which serial numbers are counted as free; by default the clock's day",
        ),
    )
}

const REPORT_EXAMPLES: &str = "\
Prints a line of headings, and a line for each range in order of their numbers: its serial numbers
ever issued, those that are void, and those that are free on the day, or on the ledger's last day if
that is later; the line of a withdrawn range ends with `closed`. With --issues, a line for each
identifier issued, in order of arrival: `issued` or `voided` if it was not issued again, else
`reissued`. --customer, --range, --id, --from-day and --to-day may be combined: only the lines that
agree with all of them are printed. The days are those of issues, so each of the two asks for the
identifiers issued, as --issues does. With --csv, a record of headings and a record for each range:
whether it is closed, and the day on which free is counted, as a number and as a date; or a record
for each identifier issued, with its range. The exit status is 0. With status 3, `ledger FAULT` says
that the ledger could not be opened, `faulted FAULT` or `output` that the report ends early, and
`clock` that the clock gives no day. With --snapshot, nothing is locked or written, and every reply
that was sent before is in the report; `ledger busy`, with status 3, says that the ledger changed
too much in each of ten readings.

Examples:
  s10 report --ledger post.db --day 20030
  range customer service country first last used voided free
  1 7 RA GB 00000000 00000002 3 0 1

  s10 report --ledger post.db --snapshot --day 20030
  range customer service country first last used voided free
  1 7 RA GB 00000000 00000002 3 0 1

  s10 report --ledger post.db --issues --customer 7 --from-day 20020 --to-day 20030 --csv
  arrival,day,date,customer,number,identifier,range,state
  6,20030,2024-11-03,7,5,RA000000028GB,1,issued";
