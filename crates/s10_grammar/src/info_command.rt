//! Builds the subcommand `info`.
ghost use Rattle.std.specs.Prelude.{IfOk};
ghost use Rattle.s10_grammar.specs.Grammar.{ReadsAs, info_shape};

use crate::builders::{named, with};
use crate::options::{day_option, ledger_option, snapshot_option};
use clap::Command;
use std::alloc::{AllocError, Global};

/// Builds the subcommand `info`, with its words, its options and its help.
///
/// # Errors
///
/// `AllocError` if memory is lacking.
pub fn info_command<'a>(alloc: Global) -> Result<Command<'a>, AllocError>
    ensures { IfOk result (λ command. ReadsAs command info_shape) }
{
    let command = named(
        alloc,
        "info",
        "Report the settings and the totals of the ledger in a file",
        INFO_EXAMPLES,
    );
    let command = with(Ok(command), ledger_option(alloc));
    let command = with(command, snapshot_option(alloc));
    with(
        command,
        day_option(
            alloc,
            "The day on which serial numbers are counted as free; by default the clock's day",
        ),
    )
}

const INFO_EXAMPLES: &str = "\
Prints a word and a number on each line: the schema, the reuse interval in days, the limit, the
calls kept, the day of the last call (0 without one), the ranges, those that are closed, the serial
numbers ever issued (used), those that are void, and those that are free on the day, or on the
ledger's last day if that is later. Free counts no serial number of a closed range. The exit status
is 0. With status 3, `ledger FAULT` says that the ledger could not be opened, `faulted FAULT` or
`output` that the lines end early, and `clock` that the clock gives no day.
With --snapshot, nothing is locked or written, and every reply that was sent before is counted;
`ledger busy`, with status 3, says that the ledger changed too much in each of ten readings.

Example:
  s10 info --ledger post.db --day 20030
  schema 1
  interval 30
  limit 1000
  calls 9
  last-day 20030
  ranges 1
  closed 0
  used 3
  voided 0
  free 1";
