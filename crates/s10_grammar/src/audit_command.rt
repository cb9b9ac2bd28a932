//! Builds the subcommand `audit`.
ghost use Rattle.std.specs.Prelude.{IfOk};
ghost use Rattle.s10_grammar.specs.Grammar.{ReadsAs, audit_shape};

use crate::builders::{named, with};
use crate::options::{ledger_option, snapshot_option};
use clap::Command;
use std::alloc::{AllocError, Global};

/// Builds the subcommand `audit`, with its words, its options and its help.
///
/// # Errors
///
/// `AllocError` if memory is lacking.
pub fn audit_command<'a>(alloc: Global) -> Result<Command<'a>, AllocError>
    ensures { IfOk result (λ command. ReadsAs command audit_shape) }
{
    let command = named(
        alloc,
        "audit",
        "Check the ledger in a file against the rules, from its first request to its last",
        AUDIT_EXAMPLES,
    );
    let command = with(Ok(command), ledger_option(alloc));
    with(command, snapshot_option(alloc))
}

const AUDIT_EXAMPLES: &str = "\
Executes all kept requests again and compares every table with the rows that follow from them.
Prints `ledger ok N`, where N is the number of kept requests, with exit status 0, or `ledger FAULT`,
with status 3: `not-a-ledger` if the file has no ledger, `schema N` if its schema has another
number, `damaged N` if the N-th kept request is the first that is wrong, `damaged 0` if all are
right and another row is not, `memory` if memory ran out, `store` if the file cannot be opened or
read. With --snapshot, nothing is locked or written, and every reply that was sent before is
counted; `busy` then says that the ledger changed too much in each of ten readings.

Examples:
  s10 audit --ledger post.db
  ledger ok 9
  s10 audit --ledger post.db --snapshot
  ledger ok 9";
