//! Builds the subcommand `create`.
ghost use Rattle.std.specs.Prelude.{IfOk};
ghost use Rattle.s10_grammar.specs.Grammar.{ReadsAs, create_shape};

use crate::builders::{named, with};
use crate::options::{interval_option, ledger_option, limit_option};
use clap::Command;
use std::alloc::{AllocError, Global};

/// Builds the subcommand `create`, with its words, its options and its help.
///
/// # Errors
///
/// `AllocError` if memory is lacking.
pub fn create_command<'a>(alloc: Global) -> Result<Command<'a>, AllocError>
    ensures { IfOk result (λ command. ReadsAs command create_shape) }
{
    let command = named(
        alloc,
        "create",
        "Create an empty ledger in a file",
        CREATE_EXAMPLES,
    );
    let command = with(Ok(command), ledger_option(alloc));
    let command = with(command, interval_option(alloc).required(true));
    with(command, limit_option(alloc).required(true))
}

const CREATE_EXAMPLES: &str = "\
Prints `created`, with exit status 0, once the ledger is in the file, which is created if it does
not exist. The interval and the limit are kept in the ledger and never change. `ledger FAULT`, with
status 3, says that there is no new ledger: `not-empty` if the file has a ledger's tables already,
`memory` if memory ran out, `store` if the file cannot be opened or written.

Example:
  s10 create --ledger post.db --interval 365 --limit 1000000
  created";
