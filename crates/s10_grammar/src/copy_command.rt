//! Builds the subcommand `copy`.
ghost use Rattle.std.specs.Prelude.{IfOk};
ghost use Rattle.s10_grammar.specs.Grammar.{ReadsAs, copy_shape};

use crate::builders::{named, text_option, with};
use crate::options::ledger_option;
use clap::Command;
use std::alloc::{AllocError, Global};

/// Builds the subcommand `copy`, with its words, its options and its help.
///
/// # Errors
///
/// `AllocError` if memory is lacking.
pub fn copy_command<'a>(alloc: Global) -> Result<Command<'a>, AllocError>
    ensures { IfOk result (λ command. ReadsAs command copy_shape) }
{
    let command = named(
        alloc,
        "copy",
        "Copy the ledger in a file, also while it is served, and check the copy against the rules",
        COPY_EXAMPLES,
    );
    let to = text_option(
        alloc,
        "to",
        "FILE",
        "The file of the copy, which must not exist",
    );
    let command = with(Ok(command), ledger_option(alloc));
    with(command, to)
}

const COPY_EXAMPLES: &str = "\
Reads the ledger's two files, without locking or changing them, and writes a new pair: the copy, and
its log with the name of the copy and `-wal`. Keep the two together. Every reply that was sent
before is in the copy. Then reads the copy again and checks it as `audit` does. Prints `copied N`,
where N is the number of kept requests, with exit status 0. `refused taken`, with status 1, says
that a file has one of the two names. Else prints, with status 3, `ledger` and a fault: `busy` if
the ledger changed too much in each of ten readings, `store` if a file cannot be read or written,
or a fault of `audit`.

Example:
  s10 copy --ledger post.db --to backup.db
  copied 9";
