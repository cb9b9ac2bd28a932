//! Builds the subcommand `withdraw`.
ghost use Rattle.std.specs.Prelude.{IfOk};
ghost use Rattle.s10_grammar.specs.Grammar.{ReadsAs, withdraw_shape};

use crate::builders::{named, number_option, with};
use crate::options::tries_option;
use crate::questions::with_request;
use clap::Command;
use std::alloc::{AllocError, Global};

/// Builds the subcommand `withdraw`, with its words, its options and its help.
///
/// # Errors
///
/// `AllocError` if memory is lacking.
pub fn withdraw_command<'a>(alloc: Global) -> Result<Command<'a>, AllocError>
    ensures { IfOk result (λ command. ReadsAs command withdraw_shape) }
{
    let command = named(
        alloc,
        "withdraw",
        "Ask a server, as the post, to close a range for ever",
        WITHDRAW_EXAMPLES,
    );
    let command = with_request(alloc, Ok(command));
    let command = with(
        command,
        number_option(
            alloc,
            "range",
            "The number of the range to close, as its grant was answered with",
        ),
    );
    with(command, tries_option(alloc))
}

const WITHDRAW_EXAMPLES: &str = "\
From a closed range no identifier is issued again, and nothing opens it: its serial numbers stay
taken. The identifiers that were issued from it can still be voided and asked about.

Prints the reply: the request and `done`, with exit status 0, or why nothing was closed, with status
1: `no-such-range` if no range has the number, `closed` if it is closed already, `number-reused` if
the post has asked for something else under this number. `refused peer`, also with status 1, says
that nothing was asked. With status 3, `gave-up` says that no reply came, and `link FAULT` that the
socket failed. Repeat the command then; it closes at most once.

--notes FILE replaces --number; see `s10 help draw`.

Example:
  s10 withdraw --to 127.0.0.1:4711 --number 2 --range 1
  reply withdraw customer 0 number 2 1 done";
