//! Builds the subcommand `void`.
ghost use Rattle.std.specs.Prelude.{IfOk};
ghost use Rattle.s10_grammar.specs.Grammar.{ReadsAs, void_shape};

use crate::builders::{named, with};
use crate::options::{id_option, tries_option};
use crate::questions::with_asker;
use clap::Command;
use std::alloc::{AllocError, Global};

/// Builds the subcommand `void`, with its words, its options and its help.
///
/// # Errors
///
/// `AllocError` if memory is lacking.
pub fn void_command<'a>(alloc: Global) -> Result<Command<'a>, AllocError>
    ensures { IfOk result (λ command. ReadsAs command void_shape) }
{
    let command = named(
        alloc,
        "void",
        "Void an identifier that will not be used",
        VOID_EXAMPLES,
    );
    let command = with_asker(alloc, Ok(command));
    let command = with(command, id_option(alloc));
    with(command, tries_option(alloc))
}

const VOID_EXAMPLES: &str = "\
Prints the reply: the request and `done`, with exit status 0, or why it was not done, with status 1:
`not-yours` if the identifier is in none of the customer's ranges, `not-issued` if it was never
issued, `already-void` if it is void, `number-reused` if the customer has asked for something else
under this number. `refused peer`, or `refused` with `length`, `letter AT`, `digit AT` or
`check-digit`, also with status 1, say that nothing was asked. With status 3, `gave-up` says that no
reply came, and `link FAULT` that the socket failed. Repeat the command then.

--notes FILE replaces --customer and --number; see `s10 help draw`.

Example:
  s10 void --to 127.0.0.1:4711 --customer 7 --number 3 --id RA000000005GB
  reply void customer 7 number 3 RA000000005GB done";
