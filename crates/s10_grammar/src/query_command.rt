//! Builds the subcommand `query`.
ghost use Rattle.std.specs.Prelude.{IfOk};
ghost use Rattle.s10_grammar.specs.Grammar.{ReadsAs, query_shape};

use crate::builders::{named, with};
use crate::options::{id_option, tries_option};
use crate::questions::with_asker;
use clap::Command;
use std::alloc::{AllocError, Global};

/// Builds the subcommand `query`, with its words, its options and its help.
///
/// # Errors
///
/// `AllocError` if memory is lacking.
pub fn query_command<'a>(alloc: Global) -> Result<Command<'a>, AllocError>
    ensures { IfOk result (λ command. ReadsAs command query_shape) }
{
    let command = named(
        alloc,
        "query",
        "Ask a server what became of an identifier",
        QUERY_EXAMPLES,
    );
    let command = with_asker(alloc, Ok(command));
    let command = with(command, id_option(alloc));
    with(command, tries_option(alloc))
}

const QUERY_EXAMPLES: &str = "\
Prints the reply: the request and `done` with `never` (never issued), `issued D` or `voided D` (D is
the day of its last issue) or, to the post alone, `unknown` (in no range), with exit status 0. With
status 1, `not-yours` says that the identifier is in none of the customer's ranges, and
`number-reused` that the customer has asked for something else under this number. `refused peer`, or
`refused` with `length`, `letter AT`, `digit AT` or `check-digit`, also with status 1, say that
nothing was asked. With status 3, `gave-up` says that no reply came, and `link FAULT` that the
socket failed. A query is kept with its reply: to ask again, take a new number.

--notes FILE replaces --customer and --number; see `s10 help draw`.

Example:
  s10 query --to 127.0.0.1:4711 --customer 7 --number 4 --id RA000000005GB
  reply query customer 7 number 4 RA000000005GB done voided 20000";
