//! Builds the subcommand `grant`.
ghost use Rattle.std.specs.Prelude.{IfOk};
ghost use Rattle.s10_grammar.specs.Grammar.{ReadsAs, grant_shape};

use crate::builders::{named, number_option, serial_option, with};
use crate::options::{country_option, service_option, tries_option};
use crate::questions::with_request;
use clap::Command;
use std::alloc::{AllocError, Global};

/// Builds the subcommand `grant`, with its words, its options and its help.
///
/// # Errors
///
/// `AllocError` if memory is lacking.
pub fn grant_command<'a>(alloc: Global) -> Result<Command<'a>, AllocError>
    ensures { IfOk result (λ command. ReadsAs command grant_shape) }
{
    let command = named(
        alloc,
        "grant",
        "Ask a server, as the post, to grant a range of serial numbers to a customer",
        GRANT_EXAMPLES,
    );
    let command = with_request(alloc, Ok(command));
    let command = with(
        command,
        number_option(alloc, "holder", "The number of the customer to grant to"),
    );
    let command = with(command, service_option(alloc));
    let command = with(command, country_option(alloc));
    let command = with(
        command,
        serial_option(alloc, "first", "The first serial number, 0 to 99999999"),
    );
    let command = with(
        command,
        serial_option(alloc, "last", "The last serial number, 0 to 99999999"),
    );
    with(command, tries_option(alloc))
}

const GRANT_EXAMPLES: &str = "\
Prints the reply: the request and `done range R`, with exit status 0, or why nothing was granted,
with status 1: `bad-grant` if the holder is 0 or the first number is above the last, `overlap` if a
range of that service and country has one of the numbers, `number-reused` if the post has asked for
something else under this number. `refused peer`, `refused service` or `refused country`, also with
status 1, say that nothing was asked. With status 3, `gave-up` says that no reply came, and
`link FAULT` that the socket failed. Repeat the command then; it grants at most once.

--notes FILE replaces --number; see `s10 help draw`.

Example:
  s10 grant --to 127.0.0.1:4711 --number 1 --holder 7 --service RA --country GB --first 0 --last 2
  reply grant customer 0 number 1 holder 7 RA GB 00000000 00000002 done range 1";
