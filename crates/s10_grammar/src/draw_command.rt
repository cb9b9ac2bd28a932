//! Builds the subcommand `draw`.
ghost use Rattle.std.specs.Prelude.{IfOk};
ghost use Rattle.s10_grammar.specs.Grammar.{ReadsAs, draw_shape};

use crate::builders::{named, with};
use crate::options::{count_option, country_option, service_option, tries_option};
use crate::questions::with_asker;
use clap::Command;
use std::alloc::{AllocError, Global};

/// Builds the subcommand `draw`, with its words, its options and its help.
///
/// # Errors
///
/// `AllocError` if memory is lacking.
pub fn draw_command<'a>(alloc: Global) -> Result<Command<'a>, AllocError>
    ensures { IfOk result (λ command. ReadsAs command draw_shape) }
{
    let command = named(
        alloc,
        "draw",
        "Ask a server for the next identifier of a service and a country, or for a sheet of them",
        DRAW_EXAMPLES,
    );
    let command = with_asker(alloc, Ok(command));
    let command = with(command, service_option(alloc));
    let command = with(command, country_option(alloc));
    let command = with(command, count_option(alloc));
    with(command, tries_option(alloc))
}

const DRAW_EXAMPLES: &str = "\
Prints the reply: the request and `done day D ID`, with exit status 0, or why there is no
identifier, with status 1: `no-range` if the customer has no open range of that service and country,
`none-free` if no serial number of them is free on that day, `number-reused` if the customer has
asked for something else under this number. With --count the reply has that many identifiers, one
after another, and `none-free` says that fewer serial numbers are free: none is issued then.
`refused peer`, `refused service` or `refused country`, also with status 1, say that nothing was
asked. With status 3, `gave-up` says that no reply came, and `link FAULT` that the socket failed.
Repeat the command then; it draws at most once.

With --notes FILE instead of --customer and --number, the request gets the next number of the notes
(`s10 help notes`), and is written into them before it is sent. `refused unanswered`, with
status 1, then says that the request before has no reply yet: `s10 again` asks it again.
`refused numbers-spent` says that the notes have no number left. `notes FAULT`, with status 3, is as
`s10 help again` says.

Example:
  s10 draw --to 127.0.0.1:4711 --customer 7 --number 1 --service RA --country GB
  reply draw customer 7 number 1 RA GB done day 20000 RA000000005GB
  s10 draw --to 127.0.0.1:4711 --customer 7 --number 2 --service RA --country GB --count 2
  reply draw-many customer 7 number 2 RA GB 2 done day 20000 RA000000014GB RA000000028GB";
