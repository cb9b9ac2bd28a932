//! Builds the subcommand `loop`.
ghost use Rattle.std.specs.Prelude.{IfOk};
ghost use Rattle.s10_grammar.specs.Grammar.{ReadsAs, loop_shape};

use crate::builders::{named, with};
use crate::options::day_option;
use clap::Command;
use std::alloc::{AllocError, Global};

/// Builds the subcommand `loop`, with its words, its options and its help.
///
/// # Errors
///
/// `AllocError` if memory is lacking.
pub fn loop_command<'a>(alloc: Global) -> Result<Command<'a>, AllocError>
    ensures { IfOk result (λ command. ReadsAs command loop_shape) }
{
    let command = named(
        alloc,
        "loop",
        "Show a server and its customers on this machine, over real sockets",
        LOOP_EXAMPLES,
    );
    with(
        Ok(command),
        day_option(alloc, "The day of the requests; by default the clock's day"),
    )
}

const LOOP_EXAMPLES: &str = "\
Creates a ledger in memory, serves it on the loopback, and asks it five times: the post grants three
serial numbers to customer 7, who draws two identifiers, voids the first and asks about it. Prints
the five replies, with exit status 0. With status 3, `clock` says that the clock gives no day,
`link FAULT` that a socket failed, `gave-up` that no reply came, and `memory` or `ledger FAULT` that
there was no ledger.

Example:
  s10 loop --day 20000
  reply grant customer 0 number 1 holder 7 RA GB 00000000 00000002 done range 1
  reply draw customer 7 number 1 RA GB done day 20000 RA000000005GB
  reply draw customer 7 number 2 RA GB done day 20000 RA000000014GB
  reply void customer 7 number 3 RA000000005GB done
  reply query customer 7 number 4 RA000000005GB done voided 20000";
