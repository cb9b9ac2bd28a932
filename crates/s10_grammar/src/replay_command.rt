//! Builds the subcommand `replay`.
ghost use Rattle.std.specs.Prelude.{IfOk};
ghost use Rattle.s10_grammar.specs.Grammar.{ReadsAs, replay_shape};

use crate::builders::{named, with};
use crate::options::{interval_option, limit_option};
use clap::Command;
use std::alloc::{AllocError, Global};

/// Builds the subcommand `replay`, with its words, its options and its help.
///
/// # Errors
///
/// `AllocError` if memory is lacking.
pub fn replay_command<'a>(alloc: Global) -> Result<Command<'a>, AllocError>
    ensures { IfOk result (λ command. ReadsAs command replay_shape) }
{
    let command = named(
        alloc,
        "replay",
        "Answer the datagrams of standard input, with an empty ledger to begin with",
        REPLAY_EXAMPLES,
    );
    let command = with(Ok(command), interval_option(alloc).default_value("30"));
    with(command, limit_option(alloc).default_value("1000000"))
}

const REPLAY_EXAMPLES: &str = "\
Each line of the input is DAY, one space, HEX: the day as a number up to 4294967295, and the bytes
of a datagram, two hexadecimal digits each. For each the reply is printed in hexadecimal digits, or
`dropped` and what is wrong with the datagram, or `faulted` with `memory` or `full`. An empty line
is ignored. A line of any other form ends the replay with `refused line N` and exit status 1. With
status 3, `input` says that the input could not be read, and standard error says why; `output` says
that the output failed, and `memory` that memory ran out.

Example:
  printf '20000 53310102000000070000000152414742\\n' | s10 replay
  5331018200000007000000015241474204

The reply says that customer 7 has no range of RA GB: `s10 show` prints it in words.";
