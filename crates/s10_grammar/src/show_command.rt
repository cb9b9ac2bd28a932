//! Builds the subcommand `show`.
ghost use Rattle.std.specs.Prelude.{IfOk};
ghost use Rattle.s10_grammar.specs.Grammar.{ReadsAs, show_shape};

use crate::builders::{named, with, word};
use clap::Command;
use std::alloc::{AllocError, Global};

/// Builds the subcommand `show`, with its words, its options and its help.
///
/// # Errors
///
/// `AllocError` if memory is lacking.
pub fn show_command<'a>(alloc: Global) -> Result<Command<'a>, AllocError>
    ensures { IfOk result (λ command. ReadsAs command show_shape) }
{
    let command = named(
        alloc,
        "show",
        "Show the request or the reply that a datagram carries",
        SHOW_EXAMPLES,
    );
    with(
        Ok(command),
        word(
            alloc,
            "hex",
            "HEX",
            "The bytes of the datagram, two hexadecimal digits each, at most 512 bytes; without it, \
             lines of standard input",
        ),
    )
}

const SHOW_EXAMPLES: &str = "\
Prints the line of the request, or of the reply and its outcome. Bytes whose fourth is 80 or more
are read as a reply, any other as a request. Else it prints `refused hex`, or `refused` and what is
wrong with the datagram: `short`, `magic`, `version`, `kind`, `length`, `field AT` or `outcome`,
where AT is the offset of the leftmost wrong field. The exit status is 0 for a datagram, else 1.

Without HEX it shows each line of standard input and prints one line for each, in order. The exit
status is 1 if any was refused. A carriage return at the end of a line is ignored. `refused line N`,
with exit status 1, says that line N has more than 1036 bytes or is past 1000000 lines, and nothing
after it is read; `input`, with status 3, that the input could not be read.

Examples:
  s10 show 53310102000000070000000152414742   request draw customer 7 number 1 RA GB
  s10 show 5331                               refused short
  s10 show < datagrams > shown                a line in `shown` for each line in `datagrams`";
