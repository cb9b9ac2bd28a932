//! Builds the subcommand `make`.
ghost use Rattle.std.specs.Prelude.{IfOk};
ghost use Rattle.s10_grammar.specs.Grammar.{ReadsAs, make_shape};

use crate::builders::{named, with, words};
use clap::Command;
use std::alloc::{AllocError, Global};

/// Builds the subcommand `make`, with its words, its options and its help.
///
/// # Errors
///
/// `AllocError` if memory is lacking.
pub fn make_command<'a>(alloc: Global) -> Result<Command<'a>, AllocError>
    ensures { IfOk result (λ command. ReadsAs command make_shape) }
{
    let command = named(
        alloc,
        "make",
        "Write the identifier of these parts, with its check digit",
        MAKE_EXAMPLES,
    );
    with(
        Ok(command),
        words(
            alloc,
            "parts",
            &["SERVICE", "SERIAL", "COUNTRY"],
            "The service indicator, two capital letters as RA; the serial number, eight digits; and \
             the country code, two capital letters as GB; without them, lines of standard input",
        ),
    )
}

const MAKE_EXAMPLES: &str = "\
Prints the 13 characters, or `refused service`, `refused serial` or `refused country`: the first
part that is wrong. The exit status is 0 for an identifier and 1 for a refused part.

Without the three parts it reads them from each line of standard input, with one space between two
of them, and prints one line for each, in order. A part that a line lacks is read as an empty one.
The exit status is 1 if any was refused. A carriage return at the end of a line is ignored. `refused
line N`, with exit status 1, says that line N has more than 1036 bytes or is past 1000000 lines, and
nothing after it is read; `input`, with status 3, that the input could not be read.

Examples:
  s10 make RA 47312482 US   RA473124829US
  s10 make RA 1234567 GB    refused serial
  s10 make < parts > made   a line in `made` for each line in `parts`";
