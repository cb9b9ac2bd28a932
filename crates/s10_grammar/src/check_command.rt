//! Builds the subcommand `check`.
ghost use Rattle.std.specs.Prelude.{IfOk};
ghost use Rattle.s10_grammar.specs.Grammar.{ReadsAs, check_shape};

use crate::builders::{flag, named, with, word};
use clap::Command;
use std::alloc::{AllocError, Global};

/// Builds the subcommand `check`, with its words, its options and its help.
///
/// # Errors
///
/// `AllocError` if memory is lacking.
pub fn check_command<'a>(alloc: Global) -> Result<Command<'a>, AllocError>
    ensures { IfOk result (λ command. ReadsAs command check_shape) }
{
    let command = named(
        alloc,
        "check",
        "Check an identifier, and name the group of its service indicator",
        CHECK_EXAMPLES,
    );
    let command = with(
        Ok(command),
        flag(
            alloc,
            "label",
            "Also read spaces and small letters, as they stand on a label",
        ),
    );
    with(
        command,
        word(
            alloc,
            "text",
            "TEXT",
            "The identifier: 13 characters, as RA473124829US; without it, lines of standard input",
        ),
    )
}

const CHECK_EXAMPLES: &str = "\
Prints the identifier, `valid` and its group (parcel, ems, registered, insured or other), or
`refused` and why: `length`, `letter AT`, `digit AT` or `check-digit`, where AT is the leftmost
wrong place, counted from 0. The exit status is 0 for a valid identifier and 1 for a refused text.

Without TEXT it checks each line of standard input and prints one line for each, in order. The exit
status is 1 if any was refused. A carriage return at the end of a line is ignored. `refused line N`,
with exit status 1, says that line N has more than 1036 bytes or is past 1000000 lines, and nothing
after it is read; `input`, with status 3, that the input could not be read.

Examples:
  s10 check RA473124829US                 RA473124829US valid registered
  s10 check --label 'ra 473 124 829 us'   RA473124829US valid registered
  s10 check RA473124828US                 refused check-digit
  s10 check --label < labels > checked    a line in `checked` for each line in `labels`";
