//! Builds the subcommand `notes`.
ghost use Rattle.std.specs.Prelude.{IfOk};
ghost use Rattle.s10_grammar.specs.Grammar.{ReadsAs, notes_shape};

use crate::builders::{named, number_option, text_option, with};
use clap::Command;
use std::alloc::{AllocError, Global};

/// Builds the subcommand `notes`, with its words, its options and its help.
///
/// # Errors
///
/// `AllocError` if memory is lacking.
pub fn notes_command<'a>(alloc: Global) -> Result<Command<'a>, AllocError>
    ensures { IfOk result (λ command. ReadsAs command notes_shape) }
{
    let command = named(
        alloc,
        "notes",
        "Create the notes of a client: a file with its numbers and its open request",
        NOTES_EXAMPLES,
    );
    let file = text_option(alloc, "file", "FILE", "The file of the new notes");
    let customer = number_option(
        alloc,
        "customer",
        "The number of the client's customer; 0 is the post",
    );
    let first = number_option(alloc, "first", "The first number that the client may use");
    let last = number_option(alloc, "last", "The last number that the client may use");
    let command = with(Ok(command), file);
    let command = with(command, customer);
    let command = with(command, first);
    with(command, last)
}

const NOTES_EXAMPLES: &str = "\
Prints `created`, with exit status 0. The clients of contrib/python and contrib/c use these notes.
No two clients of a customer may have a number in common. `refused numbers`, with status 1, says
that the first number is above the last. `notes FAULT`, with status 3, says that there are no new
notes: `taken` if a file is there already, `store` if the file cannot be written.

Example:
  s10 notes --file printer.notes --customer 7 --first 1 --last 999999
  created";
