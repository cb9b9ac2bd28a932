//! Builds the subcommand `again`.
ghost use Rattle.std.specs.Prelude.{IfOk};
ghost use Rattle.s10_grammar.specs.Grammar.{ReadsAs, again_shape};

use crate::builders::{named, text_option, with};
use crate::options::{to_option, tries_option};
use clap::Command;
use std::alloc::{AllocError, Global};

/// Builds the subcommand `again`, with its words, its options and its help.
///
/// # Errors
///
/// `AllocError` if memory is lacking.
pub fn again_command<'a>(alloc: Global) -> Result<Command<'a>, AllocError>
    ensures { IfOk result (λ command. ReadsAs command again_shape) }
{
    let command = named(
        alloc,
        "again",
        "Ask a server the open request of a client's notes again",
        AGAIN_EXAMPLES,
    );
    let notes = text_option(alloc, "notes", "FILE", "The file of the client's notes");
    let command = with(Ok(command), to_option(alloc));
    let command = with(command, notes);
    with(command, tries_option(alloc))
}

const AGAIN_EXAMPLES: &str = "\
A client writes a request into its notes before it sends it. This sends the request with its number
again, and prints the reply as `draw` and the other subcommands do, with their statuses. Then the
notes say that the reply has come. If it came before, the server repeats it and changes nothing.
`refused answered`, with status 1, says that no request is open. `refused peer` says that nothing
was asked. With status 3, `gave-up` says that no reply came, and `link FAULT` that the socket
failed: the request stays open. `notes FAULT` is also with status 3: `missing` if there is no such
file, `locked` if its client is running, `damaged` if it has no notes in it, `store` if it cannot
be read or written; after the line of a reply, that the request stays open.

Example:
  s10 again --to 127.0.0.1:4711 --notes printer.notes
  reply draw customer 7 number 2 RA GB done day 20000 RA000000014GB";
