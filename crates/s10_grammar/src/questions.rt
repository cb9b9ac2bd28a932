//! Builds the subcommands that call a server.
ghost use Rattle.std.specs.Prelude.{[], ◌∷◌, codes};
ghost use Rattle.s10_grammar.specs.Grammar.{AddsRules, a_count, a_text, an_option};

use crate::builders::with;
use crate::options::{customer_option, notes_option, request_option, to_option};
use clap::Command;
use std::alloc::{AllocError, Global};

/// Adds the options of a request to a server.
///
/// # Errors
///
/// `AllocError` if `command` is that error, or if memory is lacking.
pub fn with_request<'a>(
    alloc: Global,
    command: Result<Command<'a>, AllocError>,
) -> Result<Command<'a>, AllocError>
    ensures { AddsRules command.entry (a_text (codes "to") ∷ a_count (codes "number")
        ∷ an_option (codes "notes") ∷ []) result }
{
    let command = with(command, to_option(alloc));
    let command = with(command, request_option(alloc));
    with(command, notes_option(alloc))
}

/// Adds the options of a request by a customer.
///
/// # Errors
///
/// `AllocError` if `command` is that error, or if memory is lacking.
pub fn with_asker<'a>(
    alloc: Global,
    command: Result<Command<'a>, AllocError>,
) -> Result<Command<'a>, AllocError>
    ensures { AddsRules command.entry (a_text (codes "to") ∷ a_count (codes "customer")
        ∷ a_count (codes "number") ∷ an_option (codes "notes") ∷ []) result }
{
    let command = with(command, to_option(alloc));
    let command = with(command, customer_option(alloc));
    let command = with(command, request_option(alloc));
    with(command, notes_option(alloc))
}
