//! Builds the grammar of the command line, and parses words by it.
ghost use Rattle.std.specs.Prelude.{◌≡◌, [], true, map, IfOk};
ghost use Rattle.clap.specs.declared.builder.command.Command.TheViews.{out-Command as fields_of};
ghost use Rattle.s10_grammar.specs.Grammar.{Parses, Reads, grammar, top_shape};

use crate::again_command::again_command;
use crate::audit_command::audit_command;
use crate::builders::{named, with_subcommand};
use crate::check_command::check_command;
use crate::copy_command::copy_command;
use crate::create_command::create_command;
use crate::draw_command::draw_command;
use crate::grant_command::grant_command;
use crate::info_command::info_command;
use crate::loop_command::loop_command;
use crate::make_command::make_command;
use crate::notes_command::notes_command;
use crate::query_command::query_command;
use crate::replay_command::replay_command;
use crate::report_command::report_command;
use crate::serve_command::serve_command;
use crate::show_command::show_command;
use crate::void_command::void_command;
use crate::withdraw_command::withdraw_command;
use clap::{ArgMatches, Command, Error};
use std::alloc::{AllocError, Global};
use std::convert::AsStr;

const VERSION: &str = "0.2.0";

const STATUSES: &str = "\
Exit status: 0 done; 1 a text, an input line or, by a rule, a request is refused; 2 the words are no
command line; 3 no reply came, or a link, a ledger, the clock, memory, input or output failed. `s10
help COMMAND` explains a command, with examples.";

/// Builds the command `s10` with all its subcommands.
///
/// # Errors
///
/// `AllocError` if memory is lacking.
pub fn command<'a>(alloc: Global) -> Result<Command<'a>, AllocError>
    ensures { IfOk result (λ command. Reads command grammar) }
{
    let command = Ok(program(alloc));
    let command = with_subcommand(command, check_command(alloc));
    let command = with_subcommand(command, make_command(alloc));
    let command = with_subcommand(command, show_command(alloc));
    let command = with_subcommand(command, replay_command(alloc));
    let command = with_subcommand(command, create_command(alloc));
    let command = with_subcommand(command, serve_command(alloc));
    let command = with_subcommand(command, grant_command(alloc));
    let command = with_subcommand(command, draw_command(alloc));
    let command = with_subcommand(command, void_command(alloc));
    let command = with_subcommand(command, query_command(alloc));
    let command = with_subcommand(command, withdraw_command(alloc));
    let command = with_subcommand(command, notes_command(alloc));
    let command = with_subcommand(command, again_command(alloc));
    let command = with_subcommand(command, report_command(alloc));
    let command = with_subcommand(command, info_command(alloc));
    let command = with_subcommand(command, audit_command(alloc));
    let command = with_subcommand(command, copy_command(alloc));
    with_subcommand(command, loop_command(alloc))
}

fn program<'a>(alloc: Global) -> Command<'a>
    ensures { Reads result (record { top = top_shape; subs = [] }) }
{
    let about = "Issue S10 identifiers of postal items, as RA473124829US, and check them";
    with_help_by_default(with_required_subcommand(named(alloc, "s10", about, STATUSES))).version(
        VERSION,
    )
}

fn with_required_subcommand<'a>(command: Command<'a>) -> Command<'a>
    ensures { fields_of result ≡ record (fields_of command.entry) { subcommand_required = true } }
{
    command.subcommand_required(true)
}

// Without words, the command prints its help.
fn with_help_by_default<'a>(command: Command<'a>) -> Command<'a>
    ensures { fields_of result ≡ record (fields_of command.entry) {
      arg_required_else_help =
          true;
    } }
{
    command.arg_required_else_help(true)
}

/// Parses the words of a command line, which begin with the program's name.
///
/// # Errors
///
/// - An error of kind `OutOfMemory` if memory is lacking.
/// - Otherwise, a fault that `clap` gives for these words. Help and the version are errors too.
pub fn parse<'a, S: AsStr>(alloc: Global, words: &'a [S]) -> Result<ArgMatches<'a>, Error>
    ensures { Parses (map S.text words.entry.now) result }
{
    let command = command(alloc)?;
    command.try_get_matches_from(words)
}
