//! Builds commands and their arguments.
ghost use Rattle.std.specs.Prelude.{◌≡◌, Some, length};
ghost use Rattle.clap.specs.Words.{new_app};
ghost use Rattle.clap.specs.declared.builder.texts.Texts.TheVariants.{One};
ghost use Rattle.s10_grammar.specs.Grammar.{AddsCommand, AddsRule, Follows, Reads, a_flag};
ghost use Rattle.s10_grammar.specs.Grammar.{a_number, a_text, an_option, between};
ghost use Rattle.s10_grammar.specs.Grammar.{words_or_none};

use clap::{Arg, ArgAction, Command, value_parser};
use std::alloc::{AllocError, Global};

/// Builds a command without arguments, with the texts of its help.
pub fn named<'a>(alloc: Global, name: &'a str, about: &'a str, examples: &'a str) -> Command<'a>
    ensures { Reads result (new_app name.entry.now) }
{
    Command::new(alloc, name).about(about).after_help(examples)
}

/// Adds an argument to a command.
///
/// # Errors
///
/// `AllocError` if `command` is that error, or if memory is lacking.
pub fn with<'a>(
    command: Result<Command<'a>, AllocError>,
    arg: Arg<'a>,
) -> Result<Command<'a>, AllocError>
    ensures { AddsRule command.entry arg.entry result }
{
    match command {
        Ok(command) => command.arg(arg),
        Err(error) => Err(error),
    }
}

/// Adds a subcommand to a command.
///
/// # Errors
///
/// `AllocError` if `command` or `subcommand` is that error, or if memory is lacking.
pub fn with_subcommand<'a>(
    command: Result<Command<'a>, AllocError>,
    subcommand: Result<Command<'a>, AllocError>,
) -> Result<Command<'a>, AllocError>
    ensures { AddsCommand command.entry subcommand.entry result }
{
    match command {
        Ok(command) => match subcommand {
            Ok(subcommand) => command.subcommand(subcommand),
            Err(error) => Err(error),
        },
        Err(error) => Err(error),
    }
}

/// Builds an argument that is given by its position, and may be left out.
pub fn word<'a>(alloc: Global, name: &'a str, value: &'a str, help: &'a str) -> Arg<'a>
    ensures { Follows result (words_or_none 1 name.entry.now) }
{
    valued(Arg::new(alloc, name), value, help)
}

/// Builds an argument of several words that are given by their position: all of them, or none.
pub fn words<'a>(alloc: Global, name: &'a str, values: &'a [&'a str], help: &'a str) -> Arg<'a>
    ensures { Follows result (words_or_none (length values.entry.now) name.entry.now) }
{
    Arg::new(alloc, name).value_names(values).help(help)
}

/// Builds an option without a value.
pub fn flag<'a>(alloc: Global, name: &'a str, help: &'a str) -> Arg<'a>
    ensures { Follows result (a_flag name.entry.now) }
{
    let arg = Arg::new(alloc, name).long(name).help(help);
    arg.action(ArgAction::SetTrue)
}

/// Builds an option with a value.
pub fn option<'a>(alloc: Global, name: &'a str, value: &'a str, help: &'a str) -> Arg<'a>
    ensures { Follows result (an_option name.entry.now) }
{
    let arg = Arg::new(alloc, name).long(name);
    valued(arg, value, help)
}

fn valued<'a>(arg: Arg<'a>, value: &'a str, help: &'a str) -> Arg<'a>
    ensures { result ≡ record arg.entry { val_names = One value.entry; help = Some help.entry } }
{
    arg.value_name(value).help(help)
}

/// Builds a required option with a text.
pub fn text_option<'a>(alloc: Global, name: &'a str, value: &'a str, help: &'a str) -> Arg<'a>
    ensures { Follows result (a_text name.entry.now) }
{
    option(alloc, name, value, help).required(true)
}

/// Builds a required option with a number of 32 bits.
pub fn number_option<'a>(alloc: Global, name: &'a str, help: &'a str) -> Arg<'a>
    ensures { Follows result (a_number name.entry.now) }
{
    text_option(alloc, name, "N", help).value_parser(value_parser!(u32))
}

/// Builds a required option with a serial, 0 to 99999999.
pub fn serial_option<'a>(alloc: Global, name: &'a str, help: &'a str) -> Arg<'a>
    ensures { Follows result (between 0 99999999 (a_text name.entry.now)) }
{
    text_option(alloc, name, "N", help).value_parser(value_parser!(u32).range(0..=99_999_999))
}
