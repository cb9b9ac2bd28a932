//! Builds the options that several subcommands have.
ghost use Rattle.std.specs.Prelude.{codes};
ghost use Rattle.s10_grammar.specs.Grammar.{Follows, a_count, a_flag, a_text, an_option, between, day};
ghost use Rattle.s10_grammar.specs.Grammar.{interval, limit, tries};

use crate::builders::{flag, option, text_option};
use clap::{Arg, value_parser};
use s10_history::{MAX_INTERVAL, MAX_LIMIT};
use std::alloc::Global;

/// Builds the option `--ledger`: the file of a ledger.
pub fn ledger_option<'a>(alloc: Global) -> Arg<'a>
    ensures { Follows result (a_text (codes "ledger")) }
{
    text_option(
        alloc,
        "ledger",
        "FILE",
        "The file that keeps the ledger: an SQLite database",
    )
}

/// Builds the option `--snapshot`: the files of the ledger are read into memory.
pub fn snapshot_option<'a>(alloc: Global) -> Arg<'a>
    ensures { Follows result (a_flag (codes "snapshot")) }
{
    flag(
        alloc,
        "snapshot",
        "Read the ledger into memory, without locking or changing it, also while it is served",
    )
}

/// Builds the option `--interval`: the reuse interval of a ledger, in days.
pub fn interval_option<'a>(alloc: Global) -> Arg<'a>
    ensures { Follows result interval }
{
    option(
        alloc,
        "interval",
        "DAYS",
        "The reuse interval: days before a serial number is issued again, 1 to 3650",
    )
    .value_parser(value_parser!(u32).range(1..=MAX_INTERVAL as i64))
}

/// Builds the option `--limit`: the maximum number of calls of a ledger.
pub fn limit_option<'a>(alloc: Global) -> Arg<'a>
    ensures { Follows result limit }
{
    option(
        alloc,
        "limit",
        "N",
        "The maximum number of requests that the ledger keeps, 1 to 1000000000",
    )
    .value_parser(value_parser!(u32).range(1..=MAX_LIMIT as i64))
}

/// Builds the option `--to`: the address of the server.
pub fn to_option<'a>(alloc: Global) -> Arg<'a>
    ensures { Follows result (a_text (codes "to")) }
{
    text_option(
        alloc,
        "to",
        "PEER",
        "The address of the server, as 127.0.0.1:4711",
    )
}

/// Builds an option with a number of 32 bits, which may be left out.
pub fn optional_number<'a>(alloc: Global, name: &'a str, help: &'a str) -> Arg<'a>
    ensures { Follows result (a_count name.entry.now) }
{
    option(alloc, name, "N", help).value_parser(value_parser!(u32))
}

/// Builds the option `--customer`: the customer that asks.
pub fn customer_option<'a>(alloc: Global) -> Arg<'a>
    ensures { Follows result (a_count (codes "customer")) }
{
    optional_number(
        alloc,
        "customer",
        "The number of the customer that asks; 0 is the post",
    )
}

/// Builds the option `--number`: the number of a request.
pub fn request_option<'a>(alloc: Global) -> Arg<'a>
    ensures { Follows result (a_count (codes "number")) }
{
    optional_number(
        alloc,
        "number",
        "The number of the request. The same number with the same request is answered again",
    )
}

/// Builds the option `--notes`: the notes of a client, which give a request its customer and number.
pub fn notes_option<'a>(alloc: Global) -> Arg<'a>
    ensures { Follows result (an_option (codes "notes")) }
{
    option(
        alloc,
        "notes",
        "FILE",
        "The notes of a client, which give the request its customer and its number",
    )
}

/// Builds the option `--service`: a service indicator.
pub fn service_option<'a>(alloc: Global) -> Arg<'a>
    ensures { Follows result (a_text (codes "service")) }
{
    text_option(
        alloc,
        "service",
        "XX",
        "The service indicator: two capital letters, as RA",
    )
}

/// Builds the option `--country`: a country code.
pub fn country_option<'a>(alloc: Global) -> Arg<'a>
    ensures { Follows result (a_text (codes "country")) }
{
    text_option(
        alloc,
        "country",
        "XX",
        "The country code: two capital letters, as GB",
    )
}

/// Builds the option `--id`: an identifier.
pub fn id_option<'a>(alloc: Global) -> Arg<'a>
    ensures { Follows result (a_text (codes "id")) }
{
    text_option(
        alloc,
        "id",
        "TEXT",
        "The identifier; spaces and small letters are read as on a label",
    )
}

/// Builds the option `--count`: the number of identifiers of a sheet, 1 to 16.
pub fn count_option<'a>(alloc: Global) -> Arg<'a>
    ensures { Follows result (between 1 16 (an_option (codes "count"))) }
{
    option(
        alloc,
        "count",
        "N",
        "Draw a sheet of this many identifiers, 1 to 16, all or none; without it, one",
    )
    .value_parser(value_parser!(u32).range(1..=16))
}

/// Builds the option `--tries`: the maximum number of tries of a call, 1 to 100.
pub fn tries_option<'a>(alloc: Global) -> Arg<'a>
    ensures { Follows result tries }
{
    option(
        alloc,
        "tries",
        "N",
        "The maximum number of sends, 1 to 100; each receive after a send waits up to a second",
    )
    .value_parser(value_parser!(u32).range(1..=100))
    .default_value("5")
}

/// Builds the option `--day`: a day. Without it the clock gives the day.
pub fn day_option<'a>(alloc: Global, help: &'a str) -> Arg<'a>
    ensures { Follows result day }
{
    option(alloc, "day", "D", help).value_parser(value_parser!(u32))
}
