//! Builds the subcommand `serve`.
ghost use Rattle.std.specs.Prelude.{IfOk};
ghost use Rattle.std.specs.Prelude.{codes};
ghost use Rattle.s10_grammar.specs.Grammar.{Follows, ReadsAs, a_count, serve_shape, turn_count};

use crate::builders::{flag, named, option, text_option, with};
use crate::options::{day_option, ledger_option};
use clap::{Arg, Command, value_parser};
use std::alloc::{AllocError, Global};

/// Builds the subcommand `serve`, with its words, its options and its help.
///
/// # Errors
///
/// `AllocError` if memory is lacking.
pub fn serve_command<'a>(alloc: Global) -> Result<Command<'a>, AllocError>
    ensures { IfOk result (λ command. ReadsAs command serve_shape) }
{
    let command = named(
        alloc,
        "serve",
        "Answer the requests that come to an address, over the ledger in a file",
        SERVE_EXAMPLES,
    );
    let command = with(Ok(command), ledger_option(alloc));
    let command = with(
        command,
        text_option(
            alloc,
            "bind",
            "PEER",
            "The address to serve at, as 127.0.0.1:4711; with port 0 the system picks one",
        ),
    );
    let command = with(command, turn_count_option(alloc));
    let command = with(
        command,
        option(
            alloc,
            "until",
            "FILE",
            "End within a second once this file is there, and close the ledger; it must not be there at the start",
        ),
    );
    let command = with(
        command,
        day_option(
            alloc,
            "The day of all requests; by default the clock's day, read before each batch",
        ),
    );
    let command = with(command, days_ahead_option(alloc));
    with(
        command,
        flag(
            alloc,
            "senders",
            "End the line of each datagram with its sender, as `from 10.0.0.7:40123`",
        ),
    )
}

fn turn_count_option<'a>(alloc: Global) -> Arg<'a>
    ensures { Follows result turn_count }
{
    option(
        alloc,
        "count",
        "N",
        "How many turns to serve: each receives one datagram, or waits a second for one",
    )
    .value_parser(value_parser!(u32))
    .default_value("4294967295")
}

fn days_ahead_option<'a>(alloc: Global) -> Arg<'a>
    ensures { Follows result (a_count (codes "most-days-ahead")) }
{
    option(
        alloc,
        "most-days-ahead",
        "N",
        "End with `clock` if the clock's day is more than this many days past the day of the last call",
    )
    .value_parser(value_parser!(u32))
}

const SERVE_EXAMPLES: &str = "\
Prints one line for each turn, as it is done:
  replied HEX        a reply was sent; `s10 show HEX` prints it in words
  quiet              no datagram came in a second
  dropped FAULT      no request: short, magic, version, kind, length, field AT or outcome
  faulted FAULT      the request was not executed: memory, store, or full at the limit of calls
  uncommitted FAULT  no reply was sent, since its call could not be written: memory or store
  link FAULT         receive, send or spent: the socket failed, and the next turn follows

Datagrams that have arrived, up to 64, are one batch: their calls are written in one transaction,
then the replies are sent, then the lines are printed.

After the last turn, or within a second once the file of `--until` is there, the calls that are
pending are written, the ledger is closed, and the exit status is 0. A line of another kind says why
`serve` ended with status 3, or 1 for a line `refused`:
  refused peer       the address is invalid
  refused until      the file of `--until` is there already, perhaps from an earlier end
  memory             memory ran out before the ledger was opened
  ledger FAULT       the ledger could not be opened: not-a-ledger, schema N, damaged N, memory or
                     store
  ledger store       after the turns: the last calls could not be written, or the ledger not closed
  link bind          the address cannot be bound
  clock              the clock gives no day, or one that `--most-days-ahead` refuses
If standard output fails, `serve` ends with status 3 and standard error says why.

A stop at any moment leaves a ledger that opens. Standard error has the address that is served at,
the calls of the ledger with their limit, its last day and today. It has the reason why a ledger
cannot be opened, both days if `--most-days-ahead` refuses one, a warning if the last day is past
today or the limit is near, and the sender of a dropped datagram, in at most one line a minute.
There is no authentication: whoever reaches the address can ask as customer 0.

Example:
  s10 serve --ledger post.db --bind 127.0.0.1:4711 --count 1
  replied 533101820000000700000001524147420000004e2052413030303030303030354742";
