//! Builds the options that select what a report has.
ghost use Rattle.s10_grammar.specs.Grammar.{AddsRules, filters};

use crate::builders::{option, with};
use crate::options::optional_number;
use clap::Command;
use std::alloc::{AllocError, Global};

/// Adds the options that select what a report has: a customer, a range, an identifier and days.
///
/// # Errors
///
/// `AllocError` if `command` is that error, or if memory is lacking.
pub fn with_filters<'a>(
    alloc: Global,
    command: Result<Command<'a>, AllocError>,
) -> Result<Command<'a>, AllocError>
    ensures { AddsRules command.entry filters result }
{
    let command = with(command, optional_number(alloc, "customer", CUSTOMER));
    let command = with(command, optional_number(alloc, "range", RANGE));
    let command = with(command, option(alloc, "id", "TEXT", ID));
    let command = with(command, optional_number(alloc, "from-day", FROM_DAY));
    with(command, optional_number(alloc, "to-day", TO_DAY))
}

const CUSTOMER: &str = "Only the ranges of this customer, or the identifiers that it drew";

const RANGE: &str = "Only the range with this number, or the identifiers in it";

const ID: &str =
    "Only the range of this identifier, or its issues; spaces and small letters are read as on a label";

const FROM_DAY: &str =
    "Only the identifiers issued on this day or later; reports identifiers, as --issues does";

const TO_DAY: &str =
    "Only the identifiers issued on this day or earlier; reports identifiers, as --issues does";
