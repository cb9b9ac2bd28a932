//! Reads the parts of an identifier from the words of `make`.
ghost use Rattle.s10_cli.specs.Options.{rows_in, Finds, HasParts};

use clap::ArgMatches;

/// The parts of an identifier, as they were given.
#[derive(Clone, Copy, Debug, PartialEq, Eq)]
pub struct Parts<'a> {
    pub service: &'a str,
    pub serial: &'a str,
    pub country: &'a str,
}

/// Returns the three parts, or `None` if they were not given.
pub fn parts_of<'a>(found: &ArgMatches<'a>) -> Option<Parts<'a>>
    ensures { Finds (HasParts (rows_in found.now)) result }
{
    let [service, serial, country] = found.get_strs("parts")? else {
        return None;
    };
    Some(Parts {
        service: *service,
        serial: *serial,
        country: *country,
    })
}
