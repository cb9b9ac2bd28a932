//! Reads the options of a parsed command line.
ghost use Rattle.std.specs.Prelude.{IfErr, IfOk, Option, option_map};
ghost use Rattle.s10_core.specs.declared.id.Id.{Id};
ghost use Rattle.s10_cli.specs.Options.{rows_in, Finds, HasText, HasNumber, IsFlag, HasSerial};
ghost use Rattle.s10_cli.specs.Options.{HasIdentifier, HasSettings, HasCount, HasTries};

use clap::ArgMatches;
use s10_core::{Id, Serial, TextFault};
use s10_history::Settings;
use s10_jobs::Tries;
use s10_wire::Count;

/// The customer number of the post, the only customer that may grant and withdraw.
pub const POST: u32 = 0;

/// Returns the first text of an option, or `None` if it was not given.
pub fn text_of<'a>(found: &ArgMatches<'a>, name: &str) -> Option<&'a str>
    ensures { Finds (HasText (rows_in found.now) name.now) (option_map (λ s. s.now) result) }
{
    found.get_str(name)
}

/// Returns the first number of an option, or `None` if it was not given or is not a number of 32
/// bits.
pub fn number_of(found: &ArgMatches<'_>, name: &str) -> Option<u32>
    ensures { Finds (HasNumber (rows_in found.now) name.now) result }
{
    found.get_one::<u32>(name)
}

/// Returns the identifier of an option, read as on a label, or `None` if the option was not given.
///
/// # Errors
///
/// `TextFault` if the text is no identifier.
#[tactic(auto, using(crate::proofs::OptionLemmas::no_identifier))]
pub fn id_of(found: &ArgMatches<'_>, name: &str) -> Result<Option<Id>, TextFault>
    ensures ok { IfOk result (HasIdentifier (rows_in found.now) name.now) }
    ensures err { IfErr result (λ fault. (id : Option Id)
        → ¬ HasIdentifier (rows_in found.now) name.now id) }
{
    match text_of(found, name) {
        None => Ok(None),
        Some(text) => match Id::read_label(text.as_bytes()) {
            Ok(id) => Ok(Some(id)),
            Err(fault) => Err(fault),
        },
    }
}

/// Returns whether a flag was given.
pub fn flag_of(found: &ArgMatches<'_>, name: &str) -> bool
    ensures { IsFlag (rows_in found.now) name.now result }
{
    found.get_flag(name)
}

/// Returns the settings of a ledger, or `None` if an option is missing or out of its limits.
///
/// A parsed command line that has both options has them within their limits.
pub fn settings_of(found: &ArgMatches<'_>) -> Option<Settings>
    ensures { Finds (HasSettings (rows_in found.now)) result }
{
    let interval = number_of(found, "interval")?;
    let limit = number_of(found, "limit")?;
    Settings::new(interval, limit)
}

/// Returns the serial of an option, or `None` if it was not given or is not 0 to 99999999.
pub fn serial_of(found: &ArgMatches<'_>, name: &str) -> Option<Serial>
    ensures { Finds (HasSerial (rows_in found.now) name.now) result }
{
    Serial::new(number_of(found, name)?)
}

/// Returns the number of identifiers of a sheet, 1 to 16, or `None` if no sheet is asked for.
pub fn count_of(found: &ArgMatches<'_>) -> Option<Count>
    ensures { Finds (HasCount (rows_in found.now)) result }
{
    let count = number_of(found, "count")?;
    let Ok(count) = u8::try_from(count) else {
        return None;
    };
    Count::new(count)
}

/// Returns the maximum number of tries of a call, or `None` if it was not given or is not 1 to 100.
pub fn tries_of(found: &ArgMatches<'_>) -> Option<Tries>
    ensures { Finds (HasTries (rows_in found.now)) result }
{
    Tries::new(number_of(found, "tries")?)
}
