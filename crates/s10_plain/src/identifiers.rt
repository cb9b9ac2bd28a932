//! Reading and making identifiers.
ghost use Rattle.std.specs.Prelude.{◌≡◌, IfOk, IfErr};
ghost use Rattle.s10_core.specs.declared.id.Id.{Id};
ghost use Rattle.s10_core.specs.declared.text_fault.TextFault.{TextFault};
ghost use Rattle.s10_core.specs.Id.{Spells, SpellsLoosely, normalized};
ghost use Rattle.s10_plain.specs.Identifiers.{code_of_read, id_after, ReadsId, plain_id_of};
ghost use Rattle.s10_plain.specs.Identifiers.{success_code};
ghost use Rattle.s10_plain.specs.Requests.{HasParts, IsFirstPartFault, MakesId};

use crate::field_fault::FieldFault;
use crate::plain_id::{PlainId, plain};
use crate::result_code::{ResultCode, field_fault_code, success, text_fault_code};
use s10_core::{Country, Id, Serial, Service, TextFault};

fn write_id(read: Result<Id, TextFault>, out: &mut PlainId) -> ResultCode
    ensures code { result ≡ code_of_read read }
    ensures out { out.new ≡ id_after read out.old }
{
    match read {
        Ok(id) => {
            *out = plain(&id);
            success()
        }
        Err(fault) => text_fault_code(fault),
    }
}

/// Reads the 13 characters of an identifier. If refused, `out` is unchanged.
///
/// # Errors
/// 1: the text has not 13 characters.
/// 2, 3: the leftmost wrong character, at `at`, must be a capital letter or a digit.
/// 4: the check digit is wrong.
pub fn read(text: &[u8], out: &mut PlainId) -> ResultCode
    ensures reads { ReadsId text.now result out.old out.new }
    ensures spelled { (id : Id) → Spells text.now id → (result ≡ success_code)
        × (out.new ≡ plain_id_of id) }
{
    write_id(Id::read(text), out)
}

/// Reads an identifier as printed on a label: spaces are ignored, letters may be small. If refused,
/// `out` is unchanged.
///
/// # Errors
/// As `read`; `at` does not count spaces.
pub fn read_label(text: &[u8], out: &mut PlainId) -> ResultCode
    ensures reads { ReadsId (normalized text.now) result out.old out.new }
    ensures spelled { (id : Id) → SpellsLoosely text.now id → (result ≡ success_code)
        × (out.new ≡ plain_id_of id) }
{
    write_id(Id::read_label(text), out)
}

fn made_of(service: [u8; 2], serial: u32, country: [u8; 2]) -> Result<Id, FieldFault>
    ensures parts { IfOk result (HasParts service serial country) }
    ensures fault { IfErr result (IsFirstPartFault service serial country) }
{
    let Some(service) = Service::new(service) else {
        return Err(FieldFault::Service);
    };
    let Some(serial) = Serial::new(serial) else {
        return Err(FieldFault::First);
    };
    let Some(country) = Country::new(country) else {
        return Err(FieldFault::Country);
    };
    Ok(Id {
        service,
        serial,
        country,
    })
}

/// Makes the identifier of a service, a serial number and a country. If refused, `out` is
/// unchanged.
///
/// # Errors
/// 32: the service is not two capital letters.
/// 34: the serial is above 99,999,999.
/// 33: the country is not two capital letters.
pub fn make(service: &[u8; 2], serial: u32, country: &[u8; 2], out: &mut PlainId) -> ResultCode
    ensures { MakesId service.now serial country.now result out.old out.new }
{
    match made_of(*service, serial, *country) {
        Ok(id) => {
            *out = plain(&id);
            success()
        }
        Err(fault) => field_fault_code(fault),
    }
}
