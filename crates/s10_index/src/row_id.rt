//! The identifier that a row of `serials` names.

ghost use Rattle.std.specs.Prelude.{◌≡◌, ℕ, ◌<◌, ◌^◌, pos, Some, IfSome};
ghost use Rattle.s10_core.specs.declared.id.Id.{Id};
ghost use Rattle.s10_core.specs.Id.{IsId};
ghost use Rattle.s10_core.specs.Letters.{AreCapitals};
ghost use Rattle.s10_core.specs.Pair.{pair_of};
ghost use Rattle.s10_index.specs.RowId.{NamesId};

use s10_core::{Country, Id, Serial, Service};
use s10_rows::SerialRow;

// Returns the value of a column as a number of 32 bits. None if it does not fit.
fn number_in(column: i64) -> Option<u32>
    ensures some { IfSome result (λ n. column ≡ pos n) }
    ensures kept { (n : ℕ) → n < 2 ^ 32 → column ≡ pos n → result ≡ Some n }
{
    u32::try_from(column).ok()
}

// Returns the service and the country of a pair. None if it is not of letters.
fn letters_in(pair: u32) -> Option<(Service, Country)>
    ensures some { IfSome result (λ found. pair ≡ pair_of found.0 found.1) }
    ensures kept { (service country : ℕ × ℕ) → AreCapitals service → AreCapitals country
        → pair ≡ pair_of service country → result ≡ Some (service, country) }
{
    let [s0, s1, c0, c1] = pair.to_be_bytes();
    let service = Service::new([s0, s1])?;
    let country = Country::new([c0, c1])?;
    Some((service, country))
}

// Returns the identifier with the pair and the serial of the row. None if there is none.
pub(crate) fn id_in(row: &SerialRow) -> Option<Id>
    ensures some { IfSome result (NamesId row.now) }
    ensures kept { (x : Id) → IsId x → NamesId row.now x → result ≡ Some x }
{
    let (service, country) = letters_in(number_in(row.pair)?)?;
    let serial = Serial::new(number_in(row.serial)?)?;
    Some(Id {
        service,
        serial,
        country,
    })
}
