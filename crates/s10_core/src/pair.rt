ghost use Rattle.std.specs.Prelude.{◌≡◌};
ghost use Rattle.s10_core.specs.Letters.{AreCapitals};
ghost use Rattle.s10_core.specs.Pair.{pair_of};

use crate::country::Country;
use crate::service::Service;

/// Returns the four letters of service and country as a big-endian number.
pub fn pair_number(service: Service, country: Country) -> u32
    ensures value { result ≡ pair_of service country }
    ensures service { AreCapitals service }
    ensures country { AreCapitals country }
{
    let [s0, s1] = service.bytes();
    let [c0, c1] = country.bytes();
    u32::from_be_bytes([s0, s1, c0, c1])
}
