//! The numbers by which ranges are sorted.

ghost use Rattle.std.specs.Prelude.{◌≡◌, ◌≤◌, ◌<◌, ◌^◌};
ghost use Rattle.s10_core.specs.Letters.{AreCapitals};
ghost use Rattle.s10_core.specs.Serial.{IsSerial};
ghost use Rattle.s10_ranges.specs.Keys.{serial_key, holder_key, key_by, IsFitting};

use crate::sort_key::SortKey;
use s10_core::{Country, Serial, Service, pair_number};
use s10_history::Range;

// Returns the pair in the upper 32 bits and the serial in the lower 32 bits.
pub(crate) fn serial_sort_key(service: Service, country: Country, serial: Serial) -> u128
    ensures value { result ≡ serial_key service country serial }
    ensures service { AreCapitals service }
    ensures country { AreCapitals country }
    ensures serial { IsSerial serial }
    ensures small { result < 2 ^ 64 }
{
    u128::from(pair_number(service, country)) * 4_294_967_296 + u128::from(serial.value())
}

// Returns the holder, the pair and the range number as the digits of one number in base 2^32, in
// this order.
pub(crate) fn holder_sort_key(holder: u32, service: Service, country: Country, num: u128) -> u128
    requires { num ≤ 4294967296 }
    ensures value { result ≡ holder_key holder service country num }
    ensures service { AreCapitals service }
    ensures country { AreCapitals country }
{
    (u128::from(holder) * 4_294_967_296 + u128::from(pair_number(service, country))) * 4_294_967_296
        + num
}

// Returns the sort key of the range.
pub(crate) fn sort_key_of(by: SortKey, range: &Range) -> u128
    ensures { result ≡ key_by by range.now }
{
    match by {
        SortKey::First => serial_sort_key(range.service, range.country, range.first),
        SortKey::Last => serial_sort_key(range.service, range.country, range.last),
        SortKey::Holder => holder_sort_key(
            range.holder,
            range.service,
            range.country,
            u128::from(range.num),
        ),
    }
}

// Brings the bounds of the range's service, country and serials into scope.
pub(crate) fn parts_fit(range: &Range)
    ensures { IsFitting range.now }
{
    let range = *range;
    let _first = serial_sort_key(range.service, range.country, range.first);
    let _last = serial_sort_key(range.service, range.country, range.last);
}
