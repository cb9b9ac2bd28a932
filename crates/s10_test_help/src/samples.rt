//! Parts of requests, such as the identifiers of RA GB.

use s10_core::{Country, Id, Serial, Service};
use s10_wire::Count;

/// Returns the service RA.
pub fn ra() -> Service {
    Service::new(*b"RA").unwrap()
}

/// Returns the service RB.
pub fn rb() -> Service {
    Service::new(*b"RB").unwrap()
}

/// Returns the country GB.
pub fn gb() -> Country {
    Country::new(*b"GB").unwrap()
}

/// Returns the serial of this value, or the last serial for greater values.
pub fn serial(value: u32) -> Serial {
    Serial::new(value.min(99_999_999)).unwrap()
}

/// Returns the count, clamped to 1 to 16.
pub fn sheet(count: u8) -> Count {
    Count::new(count.clamp(1, 16)).unwrap()
}

/// Returns the identifier of RA GB with this serial.
pub fn id(value: u32) -> Id {
    Id {
        service: ra(),
        serial: serial(value),
        country: gb(),
    }
}

/// Returns the identifier of RA US with this serial.
pub fn id_of_us(value: u32) -> Id {
    Id {
        country: Country::new(*b"US").unwrap(),
        ..id(value)
    }
}
