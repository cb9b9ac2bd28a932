use s10_core::{Country, Id, Serial, Service};

/// The serials of a service and country from `first` to `last`; none if `first` is above `last`.
#[derive(Clone, Copy, Debug, PartialEq, Eq)]
pub struct SerialSpan {
    /// The service of the identifiers.
    pub service: Service,
    /// The country of the identifiers.
    pub country: Country,
    /// The first serial.
    pub first: Serial,
    /// The last serial, included in the span.
    pub last: Serial,
}

impl SerialSpan {
    ghost use Rattle.std.specs.Prelude.{◌≡◌};
    ghost use Rattle.s10_history.specs.declared.serial_span.SerialSpan.{SerialSpan};

    /// Returns the span of one identifier.
    pub fn of(id: &Id) -> SerialSpan
        ensures { let one : SerialSpan = record {
          service = id.now.service;
          country = id.now.country;
          first = id.now.serial;
          last = id.now.serial;
        } in
            result ≡ one }
    {
        SerialSpan {
            service: id.service,
            country: id.country,
            first: id.serial,
            last: id.serial,
        }
    }
}
