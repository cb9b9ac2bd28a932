use s10_core::{Country, Id, Serial, Service};

/// Serials that a customer may draw, as a Grant created them.
#[derive(Clone, Copy, Debug, PartialEq, Eq)]
pub struct Range {
    /// Number of the range: the i-th Grant that was done creates range i, from 1.
    pub num: u32,
    /// The customer who may draw from it.
    pub holder: u32,
    /// The service of its identifiers.
    pub service: Service,
    /// The country of its identifiers.
    pub country: Country,
    /// Its first serial.
    pub first: Serial,
    /// Its last serial, included in the range.
    pub last: Serial,
}

impl Range {
    ghost use Rattle.std.specs.Prelude.{◌≡◌, ◌≤◌, ◌<◌};
    ghost use Rattle.s10_history.specs.Issues.{id_at, size_of, serial_after, serial_after_steps};
    ghost use Rattle.s10_history.specs.History.{is_held, overlaps};

    /// Returns the number of serials in the range, at most 100,000,000.
    pub fn size(&self) -> u32
        ensures count { result ≡ size_of self.now }
        ensures few { result ≤ 100000000 }
    {
        (self.last.value() + 1).saturating_sub(self.first.value())
    }

    /// Returns the serial `count` steps after `serial`, wrapping from `last` to `first`.
    ///
    /// This is promised if `serial` is in the range and `count < size()`. One step is promised from
    /// any serial that is not above `last`.
    pub fn serial_after(&self, serial: Serial, count: u8) -> Serial
        ensures steps { self.now.first ≤ serial → serial ≤ self.now.last → count < size_of self.now
            → result ≡ serial_after_steps self.now serial count }
        ensures next { serial ≤ self.now.last → count ≡ 1 → result ≡ serial_after self.now serial }
    {
        let next = serial.value() + u32::from(count);
        let last = self.last.value();
        if next <= last {
            Serial::new(next).unwrap_or(serial)
        } else {
            Serial::new(self.first.value() + (next - last - 1)).unwrap_or(serial)
        }
    }

    /// Returns the identifier of the range with this serial.
    pub fn id(&self, serial: Serial) -> Id
        ensures { result ≡ id_at self.now serial }
    {
        Id {
            service: self.service,
            serial,
            country: self.country,
        }
    }

    /// Returns whether the customer holds the range, and it has this service and country.
    pub fn is_held_by(&self, customer: u32, service: Service, country: Country) -> bool
        ensures { result ≡ is_held customer service country self.now }
    {
        self.holder == customer && self.service == service && self.country == country
    }

    /// Returns whether the range has this service and country, and a serial from `first` to `last`,
    /// both included.
    ///
    /// Returns false if `last` is below `first`. The result is right for a range that is not empty,
    /// as each range of a Grant is.
    pub fn overlaps(&self, service: Service, country: Country, first: Serial, last: Serial) -> bool
        ensures { result ≡ overlaps service country first last self.now }
    {
        self.service == service
            && self.country == country
            && self.first.value() <= last.value()
            && first.value() <= self.last.value()
            && first.value() <= last.value()
    }
}
