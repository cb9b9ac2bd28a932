ghost use Rattle.std.specs.Prelude.{◌≡◌};
ghost use Rattle.s10_ranges.specs.Rests.{is_resting};

use s10_core::Serial;

/// What is known of a range that gives nothing for a while.
#[derive(Clone, Copy, Debug, PartialEq, Eq)]
pub enum Rest {
    /// Nothing is known.
    Unknown,
    /// The serial was last issued on that day, or later.
    Issued {
        /// The serial.
        serial: Serial,
        /// The day of an issuance of it.
        day: u32,
    },
    /// The range is closed.
    Closed,
}

impl Rest {
    /// Returns whether a range with this rest gives nothing on `day`, if `pick` is the serial that it
    /// gives next: it is closed, or the pick was issued less than `interval` days before.
    pub fn lasts(&self, pick: Serial, day: u32, interval: u32) -> bool
        ensures { result ≡ is_resting self.now pick day interval }
    {
        match *self {
            Rest::Unknown => false,
            Rest::Issued { serial, day: last } => {
                serial == pick && day.saturating_sub(last) < interval
            }
            Rest::Closed => true,
        }
    }
}
