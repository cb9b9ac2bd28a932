//! Reads the days of a clock.

ghost use Rattle.std.specs.Prelude.{◌<◌, ◌^◌, ◌/◌, SomeIff};
ghost use Rattle.std.specs.Time.{system_time_nanos};

use crate::days::Days;
use std::time::{Clock, SystemTime, UNIX_EPOCH};

const SECONDS_OF_A_DAY: u64 = 86_400;

/// The days of a clock, which is read for each.
#[derive(Drop)]
pub struct ClockDays<'a, C: Clock> {
    /// The clock.
    pub clock: &'a C,
}

impl<C: Clock> Days for ClockDays<'_, C> {
    ghost use Rattle.std.specs.Prelude.{⊤};

    ghost gives = { λ old answer new. ⊤ };

    fn next(&mut self) -> Option<u32> {
        today(self.clock)
    }
}

/// Returns the day of the clock: whole days since 1970-01-01 UTC.
///
/// Returns `None` if the clock fails, or if its day is before 1970-01-01 or above 4,294,967,295.
pub fn today<C: Clock>(clock: &C) -> Option<u32> {
    day_of(SystemTime::now(clock).ok()?)
}

fn day_of(time: SystemTime) -> Option<u32>
    ensures { let day = system_time_nanos time / 1_000_000_000 / 86_400 in
        SomeIff result (day < 2 ^ 32) day }
{
    let since = time.duration_since(UNIX_EPOCH).ok()?;
    u32::try_from(since.as_secs() / SECONDS_OF_A_DAY).ok()
}
