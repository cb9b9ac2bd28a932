ghost use Rattle.std.specs.Prelude.{◌≡◌, ◌≤◌, SomeIff};
ghost use Rattle.s10_history.specs.Settings.{Terms, AreTerms};

use std::marker::Model;

/// The greatest reuse interval, in days.
pub const MAX_INTERVAL: u32 = 3_650;

/// The greatest limit of a ledger, in calls.
pub const MAX_LIMIT: u32 = 1_000_000_000;

/// The settings with which a ledger is created, and which it keeps: the reuse interval in days, and
/// the limit in calls.
///
/// The bounds of both are this project's choice.
#[derive(Clone, Copy, Debug, PartialEq, Eq)]
pub struct Settings {
    interval: u32,
    limit: u32,
}

impl Model for Settings {
    ghost use Rattle.s10_history.specs.Settings.{Terms, AreTerms};

    ghost Value = { Terms };

    ghost view = { λ s. record { interval = s.interval; limit = s.limit } };

    ghost invariant = { λ s. AreTerms (record { interval = s.interval; limit = s.limit }) };

    ghost inverse = { λ t. record { interval = t.interval; limit = t.limit } };
}

impl Settings {
    /// Returns settings of 1 to [`MAX_INTERVAL`] days and 1 to [`MAX_LIMIT`] calls, or `None` for
    /// other numbers.
    pub fn new(interval: u32, limit: u32) -> Option<Settings>
        ensures { let terms : Terms = record { interval = interval; limit = limit } in
            SomeIff result (AreTerms terms) terms }
    {
        if 1 <= interval && interval <= MAX_INTERVAL && 1 <= limit && limit <= MAX_LIMIT {
            Some(Settings { interval, limit })
        } else {
            None
        }
    }

    /// Returns the reuse interval in days, 1 to [`MAX_INTERVAL`].
    pub fn interval(&self) -> u32
        ensures value { result ≡ self.now.interval }
        ensures range { (1 ≤ result) × (result ≤ 3650) }
    {
        self.interval
    }

    /// Returns the greatest number of calls that the ledger keeps, 1 to [`MAX_LIMIT`].
    pub fn limit(&self) -> u32
        ensures value { result ≡ self.now.limit }
        ensures range { (1 ≤ result) × (result ≤ 1000000000) }
    {
        self.limit
    }
}
