//! The options of the turns of a server.

/// How many turns a server serves, on which days, and how it prints them.
#[derive(Clone, Copy, Debug, PartialEq, Eq)]
pub struct TurnOptions {
    /// The number of turns.
    pub count: u32,
    /// The day of every turn, or `None` for the days of a source.
    pub day: Option<u32>,
    /// The most days that a day of the source may be past the last day of the ledger, or `None` if
    /// it may be any. A given day is not held to it.
    pub most_days_ahead: Option<u32>,
    /// Whether the lines name the senders of the datagrams.
    pub senders: bool,
}

impl TurnOptions {
    ghost use Rattle.std.specs.Prelude.{◌≡◌};
    ghost use Rattle.s10_jobs.specs.DayGuard.{guard_of};

    /// Returns the most days that the day of a turn may be past the last day of the ledger: `None`
    /// if it may be any, or if the day is given.
    pub fn guard(&self) -> Option<u32>
        ensures { result ≡ guard_of self.now }
    {
        match self.day {
            Some(_) => None,
            None => self.most_days_ahead,
        }
    }
}
