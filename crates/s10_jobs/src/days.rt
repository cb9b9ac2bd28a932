//! Takes days from a source.

ghost use Rattle.std.specs.Prelude.{ℕ, Option};
ghost use Rattle.s10_jobs.specs.Days.{IsTaken};

/// A source of days, such as a clock.
pub trait Days {
    /// Whether the source, asked once, gave this answer.
    ghost gives: { Self → Option ℕ → Self → Type 0 };

    /// Returns the next day: whole days since 1970-01-01 UTC, or `None` if the source gives none.
    fn next(&mut self) -> Option<u32>
        ensures { gives self.old result self.new };
}

/// Returns the day if it is given, and otherwise the next day of the source. The source is asked
/// only then.
pub fn next_day<D: Days>(days: &mut D, given: Option<u32>) -> Option<u32>
    ensures { IsTaken D.gives given result days.old days.new }
{
    match given {
        Some(day) => Some(day),
        None => days.next(),
    }
}
