/// The state of the last issuance of an identifier.
#[derive(Clone, Copy, Debug, PartialEq, Eq)]
pub struct Issue {
    /// The day of the issuance.
    pub day: u32,
    /// Whether the identifier was voided after it.
    pub voided: bool,
    /// The customer who drew the identifier.
    pub customer: u32,
    /// The number of that customer's request.
    pub number: u32,
}

impl Issue {
    ghost use Rattle.std.specs.Prelude.{◌≡◌, ◌-◌, nat_le};

    /// Returns whether the identifier may be issued again on `day`: at least `interval` days after
    /// this issue.
    pub fn is_free(&self, day: u32, interval: u32) -> bool
        ensures { result ≡ nat_le interval (day - self.now.day) }
    {
        day.saturating_sub(self.day) >= interval
    }
}
