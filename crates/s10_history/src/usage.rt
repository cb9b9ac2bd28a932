/// The usage of a range. Each field is a number of serials, at most 100,000,000.
#[derive(Clone, Copy, Debug, PartialEq, Eq)]
pub struct Usage {
    /// Serials that were ever issued.
    pub used: u32,
    /// Serials that were voided after their last issuance.
    pub voided: u32,
    /// Serials that may be issued on the day.
    pub free: u32,
}
