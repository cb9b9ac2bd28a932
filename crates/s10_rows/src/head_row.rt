/// The row of `head`: the schema number and the settings.
#[derive(Clone, Copy, Debug, PartialEq, Eq)]
pub struct HeadRow {
    /// The key of the one row: 1.
    pub one: i64,
    /// The schema number: 1.
    pub schema: i64,
    /// The reuse interval in days, 1 to 3,650.
    pub interval: i64,
    /// The limit: the greatest number of kept calls, 1 to 1,000,000,000.
    pub cap: i64,
}
