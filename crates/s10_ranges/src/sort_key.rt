/// What the indices of ranges are sorted by.
#[derive(Clone, Copy, Debug, PartialEq, Eq)]
pub(crate) enum SortKey {
    /// The service, the country and the first serial.
    First,
    /// The service, the country and the last serial.
    Last,
    /// The holder, the service, the country and the number.
    Holder,
}
