use s10_core::TextFault;

/// A wrong field of a request or an identifier that the caller filled in.
#[derive(Clone, Copy, Debug, PartialEq, Eq)]
pub enum FieldFault {
    /// The kind is none of 1 to 6.
    Kind,
    /// The service is not two capital letters.
    Service,
    /// The country is not two capital letters.
    Country,
    /// The first or only serial is above 99,999,999.
    First,
    /// The last serial is above 99,999,999.
    Last,
    /// The count is 0 or above 16.
    Count,
    /// The text spells no identifier.
    Text(TextFault),
}
