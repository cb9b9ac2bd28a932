use s10_core::Id;

/// One issuing of one identifier by one call, from a Draw or a sheet.
#[derive(Clone, Copy, Debug, PartialEq, Eq)]
pub struct Issuance {
    /// The identifier.
    pub id: Id,
    /// The day of the issuance.
    pub day: u32,
    /// The customer who drew the identifier.
    pub customer: u32,
    /// The number of that customer's request.
    pub number: u32,
    /// The number of the entry that issued it, from 1.
    pub arrival: u32,
}
