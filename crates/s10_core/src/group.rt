/// The group of items that the first letter of a service indicator names.
///
/// The names are this project's choice, see docs/IDENTIFIERS.md.
#[derive(Clone, Copy, Debug, PartialEq, Eq)]
pub enum Group {
    /// Parcels: first letter C.
    Parcel,
    /// Express mail: first letter E.
    Ems,
    /// Registered items: first letter R.
    Registered,
    /// Insured items: first letter V.
    Insured,
    /// Items with any other first letter.
    Other,
}
