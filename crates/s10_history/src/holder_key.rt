use s10_core::{Country, Service};

/// A holder with a service and a country: the key by which a Draw looks up its ranges.
#[derive(Clone, Copy, Debug, PartialEq, Eq)]
pub struct HolderKey {
    /// The customer who holds the ranges.
    pub holder: u32,
    /// The service of their identifiers.
    pub service: Service,
    /// The country of their identifiers.
    pub country: Country,
}
