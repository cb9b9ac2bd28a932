use s10_history::Issuance;

/// The last issuance of an identifier.
#[derive(Clone, Copy)]
pub(crate) struct LastIssuance {
    /// The issuance.
    pub(crate) issuance: Issuance,
    /// Whether the identifier was voided after it.
    pub(crate) voided: bool,
}
