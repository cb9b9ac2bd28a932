/// Whether an identifier was issued before.
#[derive(Clone, Copy, Debug, PartialEq, Eq)]
pub enum PriorIssue {
    /// It was never issued.
    Never,
    /// It may have been issued.
    Before,
}
