use crate::part::Part;

/// A call that reads one of a ledger's two files.
#[derive(Clone, Copy, Debug, PartialEq, Eq)]
pub struct ReadCall {
    /// The file.
    pub part: Part,
    /// The maximum number of bytes that are read.
    pub most: u64,
}
