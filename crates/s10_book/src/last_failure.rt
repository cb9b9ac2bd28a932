use std::fmt::Display;

/// A book that says why its store failed.
pub trait LastFailure {
    /// A reason, as standard error shows it.
    type Reason: Copy + PartialEq + Display;

    /// Returns the reason of the last failure, or `None` if a commit has succeeded since.
    fn last_failure(&self) -> Option<Self::Reason>;
}
