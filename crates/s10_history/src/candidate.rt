use crate::issue::Issue;
use s10_core::Serial;

/// The pick of a range, which is the serial that it gives next, with its last issue.
#[derive(Clone, Copy, Debug, PartialEq, Eq)]
pub struct Candidate {
    /// The least serial that was never issued, otherwise the one whose last issuance is the
    /// earliest.
    pub serial: Serial,
    /// The last issue of this serial, if it was issued.
    pub issue: Option<Issue>,
}
