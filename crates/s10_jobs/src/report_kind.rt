use s10_reports::{IssuesReport, RangeFilter, ReportFormat};

/// A kind of report of a ledger.
#[derive(Clone, Copy, Debug, PartialEq, Eq)]
pub enum ReportKind {
    /// The ranges that the filter admits.
    Ranges {
        filter: RangeFilter,
        format: ReportFormat,
    },
    /// The identifiers that were issued.
    Issues(IssuesReport),
    /// A word and a number on each line, of the ledger as a whole.
    Info,
}
