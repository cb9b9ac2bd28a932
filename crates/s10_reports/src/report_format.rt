/// How a report is written.
#[derive(Clone, Copy, Debug, PartialEq, Eq)]
pub enum ReportFormat {
    /// As lines of words with a space between them.
    Lines,
    /// As records of fields with a comma between them (RFC 4180).
    Csv,
}
