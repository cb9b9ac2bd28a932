/// The exit status of the program. The numbers are this project's choice.
#[derive(Clone, Copy, Debug, PartialEq, Eq)]
pub enum JobStatus {
    /// The job was done.
    Done = 0,
    /// A rule refused the request or the text.
    Refused = 1,
    /// The words are not a command line.
    CommandLine = 2,
    /// Memory, input, output, a link, a ledger or the clock failed.
    Failed = 3,
}
