/// One of the two files of a ledger.
#[derive(Clone, Copy, Debug, PartialEq, Eq)]
pub enum Part {
    /// Its file.
    File,
    /// Its log, the file beside that.
    Log,
}
