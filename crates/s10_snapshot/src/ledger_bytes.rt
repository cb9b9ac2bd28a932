/// The bytes of a ledger's two files.
#[derive(Drop)]
pub struct LedgerBytes {
    /// Those of its file.
    pub file: Vec<u8>,
    /// Those of its log. Empty without a log.
    pub log: Vec<u8>,
}
