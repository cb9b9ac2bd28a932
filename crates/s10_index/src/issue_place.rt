/// Where an issuance is in the log of calls.
#[derive(Clone, Copy)]
pub(crate) struct IssuePlace {
    /// The index of its call, from 0.
    pub(crate) call: u32,
    /// Its index in the sheet of the call, from 0.
    pub(crate) at: u8,
    /// Whether the identifier was voided after it. Read only at the last issuance of an identifier.
    pub(crate) voided: bool,
}
