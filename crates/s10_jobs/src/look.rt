use crate::report_kind::ReportKind;

/// What a snapshot of a ledger is looked at for.
#[derive(Clone, Copy, Debug, PartialEq, Eq)]
pub enum Look {
    /// A report. A `day` that is not given is the clock's.
    Report { kind: ReportKind, day: Option<u32> },
    /// An audit.
    Audit,
}
