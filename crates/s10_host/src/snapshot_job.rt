//! What a snapshot of a ledger is used for.

ghost use Rattle.std.specs.Prelude.{IfSome, None, ◌≡◌};
ghost use Rattle.s10_host.specs.Snapshots.{HasNoDay, IsLookFor};

use s10_jobs::{Days, Look, Report};

/// A job over a snapshot of a ledger.
#[derive(Clone, Copy)]
pub enum SnapshotJob {
    /// The printing of a report.
    Report(Report),
    /// An audit.
    Audit,
}

/// Returns the job of a look. A report takes its day. Returns `None` if there is none.
pub(crate) fn job_of<D: Days>(look: Look, days: &mut D) -> Option<SnapshotJob>
    ensures asked { IfSome result (IsLookFor D.gives look days.old days.new) }
    ensures undated { result ≡ None → HasNoDay D.gives look days.old days.new }
{
    match look {
        Look::Report { kind, day } => match Report::new(days, kind, day) {
            Some(report) => Some(SnapshotJob::Report(report)),
            None => None,
        },
        Look::Audit => Some(SnapshotJob::Audit),
    }
}
