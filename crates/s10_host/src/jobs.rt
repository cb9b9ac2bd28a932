//! Runs the jobs over files, sockets and the clock. `S` represents what the files held.

ghost use Rattle.s10_host.specs.Ended.{HasEnded};

use crate::ask::run_question;
use crate::audit_file::run_audit_on_file;
use crate::copy::run_copy;
use crate::create::run_create;
use crate::files::ClosedFiles;
use crate::job_end::JobEnd;
use crate::looping::run_loop_on;
use crate::notes::{run_again, run_notes};
use crate::report::run_report;
use crate::serve::run_serve;
use crate::snapshot::run_snapshot;
use s10_jobs::{Days, Job};
use s10_ledger::HashSeed;
use sqlite::Start;
use std::io;
use std::io::Write;

/// Runs a job. Returns its result and its resources. The source of days is asked only if the job
/// needs a day and none is given. A job over a ledger file that has no seed for its hashes ends
/// before the file is looked up: the line is `ledger store`.
///
/// # Errors
///
/// `done` is `WriteFault` if the output fails.
pub fn run_job<'a, S: Start, D: Days, W: Write>(
    rt: &'a HostRuntime,
    job: &Job<'a>,
    seed: io::Result<HashSeed>,
    start: S,
    days: &mut D,
    out: &mut W,
) -> JobEnd<'a, ClosedFiles<S>>
    ensures { HasEnded S.row S.Start D.gives job.now days.old days.new (W.contents out.old)
        (W.contents out.new) result.done result.resources }
{
    match job {
        Job::Create { ledger, settings } => run_create(rt, *ledger, *settings, seed, start, out),
        Job::Serve {
            ledger,
            bind,
            options,
            until,
        } => run_serve(rt, *ledger, *bind, *options, *until, seed, start, days, out),
        Job::Ask(question) => run_question(rt, question, out),
        Job::Notes {
            file,
            customer,
            first,
            last,
        } => run_notes(rt, *file, *customer, *first, *last, out),
        Job::Again { to, notes, tries } => run_again(rt, *to, *notes, *tries, out),
        Job::Report { ledger, kind, day } => run_report(
            rt, *ledger, *kind, *day, seed, start, days, out,
        ),
        Job::Audit { ledger } => run_audit_on_file(rt, *ledger, seed, start, out),
        Job::Snapshot { ledger, look } => run_snapshot(rt, *ledger, *look, seed, days, out),
        Job::Copy { ledger, to } => run_copy(rt, *ledger, *to, seed, out),
        Job::Loop { day } => run_loop_on(rt, *day, days, out),
    }
}
