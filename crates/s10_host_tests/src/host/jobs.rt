//! Jobs of command lines.

use crate::host::job_words::job_of;
use s10_host::{HashSeed, JobEnd, run_job};
use s10_jobs::{ClockDays, Job, JobStatus};
use s10_test_help::expect::holds;
use s10_test_help::words::Words;
use sqlite::Unknown;
use std::io::{Error, ErrorKind};
use std::{fs, io};

/// Returns whether a job ends with this status and prints this line.
fn is_ended<'x>(
    rt: &'x HostRuntime,
    job: &Job<'x>,
    seed: io::Result<HashSeed>,
    status: JobStatus,
    line: &str,
) -> bool {
    let mut output = Vec::new(rt.alloc());
    let mut days = ClockDays { clock: rt };
    let JobEnd {
        done,
        resources: _used,
    } = run_job(rt, job, seed, Unknown, &mut days, &mut output);
    done == Ok(status) && output.as_slice() == line.as_bytes()
}

/// Returns the same for the job that a command line asks for, with this seed.
fn ends_seeded(
    rt: &HostRuntime,
    asked: &str,
    seed: io::Result<HashSeed>,
    status: JobStatus,
    line: &str,
) -> bool {
    let words = Words::of(asked);
    match job_of(rt, words.as_slice()) {
        Some(job) => is_ended(rt, &job, seed, status, line),
        None => false,
    }
}

/// Returns the same with the fixed seed.
pub(crate) fn ends_with(rt: &HostRuntime, asked: &str, status: JobStatus, line: &str) -> bool {
    ends_seeded(rt, asked, Ok(HashSeed::fixed()), status, line)
}

/// A command line, and the status and the line of its job.
const CASES: &[(&str, JobStatus, &str)] = &[
    (
        "s10 create --ledger nowhere/a.db --interval 30 --limit 100",
        JobStatus::Failed,
        "ledger store\n",
    ),
    (
        "s10 serve --ledger nowhere/a.db --bind here --count 1",
        JobStatus::Refused,
        "refused peer\n",
    ),
    (
        "s10 serve --ledger nowhere/a.db --bind 127.0.0.1:0 --count 1",
        JobStatus::Failed,
        "ledger store\n",
    ),
    (
        "s10 serve --ledger nowhere/a.db --bind here --until .",
        JobStatus::Refused,
        "refused peer\n",
    ),
    (
        "s10 serve --ledger nowhere/a.db --bind 127.0.0.1:0 --until .",
        JobStatus::Refused,
        "refused until\n",
    ),
    (
        "s10 serve --ledger nowhere/a.db --bind 127.0.0.1:0 --until nothing",
        JobStatus::Failed,
        "ledger store\n",
    ),
    (
        "s10 report --ledger nowhere/a.db --issues",
        JobStatus::Failed,
        "ledger store\n",
    ),
    (
        "s10 info --ledger nowhere/a.db --day 0",
        JobStatus::Failed,
        "ledger store\n",
    ),
    (
        "s10 audit --ledger nothing.db",
        JobStatus::Failed,
        "ledger not-a-ledger\n",
    ),
    (
        "s10 report --snapshot --ledger nowhere/a.db --issues",
        JobStatus::Failed,
        "ledger store\n",
    ),
    (
        "s10 audit --snapshot --ledger nothing.db",
        JobStatus::Failed,
        "ledger not-a-ledger\n",
    ),
    (
        "s10 copy --ledger nothing.db --to nowhere/copy.db",
        JobStatus::Failed,
        "ledger not-a-ledger\n",
    ),
];

#[test]
fn a_job_that_fails_has_its_line_and_status(rt: HostRuntime) {
    for (asked, status, line) in CASES {
        assert!(rt; holds(&rt, asked, ends_with(&rt, asked, *status, line)));
    }
}

/// The same where no seed could be drawn.
const UNSEEDED: &[(&str, JobStatus, &str)] = &[
    (
        "s10 create --ledger unseeded.db --interval 30 --limit 100",
        JobStatus::Failed,
        "ledger store\n",
    ),
    (
        "s10 serve --ledger nothing.db --bind here --count 1",
        JobStatus::Refused,
        "refused peer\n",
    ),
    (
        "s10 serve --ledger nothing.db --bind 127.0.0.1:0 --count 1",
        JobStatus::Failed,
        "ledger store\n",
    ),
    (
        "s10 report --ledger nothing.db --day 20000",
        JobStatus::Failed,
        "ledger store\n",
    ),
    (
        "s10 audit --ledger nothing.db",
        JobStatus::Failed,
        "ledger store\n",
    ),
    (
        "s10 audit --snapshot --ledger nothing.db",
        JobStatus::Failed,
        "ledger store\n",
    ),
    (
        "s10 copy --ledger nothing.db --to nowhere/copy.db",
        JobStatus::Failed,
        "ledger store\n",
    ),
    (
        "s10 draw --to here --customer 7 --number 1 --service RA --country GB",
        JobStatus::Refused,
        "refused peer\n",
    ),
];

#[test]
fn a_job_without_a_seed_looks_up_no_file(rt: HostRuntime) {
    for (asked, status, line) in UNSEEDED {
        let seed = Err(Error::from(ErrorKind::Other));
        assert!(rt; holds(&rt, asked, ends_seeded(&rt, asked, seed, *status, line)));
    }
    assert!(rt; matches!(fs::exists(&rt, "unseeded.db"), Ok(false)));
}
