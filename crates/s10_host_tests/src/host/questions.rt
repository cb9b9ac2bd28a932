//! Questions with texts that are refused, questions over sockets, and questions by notes.

use crate::host::job_words::job_of;
use s10_host::{HashSeed, JobEnd, run_job};
use s10_jobs::{ClockDays, Job, JobStatus};
use s10_lines::WriteFault;
use s10_test_help::expect::holds;
use s10_test_help::refusing::Refusing;
use s10_test_help::words::Words;
use sqlite::Unknown;
use std::io::Write;

/// A question as a command line, and its status and line.
type Case = (&'static str, JobStatus, &'static str);

/// Questions by a number.
const CASES: &[Case] = &[
    (
        "s10 draw --to 127.0.0.1 --customer 7 --number 1 --service ra --country gb --tries 1",
        JobStatus::Refused,
        "refused peer\n",
    ),
    (
        "s10 draw --to 127.0.0.1:04711 --customer 7 --number 1 --service RA --country GB --tries 1",
        JobStatus::Refused,
        "refused peer\n",
    ),
    (
        "s10 draw --to 127.0.0.1:4711 --customer 7 --number 1 --service ra --country gb --tries 1",
        JobStatus::Refused,
        "refused service\n",
    ),
    (
        "s10 draw --to 127.0.0.1:4711 --customer 7 --number 1 --service RAA --country GB --tries 1",
        JobStatus::Refused,
        "refused service\n",
    ),
    (
        "s10 draw --to 127.0.0.1:4711 --customer 7 --number 1 --service RA --country G8 --tries 1",
        JobStatus::Refused,
        "refused country\n",
    ),
    (
        "s10 query --to post:4711 --customer 7 --number 1 --id RA --tries 1",
        JobStatus::Refused,
        "refused peer\n",
    ),
    (
        "s10 query --to 127.0.0.1:4711 --customer 7 --number 1 --id RA --tries 1",
        JobStatus::Refused,
        "refused length\n",
    ),
    (
        "s10 query --to 127.0.0.1:4711 --customer 7 --number 1 --id 'ra 473 124 82x us' --tries 1",
        JobStatus::Refused,
        "refused digit 10\n",
    ),
    (
        "s10 query --to 127.0.0.1:4711 --customer 7 --number 1 --id 'RA 000 000 006 GB' --tries 1",
        JobStatus::Refused,
        "refused check-digit\n",
    ),
    (
        "s10 withdraw --to 127.0.0.1 --number 1 --range 1 --tries 1",
        JobStatus::Refused,
        "refused peer\n",
    ),
    // No datagram can be sent to port 0.
    (
        "s10 query --to 127.0.0.1:0 --customer 7 --number 1 --id 'ra 000 000 005 gb' --tries 1",
        JobStatus::Failed,
        "link send\n",
    ),
    (
        "s10 withdraw --to 127.0.0.1:0 --number 1 --range 1 --tries 1",
        JobStatus::Failed,
        "link send\n",
    ),
];

/// Questions by notes that are missing, and notes without a number.
const BY_NOTES: &[Case] = &[
    (
        "s10 again --to 127.0.0.1 --notes missing.notes --tries 1",
        JobStatus::Refused,
        "refused peer\n",
    ),
    (
        "s10 again --to 127.0.0.1:4711 --notes missing.notes --tries 1",
        JobStatus::Failed,
        "notes missing\n",
    ),
    (
        "s10 draw --to 127.0.0.1 --notes missing.notes --service ra --country GB --tries 1",
        JobStatus::Refused,
        "refused peer\n",
    ),
    (
        "s10 draw --to 127.0.0.1:4711 --notes missing.notes --service ra --country GB --tries 1",
        JobStatus::Refused,
        "refused service\n",
    ),
    (
        "s10 draw --to 127.0.0.1:4711 --notes missing.notes --service RA --country GB --tries 1",
        JobStatus::Failed,
        "notes missing\n",
    ),
    (
        "s10 notes --file refused.notes --customer 7 --first 2 --last 1",
        JobStatus::Refused,
        "refused numbers\n",
    ),
];

/// Runs a job and returns its result.
fn answer_of<'x, W: Write>(
    rt: &'x HostRuntime,
    job: &Job<'x>,
    out: &mut W,
) -> Result<JobStatus, WriteFault> {
    let mut days = ClockDays { clock: rt };
    let JobEnd {
        done,
        resources: _used,
    } = run_job(rt, job, Ok(HashSeed::fixed()), Unknown, &mut days, out);
    done
}

/// Returns whether a job ends with this status and prints this line, and fails if the writer accepts
/// nothing.
fn is_reported(rt: &HostRuntime, job: &Job<'_>, status: JobStatus, line: &str) -> bool {
    let mut out = Vec::new(rt.alloc());
    answer_of(rt, job, &mut out) == Ok(status)
        && out.as_slice() == line.as_bytes()
        && answer_of(rt, job, &mut Refusing) == Err(WriteFault)
}

/// Returns the same for the job that a command line asks for.
fn asked_is_reported(rt: &HostRuntime, asked: &str, status: JobStatus, line: &str) -> bool {
    let words = Words::of(asked);
    match job_of(rt, words.as_slice()) {
        Some(job) => is_reported(rt, &job, status, line),
        None => false,
    }
}

#[test]
fn a_question_that_is_not_sent_has_its_line(rt: HostRuntime) {
    for (asked, status, line) in CASES {
        assert!(rt; holds(&rt, asked, asked_is_reported(&rt, asked, *status, line)));
    }
}

#[test]
fn a_question_by_notes_that_is_not_sent_has_its_line(rt: HostRuntime) {
    for (asked, status, line) in BY_NOTES {
        assert!(rt; holds(&rt, asked, asked_is_reported(&rt, asked, *status, line)));
    }
}
