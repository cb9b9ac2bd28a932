//! Jobs that are done for each line of an input.

use crate::jobs::replays::{Failing, Narrow};
use s10_jobs::{InputFault, JobStatus, LineJob, print_each, run_each};
use s10_test_help::expect::{holds, is_text};
use std::alloc::Global;
use std::io::Read;

const CHECK: LineJob = LineJob::Check { is_label: false };

const LABEL: LineJob = LineJob::Check { is_label: true };

/// How a job ends.
type End = Result<JobStatus, InputFault>;

const DONE: End = Ok(JobStatus::Done);

const REFUSED: End = Ok(JobStatus::Refused);

/// Returns whether the job over this input ends like this and writes this text.
fn gives<R: Read>(alloc: Global, job: LineJob, input: &mut R, want: End, text: &str) -> bool {
    let mut output = Vec::new(alloc);
    let end = print_each(job, input, &mut output);
    is_text(output, text.as_bytes()) && end == want
}

/// A job, the bytes of its input, how it ends, and what it writes.
type Case = (LineJob, &'static [u8], End, &'static str);

const CASES: &[Case] = &[
    (CHECK, b"", DONE, ""),
    (LineJob::Make, b"", DONE, ""),
    (LineJob::Show, b"", DONE, ""),
    (
        CHECK,
        b"RA473124829US",
        DONE,
        "RA473124829US valid registered\n",
    ),
    (
        CHECK,
        b"RA473124829US\n",
        DONE,
        "RA473124829US valid registered\n",
    ),
    (
        CHECK,
        b"RA473124829US\r\n",
        DONE,
        "RA473124829US valid registered\n",
    ),
    (CHECK, b"RA473124829US\r\r\n", REFUSED, "refused length\n"),
    // An empty line has a line of its own, also the last one.
    (CHECK, b"\n", REFUSED, "refused length\n"),
    (
        CHECK,
        b"\r\n\n",
        REFUSED,
        "refused length\nrefused length\n",
    ),
    (LineJob::Make, b"\n", REFUSED, "refused service\n"),
    (LineJob::Show, b"\n", REFUSED, "refused short\n"),
    // The order is that of the input, and a valid line after a refused one changes no status.
    (
        CHECK,
        b"RA000000005GB\nRA000000004GB\nRA000000014GB\n",
        REFUSED,
        "RA000000005GB valid registered\nrefused check-digit\nRA000000014GB valid registered\n",
    ),
    (
        CHECK,
        b"x\nRA000000005GB",
        REFUSED,
        "refused length\nRA000000005GB valid registered\n",
    ),
    (
        LABEL,
        b"ra 000 000 005 gb\nra000000014gb\n",
        DONE,
        "RA000000005GB valid registered\nRA000000014GB valid registered\n",
    ),
    (CHECK, b"ra000000014gb\n", REFUSED, "refused letter 0\n"),
    // A byte that is no text.
    (CHECK, b"RA00000000\xffGB\n", REFUSED, "refused digit 10\n"),
    (
        LineJob::Make,
        b"RA 00000000 GB\nRA 00000001 GB\r\n",
        DONE,
        "RA000000005GB\nRA000000014GB\n",
    ),
    // Each part that a line may lack or have too much of.
    (LineJob::Make, b"RA\n", REFUSED, "refused serial\n"),
    (
        LineJob::Make,
        b"RA 00000000\n",
        REFUSED,
        "refused country\n",
    ),
    (
        LineJob::Make,
        b"RA 00000000 GB \n",
        REFUSED,
        "refused country\n",
    ),
    (
        LineJob::Make,
        b"RA 00000000 GB GB\n",
        REFUSED,
        "refused country\n",
    ),
    (
        LineJob::Make,
        b"RA  00000000 GB\n",
        REFUSED,
        "refused serial\n",
    ),
    (
        LineJob::Make,
        b" RA 00000000 GB\n",
        REFUSED,
        "refused service\n",
    ),
    (
        LineJob::Make,
        b"RA\t00000000\tGB\n",
        REFUSED,
        "refused service\n",
    ),
    (
        LineJob::Show,
        b"53310102000000070000000152414742\n5331018200000007000000045241474205\n533\n",
        REFUSED,
        "request draw customer 7 number 1 RA GB\n\
         reply draw customer 7 number 4 RA GB none-free\nrefused hex\n",
    ),
];

#[test]
fn each_line_has_its_line(rt: HostRuntime) {
    for case in CASES {
        let (job, bytes, want, text) = case;
        let mut input = *bytes;
        assert!(rt; holds(&rt, case, gives(rt.alloc(), *job, &mut input, *want, text)));
    }
}

#[test]
fn input_that_fails_ends_the_job(rt: HostRuntime) {
    let mut input = Failing {
        bytes: b"RA000000005GB\nRA0000000",
        interruptions: 3,
    };
    let text = "RA000000005GB valid registered\n";
    let want = Err(InputFault::Read);
    assert!(rt; gives(rt.alloc(), CHECK, &mut input, want, text));
}

/// Returns a line of 1,036 digits after a line of one.
fn longest() -> [u8; 1038] {
    let mut bytes = [b'0'; 1038];
    bytes[1] = b'\n';
    bytes
}

/// Returns a line of 1,038 digits after a line of one.
fn long() -> [u8; 1040] {
    let mut bytes = [b'0'; 1040];
    bytes[1] = b'\n';
    bytes
}

#[test]
fn longest_line_is_read_and_a_longer_one_ends_the_job(rt: HostRuntime) {
    let bytes = longest();
    let mut input = &bytes[..];
    let text = "refused length\nrefused length\n";
    assert!(rt; gives(rt.alloc(), CHECK, &mut input, REFUSED, text));
    let bytes = long();
    let mut longer = &bytes[..];
    let (want, text) = (Err(InputFault::Line(2)), "refused length\n");
    assert!(rt; gives(rt.alloc(), CHECK, &mut longer, want, text));
    assert!(rt; longer.len() == 1);
}

#[test]
fn last_line_says_why_the_job_ended_early(rt: HostRuntime) {
    let bytes = long();
    let mut input = &bytes[..];
    let mut output = Vec::new(rt.alloc());
    let end = run_each(CHECK, &mut input, &mut output);
    assert!(rt; end == Ok(JobStatus::Refused));
    assert!(rt; is_text(output, b"refused length\nrefused line 2\n"));
}

#[test]
fn output_that_fails_ends_the_job(rt: HostRuntime) {
    let mut input: &[u8] = b"x\ny\nz\n";
    let mut output = Narrow { room: 20 };
    let end = print_each(CHECK, &mut input, &mut output);
    assert!(rt; end == Err(InputFault::Write) && input == b"z\n".as_slice());
}
