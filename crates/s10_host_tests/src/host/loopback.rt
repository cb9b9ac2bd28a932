//! Calls between two sockets of this machine.

use s10_host::run_loop;
use s10_jobs::JobStatus;
use s10_lines::WriteFault;
use s10_test_help::refusing::Refusing;
use std::io::Write;
use std::net::Net;

const LINES: &str = "\
reply grant customer 0 number 1 holder 7 RA GB 00000000 00000002 done range 1
reply draw customer 7 number 1 RA GB done day 20000 RA000000005GB
reply draw customer 7 number 2 RA GB done day 20000 RA000000014GB
reply void customer 7 number 3 RA000000005GB done
reply query customer 7 number 4 RA000000005GB done voided 20000
";

/// Runs a loop and returns its result.
fn looped<R: Net + Eprint + AllocGlobal, W: Write>(
    rt: &R,
    out: &mut W,
) -> Result<JobStatus, WriteFault> {
    let (done, _link) = run_loop(rt, 20_000, out);
    done
}

/// Returns whether a loop prints the five replies, and fails if the writer accepts nothing.
fn prints_five_replies<R: Net + Eprint + AllocGlobal>(rt: &R) -> bool {
    let mut out = Vec::new(rt.alloc());
    looped(rt, &mut out) == Ok(JobStatus::Done)
        && out.as_slice() == LINES.as_bytes()
        && looped(rt, &mut Refusing) == Err(WriteFault)
}

#[test]
fn loop_prints_five_replies(rt: HostRuntime) {
    assert!(rt; prints_five_replies(&rt));
}
