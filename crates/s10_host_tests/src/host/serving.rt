//! Servers at addresses of this machine.

use s10_book::PlainBook;
use s10_history::Settings;
use s10_jobs::{AtCount, ClockDays, JobStatus, TurnOptions, serve_at};
use s10_lines::WriteFault;
use s10_link::{Peer, UdpLink};
use std::io::Write;
use std::net::Net;
use std::time::Clock;

const ANY: Peer = Peer {
    ip: [127, 0, 0, 1],
    port: 0,
};

/// Serves `count` turns of a new server at the address, and returns the result.
fn served_at<R: Net + Clock + Eprint + AllocGlobal, W: Write>(
    rt: &R,
    at: Peer,
    count: u32,
    out: &mut W,
) -> Result<JobStatus, WriteFault> {
    let book = PlainBook::new(rt.alloc(), Settings::new(30, 2).unwrap());
    let mut days = ClockDays { clock: rt };
    let options = TurnOptions {
        count,
        day: Some(20_000),
        most_days_ahead: None,
        senders: false,
    };
    let mut ends = AtCount;
    let (served, _link, _book) = serve_at(
        rt,
        rt.alloc(),
        at,
        book,
        &mut days,
        &mut ends,
        options,
        out,
    );
    served
}

/// Returns whether `count` turns of a new server at the address have this status and print this
/// text.
fn is_served_at<R: Net + Clock + Eprint + AllocGlobal>(
    rt: &R,
    at: Peer,
    count: u32,
    status: JobStatus,
    text: &str,
) -> bool {
    let mut out = Vec::new(rt.alloc());
    served_at(rt, at, count, &mut out) == Ok(status) && out.as_slice() == text.as_bytes()
}

#[test]
fn a_server_is_bound_before_its_turns(rt: HostRuntime) {
    assert!(rt; is_served_at(&rt, ANY, 0, JobStatus::Done, ""));
    let Ok(taken) = UdpLink::bind(&rt, ANY, 1) else {
        panic!(rt; "no socket");
    };
    assert!(rt; is_served_at(&rt, taken.local(), 1, JobStatus::Failed, "link bind\n"));
}
