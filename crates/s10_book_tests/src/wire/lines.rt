//! Requests and replies as lines.

use crate::wire::vectors::{Asked, Call, Came, reply, request};
use s10_lines::{WriteFault, write_reply_line, write_request_line};
use s10_test_help::expect::same;
use s10_test_help::hiccup::Hiccup;
use s10_wire::{Reply, Request, Status};
use std::alloc::Global;
use std::process::Abort;

/// Requests, and the line of each.
const REQUEST_LINES: &[(Call, &[u8])] = &[
    (
        (0, 1, Asked::Grant(7, 0, 2)),
        b"request grant customer 0 number 1 holder 7 RA GB 00000000 00000002\n",
    ),
    (
        (7, 1, Asked::Draw),
        b"request draw customer 7 number 1 RA GB\n",
    ),
    (
        (7, 3, Asked::Void(b"RA000000014GB")),
        b"request void customer 7 number 3 RA000000014GB\n",
    ),
    (
        (u32::MAX, 0, Asked::Query(b"RA473124829US")),
        b"request query customer 4294967295 number 0 RA473124829US\n",
    ),
    (
        (7, 1, Asked::DrawMany(16)),
        b"request draw-many customer 7 number 1 RA GB 16\n",
    ),
    (
        (0, 2, Asked::Withdraw(u32::MAX)),
        b"request withdraw customer 0 number 2 4294967295\n",
    ),
];

/// Requests, their outcomes, and the line of each reply.
const REPLY_LINES: &'static [(Call, Came, &'static [u8])] = &[
    (
        (0, 1, Asked::Grant(7, 0, 2)),
        Came::Granted(1),
        b"reply grant customer 0 number 1 holder 7 RA GB 00000000 00000002 done range 1\n",
    ),
    (
        (0, 1, Asked::Grant(7, 0, 2)),
        Came::NotThePost,
        b"reply grant customer 0 number 1 holder 7 RA GB 00000000 00000002 not-the-post\n",
    ),
    (
        (0, 1, Asked::Grant(7, 0, 2)),
        Came::BadGrant,
        b"reply grant customer 0 number 1 holder 7 RA GB 00000000 00000002 bad-grant\n",
    ),
    (
        (0, 1, Asked::Grant(7, 0, 2)),
        Came::Overlap,
        b"reply grant customer 0 number 1 holder 7 RA GB 00000000 00000002 overlap\n",
    ),
    (
        (0, 1, Asked::Grant(7, 0, 2)),
        Came::NumberReused,
        b"reply grant customer 0 number 1 holder 7 RA GB 00000000 00000002 number-reused\n",
    ),
    (
        (7, 1, Asked::Draw),
        Came::Drawn(20_000, b"RA000000005GB"),
        b"reply draw customer 7 number 1 RA GB done day 20000 RA000000005GB\n",
    ),
    (
        (7, 1, Asked::Draw),
        Came::NoRange,
        b"reply draw customer 7 number 1 RA GB no-range\n",
    ),
    (
        (7, 1, Asked::Draw),
        Came::NoneFree,
        b"reply draw customer 7 number 1 RA GB none-free\n",
    ),
    (
        (7, 1, Asked::Draw),
        Came::NumberReused,
        b"reply draw customer 7 number 1 RA GB number-reused\n",
    ),
    (
        (7, 3, Asked::Void(b"RA000000005GB")),
        Came::Voided,
        b"reply void customer 7 number 3 RA000000005GB done\n",
    ),
    (
        (7, 3, Asked::Void(b"RA000000005GB")),
        Came::NotYours,
        b"reply void customer 7 number 3 RA000000005GB not-yours\n",
    ),
    (
        (7, 3, Asked::Void(b"RA000000005GB")),
        Came::NotIssued,
        b"reply void customer 7 number 3 RA000000005GB not-issued\n",
    ),
    (
        (7, 3, Asked::Void(b"RA000000005GB")),
        Came::AlreadyVoid,
        b"reply void customer 7 number 3 RA000000005GB already-void\n",
    ),
    (
        (7, 3, Asked::Void(b"RA000000005GB")),
        Came::NumberReused,
        b"reply void customer 7 number 3 RA000000005GB number-reused\n",
    ),
    (
        (7, 4, Asked::Query(b"RA000000005GB")),
        Came::Told(Status::Unknown),
        b"reply query customer 7 number 4 RA000000005GB done unknown\n",
    ),
    (
        (7, 4, Asked::Query(b"RA000000005GB")),
        Came::Told(Status::Never),
        b"reply query customer 7 number 4 RA000000005GB done never\n",
    ),
    (
        (7, 4, Asked::Query(b"RA000000005GB")),
        Came::Told(Status::Issued { day: 20_000 }),
        b"reply query customer 7 number 4 RA000000005GB done issued 20000\n",
    ),
    (
        (7, 4, Asked::Query(b"RA000000005GB")),
        Came::Told(Status::Voided { day: 20_000 }),
        b"reply query customer 7 number 4 RA000000005GB done voided 20000\n",
    ),
    (
        (7, 4, Asked::Query(b"RA000000005GB")),
        Came::NotYours,
        b"reply query customer 7 number 4 RA000000005GB not-yours\n",
    ),
    (
        (7, 4, Asked::Query(b"RA000000005GB")),
        Came::NumberReused,
        b"reply query customer 7 number 4 RA000000005GB number-reused\n",
    ),
    (
        (7, 1, Asked::DrawMany(2)),
        Came::DrawnMany(20_000, &[b"RA000000005GB", b"RA000000014GB"]),
        b"reply draw-many customer 7 number 1 RA GB 2 done day 20000 RA000000005GB RA000000014GB\n",
    ),
    (
        (7, 2, Asked::DrawMany(2)),
        Came::NoRange,
        b"reply draw-many customer 7 number 2 RA GB 2 no-range\n",
    ),
    (
        (7, 2, Asked::DrawMany(2)),
        Came::NoneFree,
        b"reply draw-many customer 7 number 2 RA GB 2 none-free\n",
    ),
    (
        (7, 2, Asked::DrawMany(2)),
        Came::NumberReused,
        b"reply draw-many customer 7 number 2 RA GB 2 number-reused\n",
    ),
    (
        (0, 2, Asked::Withdraw(1)),
        Came::Withdrawn,
        b"reply withdraw customer 0 number 2 1 done\n",
    ),
    (
        (7, 2, Asked::Withdraw(1)),
        Came::NotThePost,
        b"reply withdraw customer 7 number 2 1 not-the-post\n",
    ),
    (
        (0, 2, Asked::Withdraw(1)),
        Came::NoSuchRange,
        b"reply withdraw customer 0 number 2 1 no-such-range\n",
    ),
    (
        (0, 2, Asked::Withdraw(1)),
        Came::Closed,
        b"reply withdraw customer 0 number 2 1 closed\n",
    ),
    (
        (0, 2, Asked::Withdraw(1)),
        Came::NumberReused,
        b"reply withdraw customer 0 number 2 1 number-reused\n",
    ),
];

// The prover proves a table again wherever it is named, so this one is named once.
fn reply_lines() -> &'static [(Call, Came, &'static [u8])] {
    REPLY_LINES
}

/// Asserts that the line was written whole.
fn is_written(rt: &(impl Abort + Eprint), answer: Result<(), WriteFault>, out: &[u8], line: &[u8]) {
    assert!(rt; same(rt, &line, &answer, &Ok(())));
    assert!(rt; same(rt, &line, &out, &line));
}

#[test]
fn each_kind_of_request_has_its_line(rt: HostRuntime) {
    for (call, line) in REQUEST_LINES {
        let mut out = Vec::new(rt.alloc());
        let answer = write_request_line(&request(&rt, call), &mut out);
        is_written(&rt, answer, &out, line);
    }
}

#[test]
fn each_outcome_of_each_kind_has_its_line(rt: HostRuntime) {
    for (call, came, line) in reply_lines() {
        let mut out = Vec::new(rt.alloc());
        let answer = write_reply_line(&reply(&rt, line, call, came), &mut out);
        is_written(&rt, answer, &out, line);
    }
}

/// Returns whether the writer failed and has exactly the first `room` bytes of the line.
fn is_cut(answer: Result<(), WriteFault>, out: &Hiccup, line: &[u8], room: usize) -> bool {
    room < line.len() && answer == Err(WriteFault) && out.bytes.as_slice() == &line[..room]
}

fn is_cut_request_line(alloc: Global, request: &Request, line: &[u8], room: usize) -> bool {
    let mut out = Hiccup::new(alloc, room);
    let answer = write_request_line(request, &mut out);
    is_cut(answer, &out, line, room)
}

fn is_cut_reply_line(alloc: Global, reply: &Reply, line: &[u8], room: usize) -> bool {
    let mut out = Hiccup::new(alloc, room);
    let answer = write_reply_line(reply, &mut out);
    is_cut(answer, &out, line, room)
}

fn is_cut_everywhere(rt: &(impl Abort + Eprint), alloc: Global, request: &Request, line: &[u8]) {
    for room in 0..line.len() {
        let is_cut = is_cut_request_line(alloc, request, line, room);
        assert!(rt; same(rt, &&line[..room], &is_cut, &true));
    }
}

fn is_reply_cut_everywhere(rt: &(impl Abort + Eprint), alloc: Global, reply: &Reply, line: &[u8]) {
    for room in 0..line.len() {
        let is_cut = is_cut_reply_line(alloc, reply, line, room);
        assert!(rt; same(rt, &&line[..room], &is_cut, &true));
    }
}

#[test]
fn a_writer_that_fails_once_has_the_beginning_of_the_line(rt: HostRuntime) {
    for (call, line) in REQUEST_LINES {
        is_cut_everywhere(&rt, rt.alloc(), &request(&rt, call), line);
    }
    for (call, came, line) in reply_lines() {
        is_reply_cut_everywhere(&rt, rt.alloc(), &reply(&rt, line, call, came), line);
    }
}
