//! Requests and replies as values.

use crate::wire::vectors::{Asked, Call, Came, body, outcome, request};
use s10_test_help::expect::same;
use s10_wire::{Outcome, Reply, Request, Status, same_request};
use std::process::Abort;

const KINDS: [Asked; 6] = [
    Asked::Grant(7, 0, 2),
    Asked::Draw,
    Asked::Void(b"RA000000005GB"),
    Asked::Query(b"RA000000005GB"),
    Asked::DrawMany(2),
    Asked::Withdraw(1),
];

/// Outcomes, and which of the kinds above each of them fits.
const FITTING: &[(Came, [bool; 6])] = &[
    (Came::Granted(1), [true, false, false, false, false, false]),
    (
        Came::Drawn(1, b"RA000000005GB"),
        [false, true, false, false, false, false],
    ),
    (
        Came::DrawnMany(1, &[b"RA000000005GB"]),
        [false, false, false, false, false, false],
    ),
    (
        Came::DrawnMany(1, &[b"RA000000005GB", b"RA000000014GB"]),
        [false, false, false, false, true, false],
    ),
    (
        Came::DrawnMany(1, &[b"RA000000005GB", b"RA000000014GB", b"RA000000028GB"]),
        [false, false, false, false, false, false],
    ),
    (Came::Voided, [false, false, true, false, false, false]),
    (
        Came::Told(Status::Never),
        [false, false, false, true, false, false],
    ),
    (Came::NotThePost, [true, false, false, false, false, true]),
    (Came::BadGrant, [true, false, false, false, false, false]),
    (Came::Overlap, [true, false, false, false, false, false]),
    (Came::NoRange, [false, true, false, false, true, false]),
    (Came::NoneFree, [false, true, false, false, true, false]),
    (Came::NotYours, [false, false, true, true, false, false]),
    (Came::NotIssued, [false, false, true, false, false, false]),
    (Came::AlreadyVoid, [false, false, true, false, false, false]),
    (Came::Withdrawn, [false, false, false, false, false, true]),
    (Came::NoSuchRange, [false, false, false, false, false, true]),
    (Came::Closed, [false, false, false, false, false, true]),
    (Came::NumberReused, [true, true, true, true, true, true]),
];

/// Returns which kinds the outcome fits.
fn fits(rt: &impl Abort, outcome: &Outcome) -> [bool; 6] {
    let mut fits = [false; 6];
    for place in 0..6 {
        let request = Request {
            customer: 7,
            number: 1,
            body: body(rt, KINDS[place]),
        };
        fits[place] = Reply::new(request, *outcome).is_some();
    }
    fits
}

#[test]
fn a_reply_has_only_an_outcome_that_fits(rt: HostRuntime) {
    for (came, wanted) in FITTING {
        let outcome = outcome(&rt, came);
        assert!(rt; same(&rt, &outcome, &fits(&rt, &outcome), wanted));
    }
}

/// Two requests, and whether they are the same.
const PAIRS: &[(Call, Call, bool)] = &[
    ((7, 1, Asked::Draw), (7, 1, Asked::Draw), true),
    ((0, 2, Asked::Withdraw(1)), (0, 2, Asked::Withdraw(1)), true),
    (
        (0, 2, Asked::Withdraw(1)),
        (0, 2, Asked::Withdraw(2)),
        false,
    ),
    ((7, 1, Asked::Draw), (8, 1, Asked::Draw), false),
    ((7, 1, Asked::Draw), (7, 2, Asked::Draw), false),
    (
        (7, 1, Asked::Draw),
        (7, 1, Asked::Query(b"RA000000005GB")),
        false,
    ),
    ((7, 1, Asked::Draw), (7, 1, Asked::DrawMany(1)), false),
    ((7, 1, Asked::Draw), (7, 1, Asked::Withdraw(1)), false),
];

#[test]
fn requests_differ_by_any_field(rt: HostRuntime) {
    for (one, other, is_same) in PAIRS {
        let other = request(&rt, other);
        let found = same_request(&request(&rt, one), &other);
        assert!(rt; same(&rt, &other, &found, is_same));
    }
}
