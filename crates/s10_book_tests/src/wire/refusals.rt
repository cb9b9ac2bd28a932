//! Bytes that are refused, with the fault of each.

use s10_lines::WriteFault;
use s10_test_help::expect::same;
use s10_wire::{WireFault, decode_reply, decode_request};
use std::alloc::Global;
use std::fmt::{Debug, Display};
use std::process::Abort;
use std::test::Fail;

/// Asserts that these bytes are no requests, each with its fault.
fn are_no_requests(rt: &(impl Abort + Eprint), refused: &[(&[u8], WireFault)]) {
    for (bytes, fault) in refused {
        assert!(rt; same(rt, bytes, &decode_request(bytes), &Err(*fault)));
    }
}

/// Asserts that these bytes are no replies, each with its fault.
fn are_no_replies(rt: &(impl Abort + Eprint), refused: &[(&[u8], WireFault)]) {
    for (bytes, fault) in refused {
        assert!(rt; same(rt, bytes, &decode_reply(bytes), &Err(*fault)));
    }
}

const REQUESTS: &[(&[u8], WireFault)] = &[
    (
        b"S1\x01\x02\x00\x00\x00\x07\x00\x00\x00\x01RAG",
        WireFault::Length,
    ),
    (
        b"S1\x01\x02\x00\x00\x00\x07\x00\x00\x00\x01RAGB\x00",
        WireFault::Length,
    ),
    (
        b"S1\x09\x02\x00\x00\x00\x07\x00\x00\x00\x01RAGB",
        WireFault::Version,
    ),
    (
        b"S1\x01\x00\x00\x00\x00\x07\x00\x00\x00\x01RAGB",
        WireFault::Kind,
    ),
    (
        b"S1\x01\x82\x00\x00\x00\x07\x00\x00\x00\x01RAGB\x00\x00\x00\x4e\x20RA000000005GB",
        WireFault::Kind,
    ),
    (
        b"S1\x01\x02\x00\x00\x00\x07\x00\x00\x00\x01raGB",
        WireFault::Field(12),
    ),
    (
        b"S1\x01\x01\x00\x00\x00\x00\x00\x00\x00\x01\x00\x00\x00\x07RAGB\x00\x00\x00\x00\x05\xf5\xe1\x00",
        WireFault::Field(24),
    ),
    (
        b"S0\x01\x02\x00\x00\x00\x07\x00\x00\x00\x01RAGB",
        WireFault::Magic,
    ),
    (b"S1\x01\x02\x00\x00\x00\x07\x00\x00\x00", WireFault::Short),
    (b"", WireFault::Short),
];

#[test]
fn a_request_is_refused_for_its_first_fault(rt: HostRuntime) {
    are_no_requests(&rt, REQUESTS);
}

const REPLIES: &[(&[u8], WireFault)] = &[
    (
        b"S1\x01\x82\x00\x00\x00\x07\x00\x00\x00\x04RAGB\x00",
        WireFault::Length,
    ),
    (
        b"S1\x01\x82\x00\x00\x00\x07\x00\x00\x00\x04RAGB\x0a",
        WireFault::Outcome,
    ),
    (
        b"S1\x01\x83\x00\x00\x00\x07\x00\x00\x00\x03RA000000014GB\x04",
        WireFault::Outcome,
    ),
    (
        b"S1\x01\x84\x00\x00\x00\x07\x00\x00\x00\x09RA000000014GB\x00\x04\x00\x00\x4e\x3e",
        WireFault::Field(26),
    ),
    (
        b"S1\x01\x84\x00\x00\x00\x07\x00\x00\x00\x09RA000000014GB\x00\x01\x00\x00\x00\x05",
        WireFault::Field(27),
    ),
];

#[test]
fn a_reply_is_refused_for_its_first_fault(rt: HostRuntime) {
    are_no_replies(&rt, REPLIES);
}

const SHEETS: &[(&[u8], WireFault)] = &[
    (
        b"S1\x02\x05\x00\x00\x00\x07\x00\x00\x00\x01RAGB",
        WireFault::Length,
    ),
    (
        b"S1\x02\x05\x00\x00\x00\x07\x00\x00\x00\x01RAGB\x02\x00",
        WireFault::Length,
    ),
    (
        b"S1\x03\x05\x00\x00\x00\x07\x00\x00\x00\x01RAGB\x02",
        WireFault::Version,
    ),
    (
        b"S1\x00\x02\x00\x00\x00\x07\x00\x00\x00\x01RAGB",
        WireFault::Version,
    ),
    (
        b"S1\x01\x05\x00\x00\x00\x07\x00\x00\x00\x01RAGB\x02",
        WireFault::Kind,
    ),
    (
        b"S1\x02\x01\x00\x00\x00\x00\x00\x00\x00\x01\x00\x00\x00\x07RAGB\x00\x00\x00\x00\x00\x00\x00\x02",
        WireFault::Kind,
    ),
    (
        b"S1\x02\x02\x00\x00\x00\x07\x00\x00\x00\x01RAGB",
        WireFault::Kind,
    ),
    (
        b"S1\x02\x03\x00\x00\x00\x07\x00\x00\x00\x01RA000000014GB",
        WireFault::Kind,
    ),
    (
        b"S1\x02\x04\x00\x00\x00\x07\x00\x00\x00\x01RA000000014GB",
        WireFault::Kind,
    ),
    (
        b"S1\x02\x07\x00\x00\x00\x07\x00\x00\x00\x01RAGB\x02",
        WireFault::Kind,
    ),
    (
        b"S1\x02\x85\x00\x00\x00\x07\x00\x00\x00\x01RAGB\x02",
        WireFault::Kind,
    ),
    (
        b"S1\x02\x05\x00\x00\x00\x07\x00\x00\x00\x01rAGB\x00",
        WireFault::Field(12),
    ),
    (
        b"S1\x02\x05\x00\x00\x00\x07\x00\x00\x00\x01RAgb\x00",
        WireFault::Field(14),
    ),
    (
        b"S1\x02\x05\x00\x00\x00\x07\x00\x00\x00\x01RAGB\x00",
        WireFault::Field(16),
    ),
    (
        b"S1\x02\x05\x00\x00\x00\x07\x00\x00\x00\x01RAGB\x11",
        WireFault::Field(16),
    ),
    (
        b"S1\x02\x05\x00\x00\x00\x07\x00\x00\x00\x01RAGB\xff",
        WireFault::Field(16),
    ),
];

#[test]
fn a_draw_many_is_refused_for_its_first_fault(rt: HostRuntime) {
    are_no_requests(&rt, SHEETS);
}

const REPLIES_TO_SHEETS: &[(&[u8], WireFault)] = &[
    (
        b"S1\x02\x85\x00\x00\x00\x07\x00\x00\x00\x01RAGB\x02",
        WireFault::Length,
    ),
    (
        b"S1\x02\x85\x00\x00\x00\x07\x00\x00\x00\x01RAGB\x02\x00\x00\x00\x4e\x20RA000000005GB",
        WireFault::Length,
    ),
    (
        b"S1\x02\x85\x00\x00\x00\x07\x00\x00\x00\x01RAGB\x02\x00\x00\x00\x4e\x20RA000000005GBRA000000014GBRA000000005GB",
        WireFault::Length,
    ),
    (
        b"S1\x02\x85\x00\x00\x00\x07\x00\x00\x00\x01RAGB\x03\x00\x00\x00\x4e\x20RA000000005GBRA000000014GB",
        WireFault::Length,
    ),
    (
        b"S1\x02\x85\x00\x00\x00\x07\x00\x00\x00\x01RAGB\x02\x05\x00",
        WireFault::Length,
    ),
    (
        b"S1\x01\x85\x00\x00\x00\x07\x00\x00\x00\x01RAGB\x02\x05",
        WireFault::Kind,
    ),
    (
        b"S1\x02\x82\x00\x00\x00\x07\x00\x00\x00\x01RAGB\x05",
        WireFault::Kind,
    ),
    (
        b"S1\x02\x81\x00\x00\x00\x00\x00\x00\x00\x01\x00\x00\x00\x07RAGB\x00\x00\x00\x00\x00\x00\x00\x02\x01",
        WireFault::Kind,
    ),
    (
        b"S1\x02\x05\x00\x00\x00\x07\x00\x00\x00\x01RAGB\x02\x05",
        WireFault::Kind,
    ),
    (
        b"S1\x02\x85\x00\x00\x00\x07\x00\x00\x00\x01RAgB\x00\x06",
        WireFault::Field(14),
    ),
    (
        b"S1\x02\x85\x00\x00\x00\x07\x00\x00\x00\x01RAGB\x00\x00\x00\x00\x4e\x20",
        WireFault::Field(16),
    ),
    (
        b"S1\x02\x85\x00\x00\x00\x07\x00\x00\x00\x01RAGB\x11\x05",
        WireFault::Field(16),
    ),
    (
        b"S1\x02\x85\x00\x00\x00\x07\x00\x00\x00\x01RAGB\x02\x06",
        WireFault::Outcome,
    ),
    (
        b"S1\x02\x85\x00\x00\x00\x07\x00\x00\x00\x01RAGB\x02\x01",
        WireFault::Outcome,
    ),
    (
        b"S1\x02\x85\x00\x00\x00\x07\x00\x00\x00\x01RAGB\x02\x0a",
        WireFault::Outcome,
    ),
    (
        b"S1\x02\x85\x00\x00\x00\x07\x00\x00\x00\x01RAGB\x02\x00\x00\x00\x4e\x20RA000000006GBRA000000015GB",
        WireFault::Field(22),
    ),
    (
        b"S1\x02\x85\x00\x00\x00\x07\x00\x00\x00\x01RAGB\x02\x00\x00\x00\x4e\x20RA000000005GBRA000000014gB",
        WireFault::Field(35),
    ),
];

#[test]
fn a_reply_to_a_draw_many_is_refused_for_its_first_fault(rt: HostRuntime) {
    are_no_replies(&rt, REPLIES_TO_SHEETS);
}

const WITHDRAWALS: &[(&[u8], WireFault)] = &[
    (
        b"S1\x02\x06\x00\x00\x00\x00\x00\x00\x00\x02\x00\x00\x00",
        WireFault::Length,
    ),
    (
        b"S1\x02\x06\x00\x00\x00\x00\x00\x00\x00\x02\x00\x00\x00\x01\x00",
        WireFault::Length,
    ),
    (
        b"S1\x02\x06\x00\x00\x00\x00\x00\x00\x00\x02",
        WireFault::Length,
    ),
    (
        b"S1\x01\x06\x00\x00\x00\x00\x00\x00\x00\x02\x00\x00\x00\x01",
        WireFault::Kind,
    ),
    (
        b"S1\x02\x86\x00\x00\x00\x00\x00\x00\x00\x02\x00\x00\x00\x01",
        WireFault::Kind,
    ),
    (
        b"S1\x03\x06\x00\x00\x00\x00\x00\x00\x00\x02\x00\x00\x00\x01",
        WireFault::Version,
    ),
    (b"S1\x02\x06\x00\x00\x00\x00\x00\x00\x00", WireFault::Short),
];

#[test]
fn a_withdrawal_is_refused_for_its_first_fault(rt: HostRuntime) {
    are_no_requests(&rt, WITHDRAWALS);
}

const REPLIES_TO_WITHDRAWALS: &[(&[u8], WireFault)] = &[
    (
        b"S1\x02\x86\x00\x00\x00\x00\x00\x00\x00\x02\x00\x00\x00\x01",
        WireFault::Length,
    ),
    (
        b"S1\x02\x86\x00\x00\x00\x00\x00\x00\x00\x02\x00\x00\x00\x01\x00\x00",
        WireFault::Length,
    ),
    (
        b"S1\x02\x86\x00\x00\x00\x00\x00\x00\x00\x02\x00\x00\x00\x01\x0b\x00",
        WireFault::Length,
    ),
    (
        b"S1\x01\x86\x00\x00\x00\x00\x00\x00\x00\x02\x00\x00\x00\x01\x00",
        WireFault::Kind,
    ),
    (
        b"S1\x02\x06\x00\x00\x00\x00\x00\x00\x00\x02\x00\x00\x00\x01\x00",
        WireFault::Kind,
    ),
    (
        b"S1\x02\x87\x00\x00\x00\x00\x00\x00\x00\x02\x00\x00\x00\x01\x00",
        WireFault::Kind,
    ),
    (
        b"S1\x02\x83\x00\x00\x00\x07\x00\x00\x00\x03RA000000014GB\x00",
        WireFault::Kind,
    ),
    (
        b"S1\x02\x84\x00\x00\x00\x07\x00\x00\x00\x01RA000000014GB\x06",
        WireFault::Kind,
    ),
    (
        b"S1\x02\x86\x00\x00\x00\x00\x00\x00\x00\x02\x00\x00\x00\x01\x0c",
        WireFault::Outcome,
    ),
    (
        b"S1\x02\x86\x00\x00\x00\x00\x00\x00\x00\x02\x00\x00\x00\x01\xff",
        WireFault::Outcome,
    ),
];

#[test]
fn a_reply_to_a_withdrawal_is_refused_for_its_first_fault(rt: HostRuntime) {
    are_no_replies(&rt, REPLIES_TO_WITHDRAWALS);
}

/// Asserts that these bytes are no replies, since the outcome does not fit the kind.
fn have_no_outcome(rt: &(impl Abort + Eprint), refused: &[&[u8]]) {
    for bytes in refused {
        assert!(rt; same(rt, bytes, &decode_reply(bytes), &Err(WireFault::Outcome)));
    }
}

#[test]
fn outcomes_of_other_kinds_do_not_fit_a_withdrawal(rt: HostRuntime) {
    let mut bytes = *b"S1\x02\x86\x00\x00\x00\x00\x00\x00\x00\x02\x00\x00\x00\x01\x00";
    for code in 2..=8u8 {
        bytes[16] = code;
        have_no_outcome(&rt, &[&bytes]);
    }
}

const OUTCOMES_OF_WITHDRAWALS: &[&[u8]] = &[
    b"S1\x01\x81\x00\x00\x00\x00\x00\x00\x00\x01\x00\x00\x00\x07RAGB\x00\x00\x00\x00\x00\x00\x00\x02\x0a",
    b"S1\x01\x81\x00\x00\x00\x00\x00\x00\x00\x01\x00\x00\x00\x07RAGB\x00\x00\x00\x00\x00\x00\x00\x02\x0b",
    b"S1\x01\x82\x00\x00\x00\x07\x00\x00\x00\x04RAGB\x0a",
    b"S1\x01\x82\x00\x00\x00\x07\x00\x00\x00\x04RAGB\x0b",
    b"S1\x01\x83\x00\x00\x00\x07\x00\x00\x00\x03RA000000014GB\x0a",
    b"S1\x01\x83\x00\x00\x00\x07\x00\x00\x00\x03RA000000014GB\x0b",
    b"S1\x01\x84\x00\x00\x00\x07\x00\x00\x00\x01RA000000005GB\x0a",
    b"S1\x01\x84\x00\x00\x00\x07\x00\x00\x00\x01RA000000005GB\x0b",
    b"S1\x02\x85\x00\x00\x00\x07\x00\x00\x00\x01RAGB\x02\x0a",
    b"S1\x02\x85\x00\x00\x00\x07\x00\x00\x00\x01RAGB\x02\x0b",
];

#[test]
fn outcomes_of_a_withdrawal_fit_no_other_kind(rt: HostRuntime) {
    have_no_outcome(&rt, OUTCOMES_OF_WITHDRAWALS);
}

const FAULTS: &[(WireFault, &str)] = &[
    (WireFault::Short, "a datagram has at least 12 bytes"),
    (WireFault::Magic, "a datagram begins with the bytes 53 31"),
    (WireFault::Version, "the version is neither 1 nor 2"),
    (WireFault::Kind, "no such kind"),
    (WireFault::Length, "the length is not that of the kind"),
    (WireFault::Field(12), "the field at 12 is wrong"),
    (WireFault::Outcome, "the outcome does not fit the kind"),
];

/// Asserts that the fault is shown as this text.
fn says<F: Debug + Display>(
    rt: &(impl Abort + Eprint),
    alloc: Global,
    fault: &F,
    text: &str,
) -> Result<(), Fail> {
    let shown = format!(in alloc; "{fault}")?;
    assert!(rt; same(rt, fault, &shown.as_str(), &text));
    Ok(())
}

#[test]
fn faults_say_what_is_wrong(rt: HostRuntime) -> Result<(), Fail> {
    for (fault, text) in FAULTS {
        says(&rt, rt.alloc(), fault, text)?;
    }
    says(
        &rt,
        rt.alloc(),
        &WriteFault,
        "the line could not be written",
    )
}
