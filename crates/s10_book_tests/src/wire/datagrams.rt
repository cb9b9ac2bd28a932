//! Datagrams: decoded, encoded, cut short and changed.

use crate::wire::vectors::{Asked, Call, Came, outcome, replies, reply, request, requests};
use s10_test_help::expect::same;
use s10_wire::{
    Frame, Reply, Request, WireFault, decode_reply, decode_request, encode_reply, encode_request,
};
use std::process::Abort;

/// Asserts that these bytes decode to the request, and that it encodes to these bytes.
fn are_encoded_request(rt: &(impl Abort + Eprint), bytes: &[u8], request: &Request) {
    assert!(rt; same(rt, &bytes, &decode_request(bytes), &Ok(*request)));
    assert!(rt; same(rt, &bytes, &encode_request(request).bytes(), &bytes));
}

#[test]
fn requests_decode_and_encode_to_the_same_bytes(rt: HostRuntime) {
    for (bytes, call) in requests() {
        are_encoded_request(&rt, bytes, &request(&rt, call));
    }
}

/// Asserts that these bytes decode to the reply, and that it encodes to these bytes.
fn are_encoded_reply(rt: &(impl Abort + Eprint), bytes: &[u8], reply: &Reply) {
    assert!(rt; same(rt, &bytes, &decode_reply(bytes), &Ok(*reply)));
    assert!(rt; same(rt, &bytes, &encode_reply(reply).bytes(), &bytes));
}

#[test]
fn replies_decode_and_encode_to_the_same_bytes(rt: HostRuntime) {
    for (bytes, call, came) in replies() {
        let reply = reply(&rt, bytes, call, came);
        are_encoded_reply(&rt, bytes, &reply);
        assert!(rt; same(&rt, bytes, &reply.request(), &request(&rt, call)));
        assert!(rt; same(&rt, bytes, &reply.outcome(), &outcome(&rt, came)));
    }
}

fn cut_at(end: usize) -> WireFault {
    if end < 12 {
        WireFault::Short
    } else {
        WireFault::Length
    }
}

/// Asserts that these bytes are no request when cut at any offset.
fn are_refused_where_cut(rt: &(impl Abort + Eprint), bytes: &[u8]) {
    for end in 0..bytes.len() {
        let cut = &bytes[..end];
        assert!(rt; same(rt, &cut, &decode_request(cut), &Err(cut_at(end))));
    }
}

/// Asserts that these bytes are no reply when cut at any offset.
fn are_no_reply_where_cut(rt: &(impl Abort + Eprint), bytes: &[u8]) {
    for end in 0..bytes.len() {
        let cut = &bytes[..end];
        assert!(rt; same(rt, &cut, &decode_reply(cut), &Err(cut_at(end))));
    }
}

#[test]
fn a_datagram_cut_short_is_refused(rt: HostRuntime) {
    for (bytes, _) in requests() {
        are_refused_where_cut(&rt, bytes);
    }
    for (bytes, _, _) in replies() {
        are_no_reply_where_cut(&rt, bytes);
    }
}

/// Returns the frame of the request that these bytes are, or `None` if they are none.
fn request_again(bytes: &[u8]) -> Option<Frame> {
    match decode_request(bytes) {
        Ok(request) => Some(encode_request(&request)),
        Err(_) => None,
    }
}

/// Returns the frame of the reply that these bytes are, or `None` if they are none.
fn reply_again(bytes: &[u8]) -> Option<Frame> {
    match decode_reply(bytes) {
        Ok(reply) => Some(encode_reply(&reply)),
        Err(_) => None,
    }
}

/// Returns whether these bytes decode, and asserts that the message encodes to the same bytes.
fn are_read(rt: &(impl Abort + Eprint), bytes: &[u8], is_reply: bool) -> bool {
    let again = if is_reply {
        reply_again(bytes)
    } else {
        request_again(bytes)
    };
    match again {
        Some(frame) => {
            assert!(rt; same(rt, &bytes, &frame.bytes(), &bytes));
            true
        }
        None => false,
    }
}

/// Returns how many of all changes of one byte still decode.
fn changes_read(rt: &(impl Abort + Eprint), bytes: &mut [u8], is_reply: bool) -> u32 {
    let mut count: u32 = 0;
    for at in 0..bytes.len() {
        let right = bytes[at];
        for changed in 0..=255u8 {
            bytes[at] = changed;
            if changed != right && are_read(rt, bytes, is_reply) {
                count = count.saturating_add(1);
            }
        }
        bytes[at] = right;
    }
    count
}

/// Asserts that n of all changes of one byte still decode, as a reply or as a request.
fn change(rt: &(impl Abort + Eprint), bytes: &mut [u8], is_reply: bool, wanted: u32) {
    let read = changes_read(rt, bytes, is_reply);
    assert!(rt; same(rt, &&*bytes, &read, &wanted));
}

#[test]
fn changed_bytes_are_refused_or_encoded_again(rt: HostRuntime) {
    let mut draw = *b"S1\x01\x02\x00\x00\x00\x07\x00\x00\x00\x01RAGB";
    let mut void = *b"S1\x01\x03\x00\x00\x00\x07\x00\x00\x00\x03RA000000014GB";
    let mut query = *b"S1\x01\x04\x00\x00\x00\x07\x00\x00\x00\x01RA000000005GB";
    change(&rt, &mut draw, false, 2_140);
    change(&rt, &mut void, false, 2_141);
    change(&rt, &mut query, false, 2_148);
}

#[test]
fn changed_bytes_of_a_draw_many_are_refused_or_encoded_again(rt: HostRuntime) {
    let mut asked = *b"S1\x02\x05\x00\x00\x00\x07\x00\x00\x00\x01RAGB\x02";
    let mut done =
        *b"S1\x02\x85\x00\x00\x00\x07\x00\x00\x00\x01RAGB\x02\x00\x00\x00\x4e\x20RA000000005GBRA000000014GB";
    let mut refused = *b"S1\x02\x85\x00\x00\x00\x07\x00\x00\x00\x02RAGB\x02\x05";
    change(&rt, &mut asked, false, 2_155);
    change(&rt, &mut done, true, 3_367);
    change(&rt, &mut refused, true, 2_157);
}

#[test]
fn changed_bytes_of_a_withdrawal_are_refused_or_encoded_again(rt: HostRuntime) {
    let mut asked = *b"S1\x02\x06\x00\x00\x00\x00\x00\x00\x00\x02\x00\x00\x00\x01";
    let mut done = *b"S1\x02\x86\x00\x00\x00\x00\x00\x00\x00\x02\x00\x00\x00\x01\x00";
    let mut refused = *b"S1\x02\x86\x00\x00\x00\x00\x00\x00\x00\x03\x00\x00\x00\x01\x0b";
    // Any other customer, number or range decodes, and in a reply any of the other four outcomes.
    change(&rt, &mut asked, false, 12 * 255);
    change(&rt, &mut done, true, 12 * 255 + 4);
    change(&rt, &mut refused, true, 12 * 255 + 4);
}

const SHEET: &[u8] =
    b"S1\x02\x85\x00\x00\x00\x07\x00\x00\x00\x01RAGB\x10\x00\x00\x00\x4e\x20RA000000005GBRA000000014GBRA000000028GBRA000000031GBRA000000045GBRA000000059GBRA000000062GBRA000000076GBRA000000080GBRA000000093GBRA000000102GBRA000000116GBRA000000120GBRA000000133GBRA000000147GBRA000000155GB";

const TEXTS: &[&[u8]] = &[
    b"RA000000005GB",
    b"RA000000014GB",
    b"RA000000028GB",
    b"RA000000031GB",
    b"RA000000045GB",
    b"RA000000059GB",
    b"RA000000062GB",
    b"RA000000076GB",
    b"RA000000080GB",
    b"RA000000093GB",
    b"RA000000102GB",
    b"RA000000116GB",
    b"RA000000120GB",
    b"RA000000133GB",
    b"RA000000147GB",
    b"RA000000155GB",
];

#[test]
fn a_sheet_of_sixteen_is_the_longest_reply(rt: HostRuntime) {
    let call: Call = (7, 1, Asked::DrawMany(16));
    let reply = reply(&rt, SHEET, &call, &Came::DrawnMany(20_000, TEXTS));
    are_encoded_reply(&rt, SHEET, &reply);
    assert!(rt; same(&rt, &SHEET, &SHEET.len(), &230));
}
