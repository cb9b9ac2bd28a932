//! Frames, which are equal if their bytes are equal.

use crate::wire::vectors::{replies, reply, request, requests};
use s10_test_help::expect::same;
use s10_wire::{Frame, encode_reply, encode_request};
use std::process::Abort;

/// Asserts that the frame equals that of the requests with these bytes, and of no other.
fn is_known_by_its_bytes(rt: &(impl Abort + Eprint), frame: &Frame, bytes: &[u8]) {
    for (other, call) in requests() {
        let is_frame = *frame == encode_request(&request(rt, call));
        assert!(rt; same(rt, &bytes, &is_frame, &(bytes == *other)));
    }
}

#[test]
fn requests_have_equal_frames_if_their_bytes_are_equal(rt: HostRuntime) {
    for (bytes, call) in requests() {
        is_known_by_its_bytes(&rt, &encode_request(&request(&rt, call)), bytes);
    }
}

#[test]
fn no_reply_has_the_frame_of_a_request(rt: HostRuntime) {
    for (bytes, call, came) in replies() {
        let frame = encode_reply(&reply(&rt, bytes, call, came));
        is_known_by_its_bytes(&rt, &frame, bytes);
    }
}
