//! Datagrams of the first calls, as bytes.

/// The post's first Grant: RA GB 0 to 2 to customer 7.
pub const GRANT: &[u8] = b"S1\x01\x01\0\0\0\0\0\0\0\x01\0\0\0\x07RAGB\0\0\0\0\0\0\0\x02";

/// The reply to it: range 1.
pub const GRANTED: &[u8] =
    b"S1\x01\x81\0\0\0\0\0\0\0\x01\0\0\0\x07RAGB\0\0\0\0\0\0\0\x02\0\0\0\0\x01";

/// Customer 7's first Draw.
pub const DRAW: &[u8] = b"S1\x01\x02\0\0\0\x07\0\0\0\x01RAGB";

/// The reply to it: RA000000005GB, issued on day 20000.
pub const DRAWN: &[u8] = b"S1\x01\x82\0\0\0\x07\0\0\0\x01RAGB\0\0\0\x4e\x20RA000000005GB";

/// Customer 7's second Draw.
pub const SECOND_DRAW: &[u8] = b"S1\x01\x02\0\0\0\x07\0\0\0\x02RAGB";

/// The reply to it: RA000000014GB, issued on day 20000.
pub const SECOND_DRAWN: &[u8] = b"S1\x01\x82\0\0\0\x07\0\0\0\x02RAGB\0\0\0\x4e\x20RA000000014GB";

/// The Draw of customer 7's second client, which numbers its requests from 10.
pub const DRAW_10: &[u8] = b"S1\x01\x02\0\0\0\x07\0\0\0\x0aRAGB";

/// The reply to it if it is the first Draw: RA000000005GB, issued on day 20000.
pub const DRAWN_10: &[u8] = b"S1\x01\x82\0\0\0\x07\0\0\0\x0aRAGB\0\0\0\x4e\x20RA000000005GB";

/// The reply to the Draw of customer 7's first client if it is the second Draw: RA000000014GB,
/// issued on day 20000.
pub const DRAWN_1: &[u8] = b"S1\x01\x82\0\0\0\x07\0\0\0\x01RAGB\0\0\0\x4e\x20RA000000014GB";

/// The server's replies in the story, in order.
pub const STORY_REPLIES: &[&[u8]] = &[GRANTED, DRAWN_10, DRAWN_1, DRAWN_10, DRAWN_1];
