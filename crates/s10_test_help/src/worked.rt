//! Calls worked by hand, for each kind of book.

use crate::answered::Answered::{
    BadGrant, Drawn, Full, Granted, NoRange, NoneFree, NotIssued, NotThePost, NotYours,
    NumberReused, Overlap, Told, Voided,
};
use crate::asked::Asked::{Draw, DrawOfRb, Grant, GrantOfRb, Query, QueryOfUs, Void};
use crate::steps::{OPENING, Step};
use s10_wire::Status;

/// A serial is free again 30 days after its issue. A repeat is not executed and changes no day.
pub const INTERVAL: &'static [Step] = &[
    OPENING,
    (7, 1, Draw, 20000, Drawn(20000, 0)),
    (7, 2, Draw, 20000, Drawn(20000, 1)),
    (7, 3, Draw, 20000, Drawn(20000, 2)),
    (7, 4, Draw, 20029, NoneFree),
    (7, 4, Draw, 20030, NoneFree),
    (7, 5, Draw, 20029, NoneFree),
    (7, 6, Draw, 20030, Drawn(20030, 0)),
    (7, 1, Query(0), 20030, NumberReused),
    (7, 1, Draw, 20400, Drawn(20000, 0)),
];

/// The two highest serials are issued, and a Void makes none of them free.
pub const LAST_SERIALS: &'static [Step] = &[
    (0, 1, Grant(7, 99_999_998, 99_999_999), 20000, Granted(1)),
    (7, 1, Draw, 20000, Drawn(20000, 99_999_998)),
    (7, 2, Draw, 20000, Drawn(20000, 99_999_999)),
    (7, 3, Draw, 20000, NoneFree),
    (7, 4, Void(99_999_998), 20000, Voided),
    (7, 5, Draw, 20000, NoneFree),
];

/// A full ledger still replies to repeats of its kept calls.
pub const FULL_LEDGER: &'static [Step] = &[
    OPENING,
    (7, 1, Draw, 20000, Drawn(20000, 0)),
    (7, 2, Draw, 20000, Drawn(20000, 1)),
    (7, 3, Draw, 20000, Full),
    (7, 1, Draw, 20000, Drawn(20000, 0)),
    (7, 1, Query(0), 20000, NumberReused),
];

/// A Grant gets the first refusal that applies: not the post, bad grant, overlap.
pub const REFUSED_GRANTS: &'static [Step] = &[
    OPENING,
    (0, 2, Grant(8, 2, 5), 20000, Overlap),
    (0, 3, Grant(8, 3, 3), 20000, Granted(2)),
    (0, 4, GrantOfRb(8, 0, 2), 20000, Granted(3)),
    (0, 5, Grant(8, 9, 8), 20000, BadGrant),
    (0, 6, Grant(0, 4, 5), 20000, BadGrant),
    (0, 7, Grant(0, 0, 2), 20000, BadGrant),
    (7, 1, Grant(7, 4, 5), 20000, NotThePost),
    (7, 9, Grant(0, 9, 8), 20000, NotThePost),
    (7, 2, Draw, 20000, Drawn(20000, 0)),
    (7, 3, Draw, 20000, Drawn(20000, 1)),
    (7, 4, Draw, 20000, Drawn(20000, 2)),
    (7, 5, Draw, 20000, NoneFree),
    (8, 1, Draw, 20000, Drawn(20000, 3)),
];

/// Which customers may draw, void and query an identifier.
pub const WHO_MAY: &'static [Step] = &[
    OPENING,
    (8, 1, Query(0), 20000, NotYours),
    (8, 2, Void(0), 20000, NotYours),
    (0, 2, QueryOfUs(47_312_482), 20000, Told(Status::Unknown)),
    (0, 3, Query(0), 20000, Told(Status::Never)),
    (0, 4, Draw, 20000, NoRange),
    (0, 5, Void(0), 20000, NotYours),
    (7, 1, Void(2), 20000, NotIssued),
    (7, 2, Void(3), 20000, NotYours),
    (7, 3, DrawOfRb, 20000, NoRange),
    (7, 4, Draw, 20000, Drawn(20000, 0)),
    (7, 5, Query(0), 20001, Told(Status::Issued { day: 20000 })),
    (7, 6, Void(0), 20001, Voided),
    (0, 6, Query(0), 20001, Told(Status::Voided { day: 20000 })),
];
