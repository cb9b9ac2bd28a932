//! Datagrams as bytes, and their meaning.

use s10_core::{Country, Id, Serial, Service};
use s10_test_help::expect::same;
use s10_wire::{Body, Count, Ids, Outcome, Reply, Request, Status};
use std::process::Abort;

/// What a request of a table asks, of RA GB unless it names an identifier.
#[derive(Clone, Copy)]
pub(crate) enum Asked {
    /// The holder, the first and the last serial.
    Grant(u32, u32, u32),
    Draw,
    /// The text of the identifier.
    Void(&'static [u8]),
    /// The text of the identifier.
    Query(&'static [u8]),
    /// The number of identifiers.
    DrawMany(u8),
    /// The number of the range.
    Withdraw(u32),
}

/// The outcome of a request of a table.
#[derive(Clone, Copy)]
pub(crate) enum Came {
    /// The day, and the text of the identifier.
    Drawn(u32, &'static [u8]),
    /// The day, and the texts of the identifiers of the sheet.
    DrawnMany(u32, &'static [&'static [u8]]),
    /// The number of the range.
    Granted(u32),
    /// The status of the identifier.
    Told(Status),
    Voided,
    Withdrawn,
    NotThePost,
    BadGrant,
    Overlap,
    NoRange,
    NoneFree,
    NotYours,
    NotIssued,
    AlreadyVoid,
    NoSuchRange,
    Closed,
    NumberReused,
}

/// A request of a table: the customer, the number, and what it asks.
pub(crate) type Call = (u32, u32, Asked);

/// The bytes of a request, and the request.
pub(crate) type Vector = (&'static [u8], Call);

const REQUESTS: &'static [Vector] = &[
    (
        b"S1\x01\x01\x00\x00\x00\x00\x00\x00\x00\x01\x00\x00\x00\x07RAGB\x00\x00\x00\x00\x00\x00\x00\x02",
        (0, 1, Asked::Grant(7, 0, 2)),
    ),
    (
        b"S1\x01\x02\x00\x00\x00\x07\x00\x00\x00\x01RAGB",
        (7, 1, Asked::Draw),
    ),
    (
        b"S1\x01\x02\x00\x00\x00\x07\x00\x00\x00\x02RAGB",
        (7, 2, Asked::Draw),
    ),
    (
        b"S1\x01\x02\x00\x00\x00\x07\x00\x00\x00\x03RAGB",
        (7, 3, Asked::Draw),
    ),
    (
        b"S1\x01\x02\x00\x00\x00\x07\x00\x00\x00\x04RAGB",
        (7, 4, Asked::Draw),
    ),
    (
        b"S1\x01\x02\x00\x00\x00\x07\x00\x00\x00\x05RAGB",
        (7, 5, Asked::Draw),
    ),
    (
        b"S1\x01\x03\x00\x00\x00\x07\x00\x00\x00\x03RA000000014GB",
        (7, 3, Asked::Void(b"RA000000014GB")),
    ),
    (
        b"S1\x01\x04\x00\x00\x00\x07\x00\x00\x00\x01RA000000005GB",
        (7, 1, Asked::Query(b"RA000000005GB")),
    ),
    (
        b"S1\x02\x05\x00\x00\x00\x07\x00\x00\x00\x01RAGB\x02",
        (7, 1, Asked::DrawMany(2)),
    ),
    (
        b"S1\x02\x06\x00\x00\x00\x00\x00\x00\x00\x02\x00\x00\x00\x01",
        (0, 2, Asked::Withdraw(1)),
    ),
];

// The prover proves a table again wherever it is named, so each of the two is named once.
pub(crate) fn requests() -> &'static [Vector] {
    REQUESTS
}

/// The bytes of a reply, its request, and its outcome.
pub(crate) type ReplyVector = (&'static [u8], Call, Came);

const REPLIES: &'static [ReplyVector] = &[
    (
        b"S1\x01\x81\x00\x00\x00\x00\x00\x00\x00\x01\x00\x00\x00\x07RAGB\x00\x00\x00\x00\x00\x00\x00\x02\x00\x00\x00\x00\x01",
        (0, 1, Asked::Grant(7, 0, 2)),
        Came::Granted(1),
    ),
    (
        b"S1\x01\x82\x00\x00\x00\x07\x00\x00\x00\x01RAGB\x00\x00\x00\x4e\x20RA000000005GB",
        (7, 1, Asked::Draw),
        Came::Drawn(20_000, b"RA000000005GB"),
    ),
    (
        b"S1\x01\x82\x00\x00\x00\x07\x00\x00\x00\x02RAGB\x00\x00\x00\x4e\x20RA000000014GB",
        (7, 2, Asked::Draw),
        Came::Drawn(20_000, b"RA000000014GB"),
    ),
    (
        b"S1\x01\x82\x00\x00\x00\x07\x00\x00\x00\x03RAGB\x00\x00\x00\x4e\x20RA000000028GB",
        (7, 3, Asked::Draw),
        Came::Drawn(20_000, b"RA000000028GB"),
    ),
    (
        b"S1\x01\x82\x00\x00\x00\x07\x00\x00\x00\x04RAGB\x05",
        (7, 4, Asked::Draw),
        Came::NoneFree,
    ),
    (
        b"S1\x01\x82\x00\x00\x00\x07\x00\x00\x00\x05RAGB\x00\x00\x00\x4e\x3eRA000000005GB",
        (7, 5, Asked::Draw),
        Came::Drawn(20_030, b"RA000000005GB"),
    ),
    (
        b"S1\x01\x83\x00\x00\x00\x07\x00\x00\x00\x03RA000000014GB\x00",
        (7, 3, Asked::Void(b"RA000000014GB")),
        Came::Voided,
    ),
    (
        b"S1\x01\x83\x00\x00\x00\x07\x00\x00\x00\x04RA000000014GB\x08",
        (7, 4, Asked::Void(b"RA000000014GB")),
        Came::AlreadyVoid,
    ),
    (
        b"S1\x01\x84\x00\x00\x00\x07\x00\x00\x00\x01RA000000005GB\x09",
        (7, 1, Asked::Query(b"RA000000005GB")),
        Came::NumberReused,
    ),
    (
        b"S1\x01\x84\x00\x00\x00\x07\x00\x00\x00\x09RA000000014GB\x00\x02\x00\x00\x4e\x3e",
        (7, 9, Asked::Query(b"RA000000014GB")),
        Came::Told(Status::Issued { day: 20_030 }),
    ),
    (
        b"S1\x01\x84\x00\x00\x00\x00\x00\x00\x00\x02RA473124829US\x00\x00\x00\x00\x00\x00",
        (0, 2, Asked::Query(b"RA473124829US")),
        Came::Told(Status::Unknown),
    ),
    (
        b"S1\x01\x81\x00\x00\x00\x00\x00\x00\x00\x02\x00\x00\x00\x08RAGB\x00\x00\x00\x02\x00\x00\x00\x05\x03",
        (0, 2, Asked::Grant(8, 2, 5)),
        Came::Overlap,
    ),
    (
        b"S1\x02\x85\x00\x00\x00\x07\x00\x00\x00\x01RAGB\x02\x00\x00\x00\x4e\x20RA000000005GBRA000000014GB",
        (7, 1, Asked::DrawMany(2)),
        Came::DrawnMany(20_000, &[b"RA000000005GB", b"RA000000014GB"]),
    ),
    (
        b"S1\x02\x85\x00\x00\x00\x07\x00\x00\x00\x02RAGB\x02\x05",
        (7, 2, Asked::DrawMany(2)),
        Came::NoneFree,
    ),
    (
        b"S1\x02\x85\x00\x00\x00\x07\x00\x00\x00\x04RAGB\x03\x00\x00\x00\x4e\x3eRA000000005GBRA000000014GBRA000000028GB",
        (7, 4, Asked::DrawMany(3)),
        Came::DrawnMany(
            20_030,
            &[b"RA000000005GB", b"RA000000014GB", b"RA000000028GB"],
        ),
    ),
    (
        b"S1\x02\x86\x00\x00\x00\x00\x00\x00\x00\x02\x00\x00\x00\x01\x00",
        (0, 2, Asked::Withdraw(1)),
        Came::Withdrawn,
    ),
    (
        b"S1\x02\x86\x00\x00\x00\x07\x00\x00\x00\x02\x00\x00\x00\x01\x01",
        (7, 2, Asked::Withdraw(1)),
        Came::NotThePost,
    ),
    (
        b"S1\x02\x86\x00\x00\x00\x00\x00\x00\x00\x04\x00\x00\x00\x02\x0a",
        (0, 4, Asked::Withdraw(2)),
        Came::NoSuchRange,
    ),
    (
        b"S1\x02\x86\x00\x00\x00\x00\x00\x00\x00\x03\x00\x00\x00\x01\x0b",
        (0, 3, Asked::Withdraw(1)),
        Came::Closed,
    ),
    (
        b"S1\x02\x86\x00\x00\x00\x00\x00\x00\x00\x02\x00\x00\x00\x02\x09",
        (0, 2, Asked::Withdraw(2)),
        Came::NumberReused,
    ),
];

/// Returns the replies of the table.
pub(crate) fn replies() -> &'static [ReplyVector] {
    REPLIES
}

/// Returns the request of a row.
pub(crate) fn request(rt: &impl Abort, call: &Call) -> Request {
    let (customer, number, asked) = *call;
    Request {
        customer,
        number,
        body: body(rt, asked),
    }
}

/// Returns the body of a row's request, and aborts if its values are out of range.
pub(crate) fn body(rt: &impl Abort, asked: Asked) -> Body {
    let service = Service::new(*b"RA").unwrap();
    let country = Country::new(*b"GB").unwrap();
    match asked {
        Asked::Grant(holder, first, last) => Body::Grant {
            holder,
            service,
            country,
            first: serial(rt, first),
            last: serial(rt, last),
        },
        Asked::Draw => Body::Draw { service, country },
        Asked::Void(text) => Body::Void { id: id(rt, text) },
        Asked::Query(text) => Body::Query { id: id(rt, text) },
        Asked::DrawMany(labels) => Body::DrawMany {
            service,
            country,
            count: Count::new(labels).expect(rt, "labels"),
        },
        Asked::Withdraw(range) => Body::Withdraw { range },
    }
}

/// Returns the outcome of a row, and aborts if its values are out of range.
pub(crate) fn outcome(rt: &impl Abort, came: &Came) -> Outcome {
    match *came {
        Came::Drawn(day, text) => Outcome::Drawn {
            day,
            id: id(rt, text),
        },
        Came::DrawnMany(day, texts) => Outcome::DrawnMany {
            day,
            ids: sheet(rt, texts),
        },
        Came::Granted(range) => Outcome::Granted { range },
        Came::Told(status) => Outcome::Told(status),
        Came::Voided => Outcome::Voided,
        Came::Withdrawn => Outcome::Withdrawn,
        Came::NotThePost => Outcome::NotThePost,
        Came::BadGrant => Outcome::BadGrant,
        Came::Overlap => Outcome::Overlap,
        Came::NoRange => Outcome::NoRange,
        Came::NoneFree => Outcome::NoneFree,
        Came::NotYours => Outcome::NotYours,
        Came::NotIssued => Outcome::NotIssued,
        Came::AlreadyVoid => Outcome::AlreadyVoid,
        Came::NoSuchRange => Outcome::NoSuchRange,
        Came::Closed => Outcome::Closed,
        Came::NumberReused => Outcome::NumberReused,
    }
}

/// Returns the sheet of the identifiers with these texts.
fn sheet(rt: &impl Abort, texts: &[&[u8]]) -> Ids {
    let mut room = [id(rt, b"RA000000005GB"); 16];
    let labels = texts.len().min(16);
    for place in 0..labels {
        room[place] = id(rt, texts[place]);
    }
    Ids::new(&room[..labels]).expect(rt, "a sheet without labels")
}

/// Returns the reply of a row, which is printed if the outcome does not fit.
pub(crate) fn reply(rt: &(impl Abort + Eprint), row: &[u8], call: &Call, came: &Came) -> Reply {
    let reply = Reply::new(request(rt, call), outcome(rt, came));
    assert!(rt; same(rt, &row, &reply.is_some(), &true));
    reply.expect(rt, "an outcome that does not fit")
}

/// Returns the serial of this value, and aborts if there is none.
pub(crate) fn serial(rt: &impl Abort, value: u32) -> Serial {
    Serial::new(value).expect(rt, "a serial number")
}

fn id(rt: &impl Abort, text: &[u8]) -> Id {
    Id::read(text).expect(rt, "an identifier")
}
