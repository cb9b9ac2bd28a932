//! Ranges that follow Grants, Draws and Withdraws.

use s10_core::{Country, Id, Serial, Service};
use s10_history::{Entry, Range};
use s10_ranges::{HashSeed, Ranges};
use s10_wire::{Body, Outcome, Request};
use std::process::Abort;

/// Returns the service with these letters, and aborts if there is none.
pub(crate) fn service(rt: &impl Abort, letters: [u8; 2]) -> Service {
    Service::new(letters).expect(rt, "letters of a service")
}

/// Returns the country with these letters, and aborts if there is none.
pub(crate) fn country(rt: &impl Abort, letters: [u8; 2]) -> Country {
    Country::new(letters).expect(rt, "letters of a country")
}

/// Returns the serial of this value, and aborts if there is none.
pub(crate) fn serial(rt: &impl Abort, value: u32) -> Serial {
    Serial::new(value).expect(rt, "a serial number")
}

/// A Grant for GB: holder, service, first and last serial.
pub(crate) type Granted = (u32, [u8; 2], u32, u32);

/// Seven ranges of three holders, not in the order of their serials. Two of them have one serial.
pub(crate) const GRANTS: [Granted; 7] = [
    (8, *b"RA", 50, 59),
    (7, *b"RA", 10, 19),
    (8, *b"RA", 30, 30),
    (7, *b"RA", 90, 99),
    (9, *b"RA", 0, 0),
    (8, *b"RA", 20, 29),
    (7, *b"RB", 10, 19),
];

/// Returns range `num` with the values of a grant.
pub(crate) fn range(rt: &impl Abort, num: u32, granted: Granted) -> Range {
    let (holder, letters, first, last) = granted;
    Range {
        num,
        holder,
        service: service(rt, letters),
        country: country(rt, *b"GB"),
        first: serial(rt, first),
        last: serial(rt, last),
    }
}

/// Returns range `num` of those in `GRANTS`, or `None` if there is none.
pub(crate) fn numbered(rt: &impl Abort, num: u32) -> Option<Range> {
    let place = num.checked_sub(1)?;
    let granted = GRANTS.get(place as usize)?;
    Some(range(rt, num, *granted))
}

fn follow<R: Abort + AllocGlobal>(rt: &R, ranges: &mut Ranges, entry: &Entry) {
    let mut moves = Vec::new(rt.alloc());
    ranges.moves_of(entry, &mut moves).expect(rt, "moves");
    ranges.reserve().expect(rt, "room");
    ranges.follow(entry, &moves);
}

/// Lets the ranges follow a Grant of this range that was done.
pub(crate) fn grant<R: Abort + AllocGlobal>(rt: &R, ranges: &mut Ranges, range: &Range) {
    let body = Body::Grant {
        holder: range.holder,
        service: range.service,
        country: range.country,
        first: range.first,
        last: range.last,
    };
    let entry = Entry {
        request: Request {
            customer: 0,
            number: range.num,
            body,
        },
        day: 20000,
        outcome: Outcome::Granted { range: range.num },
    };
    follow(rt, ranges, &entry);
}

/// Lets the ranges follow a Draw of RA GB that gave this serial.
pub(crate) fn draw<R: Abort + AllocGlobal>(rt: &R, ranges: &mut Ranges, value: u32) {
    let service = service(rt, *b"RA");
    let country = country(rt, *b"GB");
    let entry = Entry {
        request: Request {
            customer: 7,
            number: 1,
            body: Body::Draw { service, country },
        },
        day: 20000,
        outcome: Outcome::Drawn {
            day: 20000,
            id: Id {
                service,
                serial: serial(rt, value),
                country,
            },
        },
    };
    follow(rt, ranges, &entry);
}

/// Lets the ranges follow a Withdraw of range `num` with this outcome.
pub(crate) fn withdraw<R: Abort + AllocGlobal>(
    rt: &R,
    ranges: &mut Ranges,
    num: u32,
    outcome: Outcome,
) {
    let entry = Entry {
        request: Request {
            customer: 0,
            number: 100,
            body: Body::Withdraw { range: num },
        },
        day: 20000,
        outcome,
    };
    follow(rt, ranges, &entry);
}

/// Returns the ranges after all grants of `GRANTS`, in their order.
pub(crate) fn all_granted<R: Abort + AllocGlobal>(rt: &R) -> Ranges {
    let mut ranges = Ranges::new(rt.alloc(), HashSeed::fixed());
    let mut num = 0u32;
    for granted in &GRANTS {
        num = num.saturating_add(1);
        grant(rt, &mut ranges, &range(rt, num, *granted));
    }
    ranges
}
