//! Sheets of identifiers, datagram by datagram, over a book in memory and over a ledger in tables.

use crate::host::ledgers::ALL_RANGES;
use crate::ledger::calls::{closed, ledger, settings};
use s10_book::{Book, PlainBook};
use s10_ends::{Answer, Delivery, Server};
use s10_link::Packet;
use s10_reports::{ReportFormat, write_ranges};
use s10_test_help::deliveries::{Delivered, GRANT, Want};
use s10_test_help::expect::same;
use s10_wire::WireFault;
use std::alloc::{AllocError, Global};
use std::process::Abort;

const SHEET: Delivered = (
    20_000,
    b"S1\x02\x05\0\0\0\x07\0\0\0\x01RAGB\x02",
    Want::Reply(b"S1\x02\x85\0\0\0\x07\0\0\0\x01RAGB\x02\0\0\0\x4e\x20RA000000005GBRA000000014GB"),
);

const NONE_FREE: Delivered = (
    20_000,
    b"S1\x02\x05\0\0\0\x07\0\0\0\x02RAGB\x02",
    Want::Reply(b"S1\x02\x85\0\0\0\x07\0\0\0\x02RAGB\x02\x05"),
);

const THIRD_SERIAL: Delivered = (
    20_000,
    b"S1\x01\x02\0\0\0\x07\0\0\0\x03RAGB",
    Want::Reply(b"S1\x01\x82\0\0\0\x07\0\0\0\x03RAGB\0\0\0\x4e\x20RA000000028GB"),
);

const WRAPPING: Delivered = (
    20_030,
    b"S1\x02\x05\0\0\0\x07\0\0\0\x04RAGB\x03",
    Want::Reply(
        b"S1\x02\x85\0\0\0\x07\0\0\0\x04RAGB\x03\0\0\0\x4e\x3eRA000000005GBRA000000014GBRA000000028GB",
    ),
);

/// Sheets of one range of three serials on day 20000.
const ON_FIRST_DAY: &[Delivered] = &[GRANT, SHEET, SHEET, NONE_FREE, THIRD_SERIAL];

/// The same, and sheets on day 20030, the first of which wraps around.
const ONE_RANGE: &[Delivered] = &[
    GRANT,
    SHEET,
    SHEET,
    NONE_FREE,
    THIRD_SERIAL,
    WRAPPING,
    (
        20_030,
        b"S1\x02\x05\0\0\0\x07\0\0\0\x05RAGB\x01",
        Want::Reply(b"S1\x02\x85\0\0\0\x07\0\0\0\x05RAGB\x01\x05"),
    ),
    (
        20_030,
        b"S1\x02\x05\0\0\0\x08\0\0\0\x01RAGB\x01",
        Want::Reply(b"S1\x02\x85\0\0\0\x08\0\0\0\x01RAGB\x01\x04"),
    ),
];

const SECOND_GRANT: Delivered = (
    20_000,
    b"S1\x01\x01\0\0\0\0\0\0\0\x02\0\0\0\x07RAGB\0\0\0\x04\0\0\0\x05",
    Want::Reply(b"S1\x01\x81\0\0\0\0\0\0\0\x02\0\0\0\x07RAGB\0\0\0\x04\0\0\0\x05\0\0\0\0\x02"),
);

const OF_BOTH: Delivered = (
    20_000,
    b"S1\x02\x05\0\0\0\x07\0\0\0\x01RAGB\x05",
    Want::Reply(
        b"S1\x02\x85\0\0\0\x07\0\0\0\x01RAGB\x05\0\0\0\x4e\x20\
        RA000000005GBRA000000014GBRA000000028GBRA000000045GBRA000000059GB",
    ),
);

const TWO_GRANTS: &[Delivered] = &[GRANT, SECOND_GRANT];

/// A sheet continues in the customer's second range.
const TWO_RANGES: &[Delivered] = &[GRANT, SECOND_GRANT, OF_BOTH];

/// The longest sheet, of sixteen identifiers.
const SIXTEEN: &[Delivered] = &[
    (
        20_000,
        b"S1\x01\x01\0\0\0\0\0\0\0\x01\0\0\0\x07RAGB\0\0\0\0\0\0\0\x0f",
        Want::Reply(b"S1\x01\x81\0\0\0\0\0\0\0\x01\0\0\0\x07RAGB\0\0\0\0\0\0\0\x0f\0\0\0\0\x01"),
    ),
    (
        20_000,
        b"S1\x02\x05\0\0\0\x07\0\0\0\x01RAGB\x10",
        Want::Reply(
            b"S1\x02\x85\0\0\0\x07\0\0\0\x01RAGB\x10\0\0\0\x4e\x20\
            RA000000005GBRA000000014GBRA000000028GBRA000000031GBRA000000045GBRA000000059GB\
            RA000000062GBRA000000076GBRA000000080GBRA000000093GBRA000000102GBRA000000116GB\
            RA000000120GBRA000000133GBRA000000147GBRA000000155GB",
        ),
    ),
];

/// Datagrams that ask for no sheet: without a label, with seventeen, and with a kind of the other
/// version.
const REFUSED: &[Delivered] = &[
    (
        20_000,
        b"S1\x02\x05\0\0\0\x07\0\0\0\x01RAGB\0",
        Want::Dropped(WireFault::Field(16)),
    ),
    (
        20_000,
        b"S1\x02\x05\0\0\0\x07\0\0\0\x01RAGB\x11",
        Want::Dropped(WireFault::Field(16)),
    ),
    (
        20_000,
        b"S1\x01\x05\0\0\0\x07\0\0\0\x01RAGB\x02",
        Want::Dropped(WireFault::Kind),
    ),
    (
        20_000,
        b"S1\x02\x02\0\0\0\x07\0\0\0\x01RAGB",
        Want::Dropped(WireFault::Kind),
    ),
];

fn is_as_wanted(answer: &Answer, want: Want) -> bool {
    match (answer, want) {
        (Answer::Reply(frame), Want::Reply(bytes)) => frame.bytes() == bytes,
        (Answer::Dropped(fault), Want::Dropped(wanted)) => *fault == wanted,
        _ => false,
    }
}

/// Returns the deliveries of these steps.
fn deliveries_of(alloc: Global, steps: &[Delivered]) -> Result<Vec<Delivery>, AllocError> {
    let mut deliveries = Vec::new(alloc);
    for (day, datagram, _) in steps {
        let packet = Packet::new(datagram);
        deliveries.push(Delivery { packet, day: *day })?;
    }
    Ok(deliveries)
}

/// Runs a server over the steps, and returns the index of the first whose answer is not the
/// expected one, if any.
pub(crate) fn first_wrong_step<B: Book>(
    alloc: Global,
    server: &mut Server<B>,
    steps: &[Delivered],
) -> Result<Option<usize>, AllocError> {
    let deliveries = deliveries_of(alloc, steps)?;
    let answers = server.run(alloc, &deliveries)?;
    for (place, (answer, (_, _, want))) in answers.iter().zip(steps).enumerate() {
        if !is_as_wanted(answer, *want) {
            return Ok(Some(place));
        }
    }
    Ok(None)
}

/// The number of calls of a book, and its report of the ranges.
pub(crate) type Left = (u32, &'static [u8]);

/// Returns whether this is left in the book, or true if nothing is named.
fn is_left<B: Book>(alloc: Global, book: &mut B, left: Option<Left>) -> bool {
    let Some((calls, ranges)) = left else {
        return true;
    };
    let mut out = Vec::new(alloc);
    write_ranges(book, &ALL_RANGES, ReportFormat::Lines, 20_000, &mut out) == Ok(())
        && out.as_slice() == ranges
        && book.len() == calls
}

/// The index of the first step with a wrong answer, if any, and whether the book is left as
/// expected.
type After = (Result<Option<usize>, AllocError>, bool);

/// Runs a server over a book, and returns the book and that.
fn book_after<B: Book>(
    alloc: Global,
    book: B,
    steps: &[Delivered],
    left: Option<Left>,
) -> (B, After) {
    let mut server = Server::new(book);
    let unlike = first_wrong_step(alloc, &mut server, steps);
    let mut book = server.into_book();
    let is_left = is_left(alloc, &mut book, left);
    (book, (unlike, is_left))
}

/// Asserts that a book in memory and a ledger answer the steps as expected, and are left as
/// expected.
pub(crate) fn are_answered<R: Abort + Eprint + AllocGlobal>(
    rt: &R,
    name: &str,
    steps: &[Delivered],
    left: Option<Left>,
) {
    let settings = settings(rt, 100);
    let plain = PlainBook::new(rt.alloc(), settings);
    let (_, in_memory) = book_after(rt.alloc(), plain, steps, left);
    let (tables, in_tables) = book_after(rt.alloc(), ledger(rt, settings), steps, left);
    let _ = closed(tables);
    let wanted = (Ok(None), true);
    assert!(rt;
        same(
            rt,
            &(name, "in memory, in tables"),
            &(in_memory, in_tables),
            &(wanted, wanted),
        )
    );
}

#[test]
fn sheets_are_answered_as_worked_by_hand(rt: HostRuntime) {
    are_answered(&rt, "one range", ONE_RANGE, None);
    are_answered(&rt, "two ranges", TWO_RANGES, None);
    are_answered(&rt, "sixteen", SIXTEEN, None);
    are_answered(&rt, "refused", REFUSED, None);
}

/// Draws whose numbers no sheet above has.
const THREE_DRAWS: &[&[u8]] = &[
    b"S1\x01\x02\0\0\0\x07\0\0\0\x0aRAGB",
    b"S1\x01\x02\0\0\0\x07\0\0\0\x0bRAGB",
    b"S1\x01\x02\0\0\0\x07\0\0\0\x0cRAGB",
];

/// Draws whose numbers no sheet above has.
const FIVE_DRAWS: &[&[u8]] = &[
    b"S1\x01\x02\0\0\0\x07\0\0\0\x0aRAGB",
    b"S1\x01\x02\0\0\0\x07\0\0\0\x0bRAGB",
    b"S1\x01\x02\0\0\0\x07\0\0\0\x0cRAGB",
    b"S1\x01\x02\0\0\0\x07\0\0\0\x0dRAGB",
    b"S1\x01\x02\0\0\0\x07\0\0\0\x0eRAGB",
];

/// Returns the deliveries of these datagrams on one day.
fn deliveries_on(
    alloc: Global,
    day: u32,
    datagrams: &[&[u8]],
) -> Result<Vec<Delivery>, AllocError> {
    let mut deliveries = Vec::new(alloc);
    for datagram in datagrams {
        deliveries.push(Delivery {
            packet: Packet::new(datagram),
            day,
        })?;
    }
    Ok(deliveries)
}

/// Returns the bytes of the replies from offset `from`, one reply after the other.
fn texts_of(alloc: Global, answers: &[Answer], from: usize) -> Result<Vec<u8>, AllocError> {
    let mut text = Vec::new(alloc);
    for answer in answers {
        if let Answer::Reply(frame) = answer {
            if let Some(tail) = frame.bytes().get(from..) {
                text.extend_from_slice(tail)?;
            }
        }
    }
    Ok(text)
}

/// Runs a server over these datagrams, and returns the bytes of its replies from offset `from`.
fn text_from<B: Book>(
    alloc: Global,
    server: &mut Server<B>,
    day: u32,
    datagrams: &[&[u8]],
    from: usize,
) -> Result<Vec<u8>, AllocError> {
    let deliveries = deliveries_on(alloc, day, datagrams)?;
    let answers = server.run(alloc, &deliveries)?;
    texts_of(alloc, &answers, from)
}

/// The same over a book after these steps; also returns the book.
fn text_after<B: Book>(
    alloc: Global,
    book: B,
    steps: &[Delivered],
    day: u32,
    datagrams: &[&[u8]],
    from: usize,
) -> (B, Result<Vec<u8>, AllocError>) {
    let mut server = Server::new(book);
    let _ = first_wrong_step(alloc, &mut server, steps);
    let text = text_from(alloc, &mut server, day, datagrams, from);
    (server.into_book(), text)
}

/// The same over a ledger.
fn told<R: Abort + AllocGlobal>(
    rt: &R,
    steps: &[Delivered],
    day: u32,
    datagrams: &[&[u8]],
    from: usize,
) -> Result<Vec<u8>, AllocError> {
    let ledger = ledger(rt, settings(rt, 100));
    let (ledger, text) = text_after(rt.alloc(), ledger, steps, day, datagrams, from);
    let _ = closed(ledger);
    text
}

/// Returns whether a sheet after these steps has the identifiers that n Draws instead of it have.
fn is_as_draws<R: Abort + AllocGlobal>(
    rt: &R,
    steps: &[Delivered],
    sheet: Delivered,
    draws: &[&[u8]],
) -> bool {
    let (day, datagram, _) = sheet;
    let Ok(together) = told(rt, steps, day, &[datagram], 22) else {
        return false;
    };
    let Ok(apart) = told(rt, steps, day, draws, 21) else {
        return false;
    };
    together.len() == 13 * draws.len() && *together == *apart
}

#[test]
fn a_sheet_of_n_has_the_identifiers_of_n_draws(rt: HostRuntime) {
    let is_wrapping = is_as_draws(&rt, ON_FIRST_DAY, WRAPPING, THREE_DRAWS);
    let is_of_both = is_as_draws(&rt, TWO_GRANTS, OF_BOTH, FIVE_DRAWS);
    assert!(rt;
        same(
            &rt,
            &"wrapping, two ranges",
            &(is_wrapping, is_of_both),
            &(true, true),
        )
    );
}
