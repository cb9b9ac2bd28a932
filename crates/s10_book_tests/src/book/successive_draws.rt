//! Sheets compared with successive single Draws.

use crate::book::books::book_after;
use s10_book::{Book, successive_draws};
use s10_test_help::answered::Answered::{Drawn, Granted, Withdrawn};
use s10_test_help::asked::Asked::{Draw, Grant, Withdraw};
use s10_test_help::expect::same;
use s10_test_help::samples::{gb, id, ra, sheet};
use s10_test_help::steps::{OPENING, Step, answer, request};
use s10_wire::{Ids, Outcome};
use std::process::Abort;

/// Customer, number of identifiers, day, and the serials of RA GB, or `None` if it is refused.
type Row = (u32, u8, u32, Option<&'static [u32]>);

/// Returns whether these identifiers are what n single Draws give, or none if one is refused.
fn are_single_draws<B: Book>(book: &mut B, row: &Row, ids: &Option<Ids>) -> bool {
    let (customer, count, day, _) = *row;
    for place in 0..count {
        let request = request(customer, 1000 + u32::from(place), Draw);
        let drawn = match answer(book, &request, day) {
            Ok(Outcome::Drawn { id, .. }) => Some(id),
            Ok(_) => None,
            Err(_) => return false,
        };
        let given = match ids {
            None => drawn,
            Some(ids) => ids.get(usize::from(place)),
        };
        if drawn.is_none() || drawn != given {
            return drawn.is_none() && ids.is_none();
        }
    }
    ids.is_some()
}

fn are_serials(ids: &Option<Ids>, serials: Option<&[u32]>) -> bool {
    let (Some(ids), Some(serials)) = (ids, serials) else {
        return ids.is_none() && serials.is_none();
    };
    for (place, serial) in serials.iter().enumerate() {
        if ids.get(place) != Some(id(*serial)) {
            return false;
        }
    }
    ids.len() == serials.len()
}

/// Returns whether a book gives the serials of the row, and another one gives the same to single
/// Draws.
fn is_right<B: Book + Drop>(mut book: B, mut other: B, row: &Row) -> bool {
    let (customer, count, day, serials) = *row;
    match successive_draws(&mut book, customer, ra(), gb(), sheet(count), day) {
        Ok(ids) => are_serials(&ids, serials) && are_single_draws(&mut other, row, &ids),
        Err(_) => false,
    }
}

/// Asserts that each row is right after these steps.
fn are_right<R: Abort + Eprint + AllocGlobal>(rt: &R, steps: &[Step], rows: &[Row]) {
    for (place, row) in rows.iter().enumerate() {
        let book = book_after(rt, "for a sheet", steps);
        let other = book_after(rt, "for single Draws", steps);
        assert!(rt; same(rt, &place, &is_right(book, other, row), &true));
    }
}

/// Sheets of customer 7, whose next serial is 2, and of customer 8, who has no range.
const SHEETS_OF_ONE_RANGE: &'static [Row] = &[
    (7, 1, 20000, Some(&[2])),
    (7, 2, 20000, None),
    (7, 2, 20029, None),
    (7, 2, 20030, Some(&[2, 0])),
    (7, 3, 20030, Some(&[2, 0, 1])),
    (7, 4, 20030, None),
    (7, 16, 20030, None),
    (8, 1, 20030, None),
];

/// Two of three serials are drawn.
const TWO_OF_THREE_DRAWN: &'static [Step] = &[
    OPENING,
    (7, 1, Draw, 20000, Drawn(20000, 0)),
    (7, 2, Draw, 20000, Drawn(20000, 1)),
];

#[test]
fn a_sheet_from_one_range_has_its_serials_in_order(rt: HostRuntime) {
    are_right(&rt, TWO_OF_THREE_DRAWN, SHEETS_OF_ONE_RANGE);
}

/// Sheets of customer 7 from two ranges, and a sheet of sixteen of customer 8 from one.
const SHEETS_OF_TWO_RANGES: &'static [Row] = &[
    (7, 3, 20000, Some(&[0, 1, 2])),
    (7, 5, 20000, Some(&[0, 1, 2, 4, 5])),
    (7, 6, 20000, None),
    (
        8,
        16,
        20000,
        Some(&[6, 7, 8, 9, 10, 11, 12, 13, 14, 15, 16, 17, 18, 19, 20, 21]),
    ),
];

/// Customer 7 has two ranges, and customer 8 has one.
const THREE_GRANTS: &'static [Step] = &[
    OPENING,
    (0, 2, Grant(7, 4, 5), 20000, Granted(2)),
    (0, 3, Grant(8, 6, 30), 20000, Granted(3)),
];

#[test]
fn a_sheet_continues_in_the_next_range(rt: HostRuntime) {
    are_right(&rt, THREE_GRANTS, SHEETS_OF_TWO_RANGES);
}

/// Sheets of customer 7, whose second range of three is closed.
const SHEETS_OVER_A_CLOSED_RANGE: &'static [Row] = &[
    (7, 3, 20000, Some(&[0, 1, 2])),
    (7, 5, 20000, Some(&[0, 1, 2, 8, 9])),
    (7, 6, 20000, None),
];

/// The second of three ranges is closed.
const SECOND_OF_THREE_CLOSED: &'static [Step] = &[
    OPENING,
    (0, 2, Grant(7, 4, 5), 20000, Granted(2)),
    (0, 3, Grant(7, 8, 9), 20000, Granted(3)),
    (0, 4, Withdraw(2), 20000, Withdrawn),
];

#[test]
fn a_sheet_skips_a_closed_range(rt: HostRuntime) {
    are_right(&rt, SECOND_OF_THREE_CLOSED, SHEETS_OVER_A_CLOSED_RANGE);
}
