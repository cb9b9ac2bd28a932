//! A thousand ranges of nine holders, not granted in the order of their serials, over both books.

ghost use Rattle.std.specs.Prelude.{◌≤◌};

use crate::ledger::calls::{closed, ledger, settings};
use s10_book::{Book, PlainBook};
use s10_history::{HolderKey, SerialSpan};
use s10_ledger::{HashSeed, NoObserver, SqlBook};
use s10_test_help::asked::Asked;
use s10_test_help::expect::same;
use s10_test_help::samples::{gb, ra, serial};
use s10_test_help::steps::{answer, request};
use s10_wire::Request;
use sqlite::MemStore;
use std::process::Abort;

const RANGES: u32 = 1_000;

const HOLDERS: u32 = 9;

// Returns whether both books give the same answer to the request.
fn answers_are_equal<A: Book, B: Book>(one: &mut A, other: &mut B, request: &Request) -> bool {
    answer(one, request, 20000) == answer(other, request, 20000)
}

// Returns whether both books give the same answers to Grants of one to ten serials. Their first
// serials advance in steps of seventy and wrap around.
fn grants_are_alike<A: Book, B: Book>(one: &mut A, other: &mut B, grants: u32) -> bool
    requires { grants ≤ 1000 }
{
    for place in 0..grants {
        let slot = place * 7 % grants;
        let first = slot * 10;
        let asked = Asked::Grant(1 + place % HOLDERS, first, first + slot % 10);
        let request = request(0, place + 1, asked);
        if !answers_are_equal(one, other, &request) {
            return false;
        }
    }
    true
}

// The same for Grants that overlap one range, or several, or none.
fn overlaps_are_alike<A: Book, B: Book>(one: &mut A, other: &mut B, grants: u32) -> bool
    requires { grants ≤ 1000 }
{
    for place in 0..grants {
        let first = place * 37;
        let asked = Asked::Grant(1, first, first + place % 20);
        let request = request(0, 2000 + place, asked);
        if !answers_are_equal(one, other, &request) {
            return false;
        }
    }
    true
}

// The same for `draws` Draws of the holders in rotation.
fn draws_are_alike<A: Book, B: Book>(one: &mut A, other: &mut B, draws: u32) -> bool {
    for place in 0..draws {
        let request = request(1 + place % HOLDERS, 1 + place / HOLDERS, Asked::Draw);
        if !answers_are_equal(one, other, &request) {
            return false;
        }
    }
    true
}

// Returns whether both books give the same answers for this number: the range with it, the range of
// least number with a serial in a span, and the next range of a holder after it.
fn range_is_alike<A: Book, B: Book>(one: &mut A, other: &mut B, place: u32) -> bool
    requires { place ≤ 2000 }
{
    let span = SerialSpan {
        service: ra(),
        country: gb(),
        first: serial(place * 10 + 5),
        last: serial(place * 10 + 35),
    };
    let held = HolderKey {
        holder: 1 + place % HOLDERS,
        service: ra(),
        country: gb(),
    };
    one.range(place) == other.range(place)
        && one.covering(&span) == other.covering(&span)
        && one.next_range(&held, place) == other.next_range(&held, place)
        && one.next_free_range(&held, place, 20_015) == other.next_free_range(&held, place, 20_015)
}

fn ranges_are_alike<A: Book, B: Book>(one: &mut A, other: &mut B, ranges: u32) -> bool
    requires { ranges ≤ 2000 }
{
    for place in 0..ranges {
        if !range_is_alike(one, other, place) {
            return false;
        }
    }
    true
}

// Closes the ledger, and opens it again.
fn opened_again<R: Abort + AllocGlobal>(rt: &R, book: SqlBook<MemStore>) -> SqlBook<MemStore> {
    let connection = closed(book);
    assert!(rt; connection.is_autocommit());
    match SqlBook::open(rt.alloc(), HashSeed::fixed(), connection, &mut NoObserver) {
        Ok(book) => book,
        Err(refused) => panic!(rt; "{}", refused.refusal.fault),
    }
}

fn new_books<R: Abort + AllocGlobal>(rt: &R) -> (PlainBook, SqlBook<MemStore>) {
    let settings = settings(rt, 10_000);
    (PlainBook::new(rt.alloc(), settings), ledger(rt, settings))
}

// A part of the comparison of both books.
#[derive(Clone, Copy)]
enum Part {
    Grants,
    // Grants that may overlap the ranges.
    Overlaps,
    Draws(u32),
    Ranges,
    Length,
}

// Returns whether both books agree in a part.
fn is_alike<A: Book, B: Book>(one: &mut A, other: &mut B, part: Part) -> bool {
    match part {
        Part::Grants => grants_are_alike(one, other, RANGES),
        Part::Overlaps => overlaps_are_alike(one, other, RANGES),
        Part::Draws(draws) => draws_are_alike(one, other, draws),
        Part::Ranges => ranges_are_alike(one, other, RANGES + 10),
        Part::Length => one.len() == other.len(),
    }
}

fn are_alike<A: Book, B: Book>(one: &mut A, other: &mut B, parts: &[Part]) -> bool {
    for part in parts {
        if !is_alike(one, other, *part) {
            return false;
        }
    }
    true
}

// Returns whether a book in memory and a ledger agree in each part.
fn both_alike(plain: &mut PlainBook, tables: &mut SqlBook<MemStore>, parts: &[Part]) -> bool {
    are_alike(plain, tables, parts)
}

// All Grants, all Grants that may overlap them, and Draws.
const CALLS: &[Part] = &[Part::Grants, Part::Overlaps, Part::Draws(1_000)];

// The ranges that are found then, and the number of calls.
const FOUND: &[Part] = &[Part::Ranges, Part::Length];

#[test]
fn both_books_give_equal_answers_for_many_ranges(rt: HostRuntime) {
    let (mut plain, mut tables) = new_books(&rt);
    let calls = both_alike(&mut plain, &mut tables, CALLS);
    let found = both_alike(&mut plain, &mut tables, FOUND);
    let _ = closed(tables);
    assert!(rt; same(&rt, &"calls, books", &(calls, found), &(true, true)));
}

// All Grants, and Draws.
const BEFORE: &[Part] = &[Part::Grants, Part::Draws(500)];

// The ranges that are found then, Grants that may overlap them, and the number of calls.
const AFTER: &[Part] = &[Part::Ranges, Part::Overlaps, Part::Length];

#[test]
fn ranges_are_found_as_before_after_reopening(rt: HostRuntime) {
    let (mut plain, mut tables) = new_books(&rt);
    let before = both_alike(&mut plain, &mut tables, BEFORE);
    let mut opened = opened_again(&rt, tables);
    let after = both_alike(&mut plain, &mut opened, AFTER);
    let _ = closed(opened);
    assert!(rt; same(&rt, &"before, after", &(before, after), &(true, true)));
}
