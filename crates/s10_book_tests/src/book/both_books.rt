//! Comparison of the book with an index and the book without.

use crate::book::reports::{ALL_ISSUES, ALL_RANGES};
use s10_book::{Book, PlainBook};
use s10_history::Settings;
use s10_index::{HashSeed, IndexedBook};
use s10_reports::{ReportFault, ReportFormat, write_issues, write_ranges};
use s10_test_help::expect::same;
use std::alloc::Global;
use std::process::Abort;

/// Returns an interval of 30 days and a limit that no test reaches.
fn settings() -> Settings {
    Settings::new(30, 10_000).unwrap()
}

/// Returns an empty book without an index.
pub(crate) fn plain_book(alloc: Global) -> PlainBook {
    PlainBook::new(alloc, settings())
}

/// Returns an empty book with an index.
pub(crate) fn indexed_book(alloc: Global) -> IndexedBook {
    IndexedBook::new(alloc, HashSeed::fixed(), settings())
}

/// Returns the report of the ranges on a day, followed by the report of the issues.
fn reports<B: Book>(alloc: Global, book: &mut B, day: u32) -> Result<Vec<u8>, ReportFault> {
    let mut out = Vec::new(alloc);
    write_ranges(book, &ALL_RANGES, ReportFormat::Lines, day, &mut out)?;
    write_issues(book, &ALL_ISSUES, &mut out)?;
    Ok(out)
}

/// Returns the first of the days on which the reports of the books differ, if any.
fn first_different_day<A: Book, B: Book>(
    alloc: Global,
    one: &mut A,
    other: &mut B,
    days: &[u32],
) -> Result<Option<u32>, ReportFault> {
    for day in days {
        if reports(alloc, one, *day)? != reports(alloc, other, *day)? {
            return Ok(Some(*day));
        }
    }
    Ok(None)
}

/// Returns the first number up to `last` at which the books have different calls, or a range that
/// is closed in only one of them. Returns 0 if the books differ in length or day.
fn first_different_call<A: Book, B: Book>(one: &mut A, other: &mut B, last: u32) -> Option<u32> {
    if one.len() != other.len() || one.day() != other.day() {
        return Some(0);
    }
    for at in 0..=last {
        if one.entry(at) != other.entry(at) || one.closed(at) != other.closed(at) {
            return Some(at);
        }
    }
    None
}

/// Returns the first number and the first day at which the books differ.
fn unlike<A: Book + Drop, B: Book + Drop>(
    alloc: Global,
    mut one: A,
    mut other: B,
    last: u32,
    days: &[u32],
) -> (Option<u32>, Result<Option<u32>, ReportFault>) {
    let call = first_different_call(&mut one, &mut other, last);
    (call, first_different_day(alloc, &mut one, &mut other, days))
}

/// Asserts that two books have equal calls up to number `last` and equal reports on these days.
pub(crate) fn have_equal_calls_and_reports<
    R: Abort + Eprint + AllocGlobal,
    A: Book + Drop,
    B: Book + Drop,
>(rt: &R, one: A, other: B, last: u32, days: &[u32]) {
    let found = unlike(rt.alloc(), one, other, last, days);
    assert!(rt; same(rt, &"books", &found, &(None, Ok(None))));
}
