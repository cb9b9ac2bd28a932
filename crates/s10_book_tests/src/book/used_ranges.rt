//! A thousand calls in two runs over many ranges that are used up, closed or free again, over the book
//! with an index and the book without.

ghost use Rattle.std.specs.Prelude.{◌≤◌, ◌<◌};

use crate::book::both_books::{have_equal_calls_and_reports, indexed_book, plain_book};
use s10_book::Book;
use s10_history::HolderKey;
use s10_test_help::asked::Asked;
use s10_test_help::expect::same;
use s10_test_help::samples::{gb, ra};
use s10_test_help::steps::{answer, request};
use s10_wire::Outcome;
use std::process::Abort;

const CALLS: u32 = 500;

// Returns the number after this one in a fixed sequence of numbers below 65,537.
fn next_value(value: u32) -> u32 {
    (value % 65_537 * 75 + 74) % 65_537
}

// Grants one to three serials to customer 1 or 2, withdraws one of the first 40 ranges, voids, draws
// a sheet of one to four, or draws.
fn asked(place: u32, value: u32) -> Asked
    requires { place ≤ 1000 }
{
    let choice = value / 16;
    let first = 4 * (place / 2);
    match value % 16 {
        0 | 1 => Asked::Grant(1 + choice % 2, first, first + choice % 3),
        2 => Asked::Withdraw(1 + choice % 40),
        3 => Asked::Void(choice % 100),
        4 | 5 => Asked::DrawMany(1 + (choice % 4) as u8),
        _ => Asked::Draw,
    }
}

// The post grants and withdraws. Customers 1 and 2 ask for all else.
fn customer(value: u32) -> u32 {
    if value % 16 <= 2 {
        0
    } else {
        1 + value / 256 % 2
    }
}

// Returns whether both books find the same free range of the customer.
fn free_ranges_are_equal<A: Book, B: Book>(
    one: &mut A,
    other: &mut B,
    value: u32,
    day: u32,
) -> bool {
    let held = HolderKey {
        holder: 1 + value % 2,
        service: ra(),
        country: gb(),
    };
    let after = value % 50;
    let first = one.next_free_range(&held, after, day);
    first.is_ok() && other.next_free_range(&held, after, day) == first
}

fn kind(outcome: &Outcome) -> usize
    ensures { result < 7 }
{
    match outcome {
        Outcome::Granted { .. } => 0,
        Outcome::Drawn { .. } => 1,
        Outcome::DrawnMany { .. } => 2,
        Outcome::NoneFree => 3,
        Outcome::Voided => 4,
        Outcome::Withdrawn => 5,
        _ => 6,
    }
}

// Executes a call on both books and counts the kind of its outcome. Returns whether both give the
// same outcome and none fails.
fn call_agrees<A: Book, B: Book>(
    one: &mut A,
    other: &mut B,
    place: u32,
    value: u32,
    seen: &mut [bool; 7],
) -> bool
    requires { place ≤ 1000 }
{
    // The day rises by one in five calls, so a serial is free again after 150 calls.
    let day = 20_000 + place / 5;
    let request = request(customer(value), 1 + place, asked(place, value));
    let first = answer(one, &request, day);
    if answer(other, &request, day) != first {
        return false;
    }
    match first {
        Ok(outcome) => {
            seen[kind(&outcome)] = true;
            free_ranges_are_equal(one, other, value, day + value % 40)
        }
        Err(_) => false,
    }
}

// Returns how many calls have equal outcomes in both books, and which kinds of outcomes occurred. The
// calls follow from the values after `start`.
fn calls_agree<A: Book, B: Book>(one: &mut A, other: &mut B, start: u32) -> (u32, [bool; 7]) {
    let mut seen = [false; 7];
    let mut value = start;
    for place in 0..CALLS {
        value = next_value(value);
        if !call_agrees(one, other, place, value, &mut seen) {
            return (place, seen);
        }
    }
    (CALLS, seen)
}

#[test]
fn both_books_pass_over_used_and_closed_ranges_alike(rt: HostRuntime) {
    let mut plain = plain_book(rt.alloc());
    let mut indexed = indexed_book(rt.alloc());
    let alike = calls_agree(&mut plain, &mut indexed, 1);
    assert!(rt; same(&rt, &"calls", &alike, &(CALLS, [true; 7])));
    have_equal_calls_and_reports(&rt, plain, indexed, CALLS, &[20_200]);
}

#[test]
fn both_books_pass_over_other_ranges_alike(rt: HostRuntime) {
    let mut plain = plain_book(rt.alloc());
    let mut indexed = indexed_book(rt.alloc());
    let alike = calls_agree(&mut plain, &mut indexed, 40_000);
    assert!(rt; same(&rt, &"calls", &alike, &(CALLS, [true; 7])));
    have_equal_calls_and_reports(&rt, plain, indexed, CALLS, &[20_200]);
}
