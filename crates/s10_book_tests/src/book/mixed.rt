//! 720 calls of several customers on rising days, over the book with an index and the book without.

ghost use Rattle.std.specs.Prelude.{◌≤◌, ◌<◌};

use crate::book::both_books::{have_equal_calls_and_reports, indexed_book, plain_book};
use s10_book::Book;
use s10_test_help::asked::Asked;
use s10_test_help::expect::same;
use s10_test_help::steps::{answer, request};
use s10_wire::{Outcome, Request};

const PASSES: u32 = 60;

// For each of the twelve calls of a pass, its number less ten times the pass. Call 8 repeats call
// 3. Call 11 has the number of call 4, and asks for something else.
const NUMBERS: [u32; 12] = [0, 1, 2, 3, 4, 5, 6, 7, 3, 8, 9, 4];

// Customers 1 to 4 draw in rotation. The other calls are by the post, by holders of ranges, or by
// any customer.
fn customer(pass: u32, call: usize) -> u32
    requires { pass ≤ 1000 }
{
    match call {
        1 => 1 + (pass + 1) % 4,
        2 => 1 + (pass + 2) % 4,
        3 | 8 | 9 => 1 + (pass + 3) % 4,
        // The holder of the range with the serial that call 4 voids.
        4 | 11 => 1 + pass * 5 % 12 % 3,
        5 => 1 + pass % 4,
        6 => pass % 2,
        10 => u32::from(pass % 4 == 1),
        _ => 0,
    }
}

// Call 0 grants one of twelve ranges of three serials each, from 0, 4, 8 and so on, to customers 1
// to 3 in rotation. Call 4 voids and call 5 queries a serial of one of them. Call 6 is a Grant by a
// customer, or one by the post whose first serial is above its last. Call 7 is a Query by the post.
// Call 9 draws a sheet of two. Call 10 withdraws range 0, which does not exist, in the first four
// passes, range 1 in the next four, and so on; customer 1 asks in the second of each four,
// otherwise the post. All other calls are Draws.
fn asked(pass: u32, call: usize) -> Asked
    requires { pass ≤ 1000 }
{
    let slot = pass % 12;
    let serial = 4 * (pass * 5 % 12) + pass % 3;
    match call {
        0 => Asked::Grant(1 + slot % 3, 4 * slot, 4 * slot + 2),
        4 => Asked::Void(serial),
        5 => Asked::Query(serial),
        6 => Asked::Grant(1, 50, 49),
        7 => Asked::Query(pass),
        9 => Asked::DrawMany(2),
        10 => Asked::Withdraw(pass / 4),
        _ => Asked::Draw,
    }
}

fn kind(outcome: &Outcome) -> usize
    ensures { result < 17 }
{
    match outcome {
        Outcome::Granted { .. } => 0,
        Outcome::Drawn { .. } => 1,
        Outcome::Voided => 2,
        Outcome::Told(_) => 3,
        Outcome::NotThePost => 4,
        Outcome::BadGrant => 5,
        Outcome::Overlap => 6,
        Outcome::NoRange => 7,
        Outcome::NoneFree => 8,
        Outcome::NotYours => 9,
        Outcome::NotIssued => 10,
        Outcome::AlreadyVoid => 11,
        Outcome::NumberReused => 12,
        Outcome::DrawnMany { .. } => 13,
        Outcome::Withdrawn => 14,
        Outcome::NoSuchRange => 15,
        Outcome::Closed => 16,
    }
}

// The day rises by five in four passes. Call 2 of each pass has an earlier day.
fn day(pass: u32, call: usize) -> u32
    requires { pass ≤ 1000 }
{
    if call == 2 {
        19_000
    } else {
        20_000 + pass * 5 / 4
    }
}

// Executes a request on both books and records the kind of its outcome. Returns whether both give
// the same outcome and none fails.
fn answers_are_equal<A: Book, B: Book>(
    one: &mut A,
    other: &mut B,
    request: &Request,
    day: u32,
    seen: &mut [bool; 17],
) -> bool {
    let first = answer(one, request, day);
    if answer(other, request, day) != first {
        return false;
    }
    match first {
        Ok(outcome) => {
            seen[kind(&outcome)] = true;
            true
        }
        Err(_) => false,
    }
}

// The same for the twelve calls of a pass.
fn pass_agrees<A: Book, B: Book>(
    one: &mut A,
    other: &mut B,
    pass: u32,
    seen: &mut [bool; 17],
) -> bool
    requires { pass ≤ 1000 }
{
    for (call, number) in NUMBERS.iter().enumerate() {
        let number = number.saturating_add(10 * pass);
        let request = request(customer(pass, call), number, asked(pass, call));
        if !answers_are_equal(one, other, &request, day(pass, call), seen) {
            return false;
        }
    }
    true
}

// Returns how many passes have equal outcomes in both books, and which kinds of outcomes occurred.
fn passes_agree<A: Book, B: Book>(one: &mut A, other: &mut B) -> (u32, [bool; 17]) {
    let mut seen = [false; 17];
    for pass in 0..PASSES {
        if !pass_agrees(one, other, pass, &mut seen) {
            return (pass, seen);
        }
    }
    (PASSES, seen)
}

#[test]
fn both_books_give_equal_answers_to_mixed_calls(rt: HostRuntime) {
    let mut plain = plain_book(rt.alloc());
    let mut indexed = indexed_book(rt.alloc());
    let alike = passes_agree(&mut plain, &mut indexed);
    assert!(rt; same(&rt, &"passes", &alike, &(PASSES, [true; 17])));
    have_equal_calls_and_reports(&rt, plain, indexed, 12 * PASSES, &[20_100]);
}
