//! Books in memory that execute calls with their expected answers.

ghost use Rattle.std.specs.Prelude.{◌≤◌};

use s10_book::PlainBook;
use s10_history::Settings;
use s10_test_help::expect::same;
use s10_test_help::steps::{Step, first_wrong_step};
use std::alloc::Global;
use std::process::Abort;

/// Returns an empty book with an interval of 30 days.
pub(crate) fn empty_book(alloc: Global, limit: u32) -> PlainBook
    requires least { 1 ≤ limit }
    requires most { limit ≤ 100 }
{
    PlainBook::new(alloc, Settings::new(30, limit).unwrap())
}

/// Asserts that the book answers each step as its row says.
pub(crate) fn execute_steps(
    rt: &(impl Abort + Eprint),
    name: &str,
    book: &mut PlainBook,
    steps: &[Step],
) {
    assert!(rt; same(rt, &name, &first_wrong_step(book, steps), &None));
}

/// Returns a book with an interval of 30 days after these steps.
fn book_of<R: Abort + Eprint + AllocGlobal>(
    rt: &R,
    name: &str,
    limit: u32,
    steps: &[Step],
) -> PlainBook
    requires least { 1 ≤ limit }
    requires most { limit ≤ 100 }
{
    let mut book = empty_book(rt.alloc(), limit);
    execute_steps(rt, name, &mut book, steps);
    book
}

/// Asserts that an empty book with an interval of 30 days answers each step as its row says.
pub(crate) fn are_answered<R: Abort + Eprint + AllocGlobal>(
    rt: &R,
    name: &str,
    limit: u32,
    steps: &[Step],
)
    requires least { 1 ≤ limit }
    requires most { limit ≤ 100 }
{
    drop(book_of(rt, name, limit, steps));
}

/// Asserts the same for the steps of each row, on a book of its own with a limit of 100 calls.
pub(crate) fn all_are_answered<R: Abort + Eprint + AllocGlobal>(rt: &R, rows: &[(&str, &[Step])]) {
    for (name, steps) in rows {
        are_answered(rt, name, 100, steps);
    }
}

/// Returns a book with an interval of 30 days and a limit of 100 calls after these steps.
pub(crate) fn book_after<R: Abort + Eprint + AllocGlobal>(
    rt: &R,
    name: &str,
    steps: &[Step],
) -> PlainBook {
    book_of(rt, name, 100, steps)
}
