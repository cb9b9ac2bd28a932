//! Books that commit calls only on request, and the books in them.

use crate::book::both_books::{have_equal_calls_and_reports, indexed_book, plain_book};
use s10_book::{Batched, Book, BookFault, GroupCommit};
use s10_test_help::expect::same;
use s10_test_help::steps::{NINE_CALLS, first_wrong_step};

/// The days on which both books must give equal reports.
const DAYS: &[u32] = &[20000, 20029, 20030, 20060];

/// The first of the nine calls that a book answers wrongly, the number of calls that it has then,
/// and the result of a commit.
type Found = (Option<usize>, u32, Result<(), BookFault>);

fn nine_calls_of<B: GroupCommit>(book: &mut Batched<B>) -> Found {
    let wrong = first_wrong_step(book, NINE_CALLS);
    let calls = book.len();
    (wrong, calls, book.commit())
}

/// Returns whether the calls of the first two keys are committed, and that of a key with no call.
fn are_committed<B: GroupCommit>(book: &Batched<B>) -> [bool; 3] {
    [
        book.is_committed(0, 1),
        book.is_committed(7, 1),
        book.is_committed(7, 99),
    ]
}

#[test]
fn batched_books_give_the_answers_of_the_books_in_them(rt: HostRuntime) {
    let mut plain = Batched::new(plain_book(rt.alloc()));
    let mut indexed = Batched::new(indexed_book(rt.alloc()));
    let found = (nine_calls_of(&mut plain), nine_calls_of(&mut indexed));
    let wanted = (None, 9, Ok(()));
    assert!(rt; same(&rt, &"answers", &found, &(wanted, wanted)));
    let committed = (are_committed(&plain), are_committed(&indexed));
    assert!(rt; same(&rt, &"committed", &committed, &([true; 3], [true; 3])));
    have_equal_calls_and_reports(&rt, plain, indexed.into_inner(), 10, DAYS);
}
