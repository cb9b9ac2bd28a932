//! A range of all serials, and ten thousand draws from it.

use crate::ledger::books::first_wrong_step_of;
use crate::ledger::calls::{closed, ledger, settings};
use crate::ledger::rows::{Shown, first_unshown};
use s10_book::{Book, BookFault};
use s10_core::Id;
use s10_history::Issue;
use s10_test_help::answered::Answered;
use s10_test_help::asked::Asked;
use s10_test_help::expect::same;
use s10_test_help::samples::id;
use s10_test_help::steps::{Step, answer, first_wrong_step, request};

const GRANT: &'static [Step] = &[(
    0,
    1,
    Asked::Grant(7, 0, 99_999_999),
    20000,
    Answered::Granted(1),
)];

/// No row of a serial, and one range whose mark is its first serial.
const GRANTED: &'static [Shown] = &[
    ("SELECT count(*) FROM serials", 1, &[0]),
    ("SELECT mark FROM ranges", 1, &[0]),
];

/// One row per serial that was drawn, and one range whose mark is after them.
const DRAWN: &'static [Shown] = &[
    ("SELECT count(*) FROM serials", 1, &[10_000]),
    ("SELECT mark FROM ranges", 1, &[10_000]),
];

#[test]
fn a_grant_writes_no_row_of_a_serial(rt: HostRuntime) {
    let (unlike, mut conn) = first_wrong_step_of(&rt, 20_000, GRANT);
    let unshown = first_unshown(rt.alloc(), &mut conn, GRANTED);
    assert!(rt; same(&rt, &"the Grant", &(unlike, unshown), &(None, Ok(None))));
}

/// Makes ten thousand Draws, and returns the first serial that is not given in order, if any.
fn first_not_drawn<B: Book>(book: &mut B) -> Option<u32> {
    for value in 0..10_000u32 {
        let drawn = answer(book, &request(7, value + 1, Asked::Draw), 20000);
        if !Answered::Drawn(20000, value).is(&drawn) {
            return Some(value);
        }
    }
    None
}

/// The issue of the last Draw.
const LAST_ISSUE: Issue = Issue {
    day: 20000,
    voided: false,
    customer: 7,
    number: 10_000,
};

/// What is found after the Grant and the Draws: the index of a wrong answer to the Grant, the first
/// serial that is not given in order, the last issue, and the number of calls.
type Drawn = (
    Option<usize>,
    Option<u32>,
    Result<Option<Issue>, BookFault>,
    u32,
);

fn all_drawn<B: Book>(book: &mut B) -> Drawn {
    (
        first_wrong_step(book, GRANT),
        first_not_drawn(book),
        book.last_issue(&id(9_999)),
        book.len(),
    )
}

#[test]
fn ten_thousand_draws_give_the_serials_in_order(rt: HostRuntime) {
    let mut book = ledger(&rt, settings(&rt, 20_000));
    let drawn = all_drawn(&mut book);
    let mut conn = closed(book);
    let unshown = first_unshown(rt.alloc(), &mut conn, DRAWN);
    let is_named = Id::read(b"RA000099994GB") == Ok(id(9_999));
    assert!(rt;
        same(
            &rt,
            &"the calls, the last Draw's identifier, the rows",
            &(drawn, is_named, unshown),
            &((None, None, Ok(Some(LAST_ISSUE)), 10_001), true, Ok(None)),
        )
    );
}
