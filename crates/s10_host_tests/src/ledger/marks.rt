//! Rows after many calls in one commit, which writes each mark once: those after a commit of each
//! call.

use crate::ledger::books::first_wrong_step_in;
use crate::ledger::calls::{closed, ledger, settings};
use crate::ledger::tables::numbers;
use s10_book::{Batched, Book, GroupCommit};
use s10_ledger::SqlBook;
use s10_test_help::answered::Answered::Granted;
use s10_test_help::asked::Asked::{self, Draw, DrawMany, DrawOfRb, Grant, GrantOfRb};
use s10_test_help::expect::{holds, same};
use s10_test_help::steps::{Step, answer, first_wrong_step, request};
use sqlite::{Connection, Error, MemStore};
use std::alloc::Global;
use std::process::Abort;

// Calls that are committed together.
struct Batch {
    name: &'static str,
    // The calls that are committed before.
    before: &'static [Step],
    // The first calls of the batch.
    first: &'static [Step],
    // What customer 7 asks after these, in turn.
    asked: (Asked, Asked),
    // How often it asks.
    count: u32,
    // The marks of the ranges after the batch.
    marks: &'static [i64],
}

const NO_STEPS: &'static [Step] = &[];

const OF_TWO_SERVICES: &'static [Step] = &[
    (0, 1, Grant(7, 0, 99), 20000, Granted(1)),
    (0, 2, GrantOfRb(7, 0, 99), 20000, Granted(2)),
];

const OF_ONE_SERVICE: &'static [Step] = &[
    (0, 1, Grant(7, 0, 9), 20000, Granted(1)),
    (0, 2, Grant(7, 20, 99), 20000, Granted(2)),
];

const BATCHES: &[Batch] = &[
    Batch {
        name: "64 Draws from two ranges in turn",
        before: OF_TWO_SERVICES,
        first: NO_STEPS,
        asked: (Draw, DrawOfRb),
        count: 64,
        marks: &[32, 32],
    },
    Batch {
        name: "64 Draws from a range up to its last serial, then from another",
        before: OF_ONE_SERVICE,
        first: NO_STEPS,
        asked: (Draw, Draw),
        count: 64,
        marks: &[0, 74],
    },
    Batch {
        name: "a sheet of sixteen from two ranges",
        before: OF_ONE_SERVICE,
        first: NO_STEPS,
        asked: (DrawMany(16), Draw),
        count: 1,
        marks: &[0, 26],
    },
    Batch {
        name: "sheets of sixteen, each with a Draw after it",
        before: OF_ONE_SERVICE,
        first: NO_STEPS,
        asked: (DrawMany(16), Draw),
        count: 4,
        marks: &[0, 44],
    },
    Batch {
        name: "two Grants, and 62 Draws from their ranges in turn",
        before: NO_STEPS,
        first: OF_TWO_SERVICES,
        asked: (Draw, DrawOfRb),
        count: 62,
        marks: &[31, 31],
    },
];

// The rows of the tables that calls write, in numbers.
#[derive(Debug, Drop, PartialEq)]
struct Rows {
    calls: Vec<i64>,
    ranges: Vec<i64>,
    serials: Vec<i64>,
    marks: Vec<i64>,
}

fn rows_in(alloc: Global, conn: &mut Connection<MemStore>) -> Result<Rows, Error> {
    Ok(Rows {
        calls: numbers(
            alloc,
            conn,
            "SELECT arrival, customer, number, day FROM calls ORDER BY arrival",
            4,
        )?,
        ranges: numbers(
            alloc,
            conn,
            "SELECT num, holder, pair, low, high FROM ranges ORDER BY num",
            5,
        )?,
        serials: numbers(
            alloc,
            conn,
            "SELECT pair, serial, arrival, day, customer, number, voided FROM serials ORDER BY pair, serial",
            7,
        )?,
        marks: numbers(alloc, conn, "SELECT mark FROM ranges ORDER BY num", 1)?,
    })
}

// Returns whether the book adds the calls of the batch.
fn adds<B: Book>(book: &mut B, batch: &Batch) -> bool {
    if first_wrong_step(book, batch.first).is_some() {
        return false;
    }
    for number in 0..batch.count {
        let (one, other) = batch.asked;
        let asked = if number % 2 == 0 { one } else { other };
        if answer(book, &request(7, number, asked), 20000).is_err() {
            return false;
        }
    }
    true
}

// Adds the calls of the batch to the ledger, each with a commit of its own, or all with one.
fn commits(
    mut book: SqlBook<MemStore>,
    batch: &Batch,
    together: bool,
) -> (SqlBook<MemStore>, bool) {
    let is_begun = first_wrong_step_in(&mut book, batch.before).is_none();
    if !together {
        let is_done = adds(&mut book, batch);
        return (book, is_begun && is_done);
    }
    let mut book = Batched::new(book);
    let is_done = adds(&mut book, batch) && !book.is_committed(7, 0) && book.commit().is_ok();
    (book.into_inner(), is_begun && is_done)
}

// Returns the rows of a new ledger after the batch, or `None` if a call or a read fails.
fn rows_after<R: Abort + AllocGlobal>(rt: &R, batch: &Batch, together: bool) -> Option<Rows> {
    let (book, is_done) = commits(ledger(rt, settings(rt, 1000)), batch, together);
    let mut conn = closed(book);
    if !is_done {
        return None;
    }
    rows_in(rt.alloc(), &mut conn).ok()
}

// Returns whether the ledger has the same rows after one commit as after a commit of each call, and
// these marks.
fn is_written<R: Abort + Eprint + AllocGlobal>(rt: &R, batch: &Batch) -> bool {
    let single = rows_after(rt, batch, false);
    let Some(rows) = rows_after(rt, batch, true) else {
        return false;
    };
    let are_marks = rows.marks.as_slice() == batch.marks;
    same(rt, &batch.name, &Some(rows), &single) && are_marks
}

#[test]
fn one_commit_writes_the_rows_of_a_commit_of_each_call(rt: HostRuntime) {
    for batch in BATCHES {
        assert!(rt; holds(&rt, &batch.name, is_written(&rt, batch)));
    }
}
