//! Finds the marks that a later write of the same commit sets again.

ghost use Rattle.std.specs.Prelude.{◌≡◌, ◌++◌};
ghost use Rattle.s10_statements.specs.LaterMarks.{is_mark_set, is_set_again as sets_again};
ghost use Rattle.s10_statements.specs.LaterMarks.{sets_mark_of, range_writes};

use s10_rows::{CallWrite, RangeWrite};

// Returns whether the write sets the mark of the range with the number `num`.
fn sets_mark(write: &RangeWrite, num: i64) -> bool
    ensures { result ≡ sets_mark_of num write.now }
{
    match *write {
        RangeWrite::New(_) => false,
        RangeWrite::Mark { num: marked, .. } => num == marked,
    }
}

// Returns whether one of the writes sets the mark of the range with the number `num`.
fn any_sets_mark(writes: &[RangeWrite], num: i64) -> bool
    ensures { result ≡ is_mark_set num writes.now }
{
    writes.iter().any(|write| sets_mark(write, num))
}

// Returns whether the call sets the mark of the range with the number `num`.
fn call_sets_mark(call: &CallWrite, num: i64) -> bool
    ensures { result ≡ is_mark_set num call.now.ranges.items }
{
    any_sets_mark(&call.ranges, num)
}

// Returns whether one of the calls sets the mark of the range with the number `num`.
fn any_call_sets_mark(calls: &[CallWrite], num: i64) -> bool
    ensures { result ≡ is_mark_set num (range_writes calls.now) }
{
    calls.iter().any(|call| call_sets_mark(call, num))
}

// Returns whether the write sets a mark that one of the other writes of its call after it, or one
// of the later calls, sets again.
pub(crate) fn is_set_again(write: &RangeWrite, rest: &[RangeWrite], later: &[CallWrite]) -> bool
    ensures { result ≡ sets_again write.now (rest.now ++ range_writes later.now) }
{
    match *write {
        RangeWrite::New(_) => false,
        RangeWrite::Mark { num, .. } => any_sets_mark(rest, num) || any_call_sets_mark(later, num),
    }
}
