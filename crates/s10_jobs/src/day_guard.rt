//! Takes the day of a batch, and refuses one that is too far past the last day of the ledger.

ghost use Rattle.std.specs.Prelude.{◌≡◌, ◌≢◌, true, false, None, IsSome};
ghost use Rattle.s10_jobs.specs.DayGuard.{IsNextDay, IsRefusedDay, IsServedDay};

use crate::days::{Days, next_day};
use crate::turn_options::TurnOptions;
use s10_book::Book;

/// Returns the day of the next batch: the given day, or otherwise the next day of the source.
///
/// Returns `None` if the source gives no day, or one that is too far past the last day of the book.
/// Standard error then has both days.
pub(crate) fn day_of_batch<R: Eprint, B: Book, D: Days>(
    rt: &R,
    days: &mut D,
    options: &TurnOptions,
    book: &B,
) -> Option<u32>
    ensures next { IsNextDay B.honest B.history D.gives options.now book.now result days.old days.new }
    ensures given { options.now.day ≢ None → IsSome result }
{
    let today = next_day(days, options.day)?;
    if is_refused(book, options.guard(), today) {
        eprint_refused(rt, today, book.day());
        return None;
    }
    Some(today)
}

// Returns whether the guard refuses a day that was read: the book has a call, and the day is more
// than `guard` days past that of its last one.
fn is_refused<B: Book>(book: &B, guard: Option<u32>, day: u32) -> bool
    ensures refused { result ≡ true → IsRefusedDay B.honest B.history guard book.now day }
    ensures served { result ≡ false → IsServedDay B.honest B.history guard book.now day }
{
    let Some(most) = guard else {
        return false;
    };
    let last = book.day();
    book.len() > 0 && day.saturating_sub(last) > most
}

// The turns end with the line `clock`. It is printed even if standard error is closed.
fn eprint_refused<R: Eprint>(rt: &R, today: u32, last: u32) {
    let _ = eprintln!(rt;
        "the clock gives day {today}, too far past the last day of the ledger, {last}"
    );
}
