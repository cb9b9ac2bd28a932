//! Says on standard error how many calls a ledger has, and when its last day is past today.

use crate::shares::share_kept;
use s10_book::Book;

/// A log of the calls and the days of a ledger on standard error.
///
/// The turns continue if standard error is closed.
#[derive(Drop)]
pub(crate) struct LedgerLog<'a, R> {
    rt: &'a R,
    is_first: bool,
    // The day on which it was last printed that the ledger's is past it.
    warned: Option<u32>,
    // The share of the limit that was printed last, in hundredths.
    share: u32,
}

impl<'a, R: Eprint> LedgerLog<'a, R> {
    pub(crate) fn new(rt: &'a R) -> LedgerLog<'a, R> {
        LedgerLog {
            rt,
            is_first: true,
            warned: None,
            share: 0,
        }
    }

    // Prints the calls and the days of the ledger at the first day, and once a day that its last day
    // is past it.
    pub(crate) fn eprint_day<B: Book>(&mut self, book: &B, today: u32) {
        let last = book.day();
        if self.is_first {
            self.is_first = false;
            let (calls, limit) = (book.len(), book.settings().limit());
            let _ = eprintln!(self.rt; "calls {calls} of {limit}, last day {last}, today {today}");
            self.eprint_calls(book);
        }
        if last > today && self.warned != Some(today) {
            self.warned = Some(today);
            let _ = eprintln!(self.rt;
                "the last day of the ledger, {last}, is past today, {today}"
            );
        }
    }

    // Prints once that 90, 95 or 99 of each 100 calls of the limit are kept.
    pub(crate) fn eprint_calls<B: Book>(&mut self, book: &B) {
        let (calls, limit) = (book.len(), book.settings().limit());
        let share = share_kept(calls, limit);
        if share <= self.share {
            return;
        }
        self.share = share;
        let _ = eprintln!(self.rt;
            "{share} of 100 calls of the limit are kept: {calls} of {limit}"
        );
    }
}
