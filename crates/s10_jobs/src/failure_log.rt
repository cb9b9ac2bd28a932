//! Says on standard error why the store of a book fails.

use std::fmt::Display;

/// A log of the reasons why a store fails on standard error, one line for each change.
///
/// The turns continue if standard error is closed.
#[derive(Drop)]
pub(crate) struct FailureLog<'a, R, F> {
    rt: &'a R,
    // The reason that was printed last, or `None` if the store works since.
    last: Option<F>,
}

impl<'a, R: Eprint, F: Copy + PartialEq + Display> FailureLog<'a, R, F> {
    pub(crate) fn new(rt: &'a R) -> FailureLog<'a, R, F> {
        FailureLog { rt, last: None }
    }

    // Prints a line if the reason is another one than before.
    pub(crate) fn eprint_change(&mut self, reason: Option<F>) {
        if reason == self.last {
            return;
        }
        let _ = match &reason {
            Some(reason) => eprintln!(self.rt; "cannot use the ledger: {reason}"),
            None => eprintln!(self.rt; "the ledger can be used again"),
        };
        self.last = reason;
    }
}
