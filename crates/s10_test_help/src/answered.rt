//! The expected answer of a request of a table.

use crate::samples::id;
use s10_book::BookFault;
use s10_wire::{Ids, Outcome, Status};

/// The serials from the first value up to the second, without the second.
pub type Run = (u32, u32);

/// The expected answer.
#[derive(Clone, Copy)]
pub enum Answered {
    /// The day and the serial, of RA GB.
    Drawn(u32, u32),
    /// The day and the serials of RA GB in the order of the reply, as two runs.
    DrawnMany(u32, Run, Run),
    /// The number of the range.
    Granted(u32),
    /// The status of the identifier.
    Told(Status),
    Voided,
    Withdrawn,
    NotThePost,
    BadGrant,
    Overlap,
    NoRange,
    NoneFree,
    NotYours,
    NotIssued,
    AlreadyVoid,
    NumberReused,
    NoSuchRange,
    Closed,
    /// The book is full and keeps no call.
    Full,
}

/// Returns the index after the run if `ids` has its serials from index `place`, otherwise `None`.
fn after_run(ids: &Ids, place: usize, run: Run) -> Option<usize> {
    let mut at = place;
    for value in run.0..run.1 {
        if ids.get(at) != Some(id(value)) {
            return None;
        }
        at = at.saturating_add(1);
    }
    Some(at)
}

/// Returns whether these are the identifiers of RA GB with the serials of both runs, in order.
fn are_runs(ids: &Ids, first: Run, second: Run) -> bool {
    match after_run(ids, 0, first) {
        Some(middle) => after_run(ids, middle, second) == Some(ids.len()),
        None => false,
    }
}

impl Answered {
    /// Returns the outcome that a row names, or `None` for a sheet and for a full book.
    fn outcome(self) -> Option<Outcome> {
        Some(match self {
            Answered::Drawn(day, value) => Outcome::Drawn { day, id: id(value) },
            Answered::Granted(range) => Outcome::Granted { range },
            Answered::Told(status) => Outcome::Told(status),
            Answered::Voided => Outcome::Voided,
            Answered::Withdrawn => Outcome::Withdrawn,
            Answered::NotThePost => Outcome::NotThePost,
            Answered::BadGrant => Outcome::BadGrant,
            Answered::Overlap => Outcome::Overlap,
            Answered::NoRange => Outcome::NoRange,
            Answered::NoneFree => Outcome::NoneFree,
            Answered::NotYours => Outcome::NotYours,
            Answered::NotIssued => Outcome::NotIssued,
            Answered::AlreadyVoid => Outcome::AlreadyVoid,
            Answered::NumberReused => Outcome::NumberReused,
            Answered::NoSuchRange => Outcome::NoSuchRange,
            Answered::Closed => Outcome::Closed,
            Answered::DrawnMany(..) | Answered::Full => return None,
        })
    }

    /// Returns whether the answer is the one that the row names.
    pub fn is(&self, answer: &Result<Outcome, BookFault>) -> bool {
        match (answer, self) {
            (Ok(Outcome::DrawnMany { day, ids }), Answered::DrawnMany(on, first, second)) => {
                *day == *on && are_runs(ids, *first, *second)
            }
            (Ok(found), _) => self.outcome() == Some(*found),
            (Err(fault), Answered::Full) => *fault == BookFault::Full,
            _ => false,
        }
    }
}
