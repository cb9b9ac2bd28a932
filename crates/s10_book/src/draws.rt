//! The identifiers of successive Draws.

ghost use Rattle.std.specs.Prelude.{ℕ, ◌≡◌, ◌<◌, length, find, IfOk, IfSome, Contains};
ghost use Rattle.s10_history.specs.History.{ranges_of};
ghost use Rattle.s10_history.specs.Issues.{free_pick_of};
ghost use Rattle.s10_book.specs.Rules.{is_free_after};
ghost use Rattle.s10_book.specs.Rules.{successive_draws as successive_draws_of};
ghost use Rattle.s10_book.specs.BookFault.{CountsResult};
ghost use Rattle.s10_book.specs.Book.{Unchanged};
ghost use Rattle.s10_book.specs.Reading.{Reads};

use crate::book::Book;
use crate::book_fault::BookFault;
use crate::picks::Picks;
use s10_core::{Country, Id, Service};
use s10_history::{HolderKey, Range, is_free};
use s10_wire::{Count, Ids};

// Returns the identifier that the range gives after `issued` further picks of it. Returns `None` if
// those are all of its serials, or if that identifier is not free.
fn free_pick<B: Book>(
    book: &mut B,
    range: &Range,
    issued: u8,
    day: u32,
    interval: u32,
) -> Result<Option<Id>, BookFault>
    requires { B.honest book.old → Contains (ranges_of (B.history book.old)) range.now }
    ensures reads { Reads B.Book book.old book.new result }
    ensures answer { B.honest book.new
        → IfOk result (λ x. x ≡ free_pick_of (B.history book.old) range.now issued day interval) }
{
    if range.size() <= u32::from(issued) {
        return Ok(None);
    }
    let candidate = book.candidate_after(range, issued)?;
    if !is_free(&candidate.issue, day, interval) {
        return Ok(None);
    }
    Ok(Some(range.id(candidate.serial)))
}

// Returns the open range of the holder key with the least number above `after` whose pick is free.
// Only a store that fails finds one whose number is not above: that counts as none, so that a walk
// over the ranges ends.
fn next_free_after<B: Book>(
    book: &mut B,
    held: &HolderKey,
    after: u32,
    day: u32,
) -> Result<Option<Range>, BookFault>
    ensures reads { Reads B.Book book.old book.new result }
    ensures above { IfOk result (λ found. IfSome found (λ r. after < r.num)) }
    ensures answer { B.honest book.new
        → IfOk result (λ found. found
        ≡ find (is_free_after (B.history book.old) after held.now.holder held.now.service
        held.now.country day (B.terms book.old).interval) (ranges_of (B.history book.old))) }
{
    match book.next_free_range(held, after, day)? {
        Some(range) if after < range.num => Ok(Some(range)),
        _ => Ok(None),
    }
}

/// Returns the identifiers of `count` single Draws of the customer, one after another on that day.
///
/// Returns `None` if one of these Draws would not be done. A returned sheet has `count`
/// identifiers, even if the store fails. The history is unchanged.
///
/// # Errors
///
/// - `Memory` if memory is refused to a read of the book.
/// - `Store` if the store fails in a read of the book.
pub fn successive_draws<B: Book>(
    book: &mut B,
    customer: u32,
    service: Service,
    country: Country,
    count: Count,
    day: u32,
) -> Result<Option<Ids>, BookFault>
    ensures faults { CountsResult result (B.faults book.old) (B.faults book.new) }
    ensures unchanged { Unchanged B.history B.committed B.terms B.honest B.clean B.may_find book.old
        book.new }
    ensures answer { B.honest book.new
        → IfOk result (λ ids. ids ≡ successive_draws_of (B.history book.old) customer service
        country day (B.terms book.old).interval count) }
    ensures all { IfOk result (λ found. IfSome found (λ ids. length ids ≡ count)) }
{
    let interval = book.settings().interval();
    let wanted = count.value() as usize;
    let held = HolderKey {
        holder: customer,
        service,
        country,
    };
    // A range whose pick is not free before the sheet gives it nothing.
    let Some(mut range) = next_free_after(book, &held, 0, day)? else {
        return Ok(None);
    };
    let mut issued = 0;
    let mut picks = Picks::new(range.id(range.first));
    while picks.len() < wanted {
        if let Some(id) = free_pick(book, &range, issued, day, interval)? {
            picks.push(id);
            issued += 1;
            continue;
        }
        let Some(next) = next_free_after(book, &held, range.num, day)? else {
            return Ok(None);
        };
        range = next;
        issued = 0;
    }
    Ok(Some(picks.ids()))
}
