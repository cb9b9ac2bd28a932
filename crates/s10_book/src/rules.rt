//! The rules: the outcome of each request (docs/RULES.md).

ghost use Rattle.std.specs.Prelude.{ℕ, ◌≡◌, ◌≤◌, ◌+◌, length, IfOk, IsTrue};
ghost use Rattle.std.specs.List.{list_any};
ghost use Rattle.s10_history.specs.History.{day_of, ranges_of, is_own};
ghost use Rattle.s10_book.specs.Rules.{grant_answer, draw_answer, draw_many_answer, void_answer};
ghost use Rattle.s10_book.specs.Rules.{withdraw_answer, status_of, status_of_issue, query_answer};
ghost use Rattle.s10_book.specs.Rules.{answer_of, NothingFree, FewFree};
ghost use Rattle.s10_wire.specs.Kind.{fits};
ghost use Rattle.s10_history.specs.Issues.{last_issue_of};
ghost use Rattle.s10_book.specs.BookFault.{CountsResult};
ghost use Rattle.s10_book.specs.Book.{Unchanged};
ghost use Rattle.s10_book.specs.Reading.{Reads};

use crate::book::Book;
use crate::book_fault::BookFault;
use crate::draws::successive_draws;
use s10_core::{Country, Id, Serial, Service};
use s10_history::{HolderKey, Issue, SerialSpan};
use s10_wire::{Body, Count, Outcome, Request, Status};

// Returns the outcome of a Draw: the pick of the lowest-numbered open range of the sender whose
// pick is free.
fn decide_draw<B: Book>(
    book: &mut B,
    customer: u32,
    service: Service,
    country: Country,
    day: u32,
) -> Result<Outcome, BookFault>
    ensures reads { Reads B.Book book.old book.new result }
    ensures answer { B.honest book.new
        → IfOk result (λ o. o ≡ draw_answer (B.history book.old) customer service country day
        (B.terms book.old).interval) }
    ensures fits { IfOk result (λ o. IsTrue (fits (Body.Draw service country) o)) }
{
    let held = HolderKey {
        holder: customer,
        service,
        country,
    };
    let Some(range) = book.next_free_range(&held, 0, day)? else {
        if book.next_range(&held, 0)?.is_none() {
            return Ok(Outcome::NoRange);
        }
        return Ok(Outcome::NoneFree);
    };
    let candidate = book.candidate(&range)?;
    let id = range.id(candidate.serial);
    Ok(Outcome::Drawn { day, id })
}

// Returns the outcome of a DrawMany: the identifiers of successive Draws, or why there are none.
fn decide_draw_many<B: Book>(
    book: &mut B,
    customer: u32,
    service: Service,
    country: Country,
    count: Count,
    day: u32,
) -> Result<Outcome, BookFault>
    ensures reads { Reads B.Book book.old book.new result }
    ensures answer { B.honest book.new
        → IfOk result (λ o. o ≡ draw_many_answer (B.history book.old) customer service country count
        day (B.terms book.old).interval) }
    ensures fits { IfOk result (λ o. IsTrue (fits (Body.DrawMany service country count) o)) }
{
    let held = HolderKey {
        holder: customer,
        service,
        country,
    };
    if book.next_range(&held, 0)?.is_none() {
        return Ok(Outcome::NoRange);
    }
    let drawn = successive_draws(book, customer, service, country, count, day)?;
    match drawn {
        None => Ok(Outcome::NoneFree),
        Some(ids) => Ok(Outcome::DrawnMany { day, ids }),
    }
}

// Returns whether the identifier lies in one of the customer's ranges. No two ranges have an
// identifier in common, so the one that is found decides.
fn owns<B: Book>(book: &mut B, customer: u32, id: &Id) -> Result<bool, BookFault>
    ensures reads { Reads B.Book book.old book.new result }
    ensures answer { B.honest book.new
        → IfOk result (λ b. b ≡ list_any (is_own customer id.now)
        (ranges_of (B.history book.old))) }
{
    let span = SerialSpan::of(id);
    match book.covering(&span)? {
        None => Ok(false),
        Some(range) => Ok(range.holder == customer),
    }
}

fn decide_void<B: Book>(book: &mut B, customer: u32, id: &Id) -> Result<Outcome, BookFault>
    ensures reads { Reads B.Book book.old book.new result }
    ensures answer { B.honest book.new
        → IfOk result (λ o. o ≡ void_answer (B.history book.old) customer id.now) }
    ensures fits { IfOk result (λ o. IsTrue (fits (Body.Void id.now) o)) }
{
    if !owns(book, customer, id)? {
        return Ok(Outcome::NotYours);
    }
    match book.last_issue(id)? {
        None => Ok(Outcome::NotIssued),
        Some(issue) => {
            if issue.voided {
                Ok(Outcome::AlreadyVoid)
            } else {
                Ok(Outcome::Voided)
            }
        }
    }
}

// Returns the status of an identifier that lies in a range.
fn issue_status<B: Book>(book: &mut B, id: &Id) -> Result<Status, BookFault>
    ensures reads { Reads B.Book book.old book.new result }
    ensures answer { B.honest book.new
        → IfOk result (λ s. s ≡ status_of_issue (last_issue_of (B.history book.old) id.now)) }
{
    match book.last_issue(id)? {
        None => Ok(Status::Never),
        Some(issue) => {
            if issue.voided {
                Ok(Status::Voided { day: issue.day })
            } else {
                Ok(Status::Issued { day: issue.day })
            }
        }
    }
}

// Returns the number of the next range, by binary search: range numbers have no gap, and are at
// most the number of calls.
fn next_number<B: Book>(book: &mut B) -> Result<u32, BookFault>
    ensures reads { Reads B.Book book.old book.new result }
    ensures answer { B.honest book.new
        → IfOk result (λ n. n ≡ length (ranges_of (B.history book.old)) + 1) }
{
    let mut low = 0;
    let mut high = book.len();
    while low < high {
        let middle = high - (high - low) / 2;
        if book.range(middle)?.is_some() {
            low = middle;
        } else {
            high = middle - 1;
        }
    }
    Ok(low + 1)
}

fn decide_grant<B: Book>(
    book: &mut B,
    customer: u32,
    holder: u32,
    service: Service,
    country: Country,
    first: Serial,
    last: Serial,
) -> Result<Outcome, BookFault>
    ensures reads { Reads B.Book book.old book.new result }
    ensures answer { B.honest book.new
        → IfOk result (λ o. o ≡ grant_answer (B.history book.old) customer holder service country
        first last) }
    ensures fits { IfOk result
        (λ o. IsTrue (fits (Body.Grant holder service country first last) o)) }
{
    if customer != 0 {
        return Ok(Outcome::NotThePost);
    }
    if holder == 0 || last.value() < first.value() {
        return Ok(Outcome::BadGrant);
    }
    let asked = SerialSpan {
        service,
        country,
        first,
        last,
    };
    if book.covering(&asked)?.is_some() {
        return Ok(Outcome::Overlap);
    }
    let range = next_number(book)?;
    Ok(Outcome::Granted { range })
}

// Returns the status of an identifier for the post, which may ask for one that lies in no range.
fn known_status<B: Book>(book: &mut B, id: &Id) -> Result<Status, BookFault>
    ensures reads { Reads B.Book book.old book.new result }
    ensures answer { B.honest book.new
        → IfOk result (λ s. s ≡ status_of (B.history book.old) id.now) }
{
    let span = SerialSpan::of(id);
    let found = book.covering(&span)?;
    if found.is_none() {
        return Ok(Status::Unknown);
    }
    issue_status(book, id)
}

fn decide_query<B: Book>(book: &mut B, customer: u32, id: &Id) -> Result<Outcome, BookFault>
    ensures reads { Reads B.Book book.old book.new result }
    ensures answer { B.honest book.new
        → IfOk result (λ o. o ≡ query_answer (B.history book.old) customer id.now) }
    ensures fits { IfOk result (λ o. IsTrue (fits (Body.Query id.now) o)) }
{
    if customer == 0 {
        let status = known_status(book, id)?;
        return Ok(Outcome::Told(status));
    }
    if !owns(book, customer, id)? {
        return Ok(Outcome::NotYours);
    }
    let status = issue_status(book, id)?;
    Ok(Outcome::Told(status))
}

fn decide_withdraw<B: Book>(book: &mut B, sender: u32, num: u32) -> Result<Outcome, BookFault>
    ensures reads { Reads B.Book book.old book.new result }
    ensures answer { B.honest book.new
        → IfOk result (λ o. o ≡ withdraw_answer (B.history book.old) sender num) }
    ensures fits { IfOk result (λ o. IsTrue (fits (Body.Withdraw num) o)) }
{
    if sender != 0 {
        return Ok(Outcome::NotThePost);
    }
    if book.range(num)?.is_none() {
        return Ok(Outcome::NoSuchRange);
    }
    if book.closed(num)? {
        return Ok(Outcome::Closed);
    }
    Ok(Outcome::Withdrawn)
}

/// Returns the outcome of a request by the rules (docs/RULES.md).
///
/// `day` must not be before the day of the book. The history is unchanged.
///
/// # Errors
///
/// - `Memory` if memory is refused to a read of the book.
/// - `Store` if the store fails in a read of the book.
pub fn decide<B: Book>(book: &mut B, request: &Request, day: u32) -> Result<Outcome, BookFault>
    requires { B.honest book.old → day_of (B.history book.old) ≤ day }
    ensures faults { CountsResult result (B.faults book.old) (B.faults book.new) }
    ensures unchanged { Unchanged B.history B.committed B.terms B.honest B.clean B.may_find book.old
        book.new }
    ensures answer { B.honest book.new
        → IfOk result (λ o. o ≡ answer_of (B.history book.old) request.now day
        (B.terms book.old).interval) }
    ensures fits { IfOk result (λ o. IsTrue (fits request.now.body o)) }
    ensures none_free { B.honest book.new → (service country : ℕ × ℕ) → request.now.body
        ≡ Body.Draw service country → result ≡ Ok Outcome.NoneFree
        → NothingFree (B.history book.old) request.now.customer service country day
        (B.terms book.old).interval }
    ensures few_free { B.honest book.new → (service country : ℕ × ℕ) (count : ℕ) → request.now.body
        ≡ Body.DrawMany service country count → result ≡ Ok Outcome.NoneFree
        → FewFree (B.history book.old) request.now.customer service country count day
        (B.terms book.old).interval }
{
    match request.body {
        Body::Grant {
            holder,
            service,
            country,
            first,
            last,
        } => decide_grant(
            book,
            request.customer,
            holder,
            service,
            country,
            first,
            last,
        ),
        Body::Draw { service, country } => {
            decide_draw(book, request.customer, service, country, day)
        }
        Body::DrawMany {
            service,
            country,
            count,
        } => decide_draw_many(book, request.customer, service, country, count, day),
        Body::Void { id } => decide_void(book, request.customer, &id),
        Body::Query { id } => decide_query(book, request.customer, &id),
        Body::Withdraw { range } => decide_withdraw(book, request.customer, range),
    }
}
