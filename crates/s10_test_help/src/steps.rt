//! Calls with their expected answers, and the books that execute them.

use crate::answered::Answered;
use crate::asked::Asked;
use s10_book::{Book, BookFault, decide};
use s10_history::Entry;
use s10_wire::{Outcome, Request};

/// A call: customer, number, what it asks, its day, and the expected answer.
pub type Step = (u32, u32, Asked, u32, Answered);

/// Customer 7 is granted range 1: the serials 0 to 2.
pub const OPENING: Step = (0, 1, Asked::Grant(7, 0, 2), 20000, Answered::Granted(1));

/// Customer 7 draws serial 0.
pub const FIRST_DRAW: Step = (7, 1, Asked::Draw, 20000, Answered::Drawn(20000, 0));

/// Customer 7 draws serial 1.
const SECOND_DRAW: Step = (7, 2, Asked::Draw, 20000, Answered::Drawn(20000, 1));

/// Customer 7 voids serial 1.
const FIRST_VOID: Step = (7, 3, Asked::Void(1), 20000, Answered::Voided);

/// The first of the nine calls.
pub const ONE_CALL: &'static [Step] = &[OPENING];

/// The first two of the nine calls.
pub const TWO_CALLS: &'static [Step] = &[OPENING, FIRST_DRAW];

/// The first three of the nine calls.
pub const THREE_CALLS: &'static [Step] = &[OPENING, FIRST_DRAW, SECOND_DRAW];

/// The first four of the nine calls.
pub const FOUR_CALLS: &'static [Step] = &[OPENING, FIRST_DRAW, SECOND_DRAW, FIRST_VOID];

/// The first six of the nine calls: customer 7 draws three serials and voids one of them twice.
pub const SIX_CALLS: &'static [Step] = &[
    OPENING,
    FIRST_DRAW,
    SECOND_DRAW,
    FIRST_VOID,
    (7, 4, Asked::Void(1), 20000, Answered::AlreadyVoid),
    (7, 5, Asked::Draw, 20000, Answered::Drawn(20000, 2)),
];

/// The last three of the nine calls: no serial is free, and 30 days later two are drawn again.
pub const THREE_MORE: &'static [Step] = &[
    (7, 6, Asked::Draw, 20000, Answered::NoneFree),
    (7, 7, Asked::Draw, 20030, Answered::Drawn(20030, 0)),
    (7, 8, Asked::Draw, 20030, Answered::Drawn(20030, 1)),
];

/// All nine calls.
pub const NINE_CALLS: &'static [Step] = &[
    OPENING,
    FIRST_DRAW,
    SECOND_DRAW,
    FIRST_VOID,
    (7, 4, Asked::Void(1), 20000, Answered::AlreadyVoid),
    (7, 5, Asked::Draw, 20000, Answered::Drawn(20000, 2)),
    (7, 6, Asked::Draw, 20000, Answered::NoneFree),
    (7, 7, Asked::Draw, 20030, Answered::Drawn(20030, 0)),
    (7, 8, Asked::Draw, 20030, Answered::Drawn(20030, 1)),
];

/// Returns the customer's request with this number.
pub fn request(customer: u32, number: u32, asked: Asked) -> Request {
    Request {
        customer,
        number,
        body: asked.body(),
    }
}

/// Executes a request as a server does: repeats the kept outcome, or decides and keeps a new call.
///
/// # Errors
///
/// - `Full` if the request is new and the book has as many calls as its limit.
/// - `Memory` or `Store` if a call of the book fails.
pub fn answer<B: Book>(book: &mut B, request: &Request, day: u32) -> Result<Outcome, BookFault> {
    if let Some(entry) = book.find(request.customer, request.number)? {
        return Ok(if entry.request == *request {
            entry.outcome
        } else {
            Outcome::NumberReused
        });
    }
    if book.settings().limit() <= book.len() {
        return Err(BookFault::Full);
    }
    let day = book.day().max(day);
    let outcome = decide(book, request, day)?;
    book.keep(Entry {
        request: *request,
        day,
        outcome,
    })?;
    Ok(outcome)
}

/// Executes the steps and returns the index of the first whose answer differs from its row, if any.
pub fn first_wrong_step<B: Book>(book: &mut B, steps: &[Step]) -> Option<usize> {
    for (place, (customer, number, asked, day, answered)) in steps.iter().enumerate() {
        let request = request(*customer, *number, *asked);
        if !answered.is(&answer(book, &request, *day)) {
            return Some(place);
        }
    }
    None
}
