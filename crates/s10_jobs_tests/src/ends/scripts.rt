//! Deliveries, each with its expected answer.

use crate::ends::fixtures::new_server;
use s10_book::Book;
use s10_ends::{Answer, Delivery, Server};
use s10_link::Packet;
use s10_test_help::deliveries::{Delivered, Want};
use std::alloc::{AllocError, Global};

/// Steps that are delivered in one run, and the number of calls and the day of the book after it.
pub type Part = (&'static [Delivered], u32, u32);

/// Returns whether the answer is the expected one.
pub(crate) fn is_as_wanted(answer: &Answer, want: &Want) -> bool {
    match (answer, want) {
        (Answer::Reply(frame), Want::Reply(bytes)) => frame.bytes() == *bytes,
        (Answer::Dropped(fault), Want::Dropped(wanted)) => *fault == *wanted,
        (Answer::Faulted(fault), Want::Faulted(wanted)) => *fault == *wanted,
        _ => false,
    }
}

/// Returns the deliveries of these steps.
fn deliveries_of(alloc: Global, steps: &[Delivered]) -> Result<Vec<Delivery>, AllocError> {
    let mut deliveries = Vec::new(alloc);
    for (day, datagram, _) in steps {
        let packet = Packet::new(datagram);
        deliveries.push(Delivery { packet, day: *day })?;
    }
    Ok(deliveries)
}

/// Returns whether each step has its expected answer.
fn are_as_wanted(answers: &[Answer], steps: &[Delivered]) -> bool {
    if answers.len() != steps.len() {
        return false;
    }
    for at in 0..answers.len() {
        if !is_as_wanted(&answers[at], &steps[at].2) {
            return false;
        }
    }
    true
}

/// Runs a server over the deliveries of a part. Returns whether each answer, the number of calls
/// and the day of the book are as expected.
fn plays<B: Book>(alloc: Global, server: &mut Server<B>, part: &Part) -> Result<bool, AllocError> {
    let (steps, calls, day) = part;
    let deliveries = deliveries_of(alloc, steps)?;
    let answers = server.run(alloc, &deliveries)?;
    Ok(
        are_as_wanted(&answers, steps)
            && server.book().len() == *calls
            && server.book().day() == *day,
    )
}

/// Returns whether a server passes these parts, one after another.
fn plays_all<B: Book>(alloc: Global, server: &mut Server<B>, parts: &[Part]) -> bool {
    for part in parts {
        if plays(alloc, server, part) != Ok(true) {
            return false;
        }
    }
    true
}

/// Returns whether a server over an empty book with this limit passes these parts, one after
/// another.
pub(crate) fn is_played(alloc: Global, limit: u32, parts: &[Part]) -> bool {
    let mut server = new_server(alloc, limit);
    plays_all(alloc, &mut server, parts)
}
