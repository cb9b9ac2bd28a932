//! Servers over a book that fails at one of its calls.

use crate::ends::fixtures::empty_book;
use crate::ends::scripts::is_as_wanted;
use s10_book::{Book, BookFault, TripBook};
use s10_ends::Server;
use s10_test_help::deliveries::Want::Faulted;
use s10_test_help::deliveries::{DRAW, Delivered, GRANT};
use std::alloc::Global;

/// Returns whether the server answers a step as expected.
fn is_answered<B: Book>(server: &mut Server<B>, step: &Delivered) -> bool {
    let (day, datagram, want) = step;
    is_as_wanted(&server.handle(datagram, *day), want)
}

/// Returns whether a step is answered as expected, delivered again if the store failed, and whether
/// it failed.
fn is_answered_after_retry<B: Book>(server: &mut Server<B>, step: &Delivered) -> (bool, bool) {
    let (day, datagram, want) = step;
    let answer = server.handle(datagram, *day);
    if is_as_wanted(&answer, &Faulted(BookFault::Store)) {
        (is_answered(server, step), true)
    } else {
        (is_as_wanted(&answer, want), false)
    }
}

/// Returns how many of a Grant and a Draw the server faults once, or `None` if an answer is wrong.
fn faults_of<B: Book>(server: &mut Server<B>) -> Option<u32> {
    let (is_granted, grant_faulted) = is_answered_after_retry(server, &GRANT);
    let (is_drawn, draw_faulted) = is_answered_after_retry(server, &DRAW);
    if is_granted && is_drawn {
        Some(grant_faulted as u32 + draw_faulted as u32)
    } else {
        None
    }
}

/// The same for a server over this book, or `None` if the book does not keep both calls.
fn faults_retried<B: Book + Drop>(book: B) -> Option<u32> {
    let mut server = Server::new(book);
    let faults = faults_of(&mut server);
    if server.book().len() == 2 {
        faults
    } else {
        None
    }
}

/// Returns whether a failure at each call of the book in turn faults one request, up to a call that
/// is not made.
fn each_fault_is_retried(alloc: Global) -> bool {
    for at in 0..100u64 {
        match faults_retried(TripBook::new(empty_book(alloc, 100), at)) {
            Some(0) => return at > 0,
            Some(1) => {}
            _ => return false,
        }
    }
    false
}

#[test]
fn a_faulted_request_is_done_when_delivered_again(rt: HostRuntime) {
    assert!(rt; each_fault_is_retried(rt.alloc()));
}
