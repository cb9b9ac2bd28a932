//! Runs of a server that is refused memory.

use crate::ends::fixtures::{have_one_history, new_server};
use s10_book::Book;
use s10_ends::{Answer, Delivery, Server};
use s10_link::Packet;
use std::alloc::Global;

fn delivery(day: u32, datagram: &[u8]) -> Delivery {
    Delivery {
        packet: Packet::new(datagram),
        day,
    }
}

// A Grant, five Draws of which two arrive twice, and a datagram that is cut short.
fn nine_deliveries() -> [Delivery; 9] {
    [
        delivery(
            20000,
            b"S1\x01\x01\0\0\0\0\0\0\0\x01\0\0\0\x07RAGB\0\0\0\0\0\0\0\x02",
        ),
        delivery(20000, b"S1\x01\x02\0\0\0\x07\0\0\0\x01RAGB"),
        delivery(20400, b"S1\x01\x02\0\0\0\x07\0\0\0\x01RAGB"),
        delivery(20000, b"S1\x01\x02\0\0\0\x07\0\0\0\x02RAGB"),
        delivery(20000, b"S1\x01\x02\0\0\0\x07\0\0\0\x03RAGB"),
        delivery(20029, b"S1\x01\x02\0\0\0\x07\0\0\0\x04RAGB"),
        delivery(20030, b"S1\x01\x02\0\0\0\x07\0\0\0\x04RAGB"),
        delivery(20030, b"S1\x01\x02\0\0\0\x07\0\0\0\x05RAGB"),
        delivery(20030, b"S1\x01\x02\0\0\0\x07\0\0\0\x06RAG"),
    ]
}

fn is_faulted(answer: &Answer) -> bool {
    matches!(answer, Answer::Faulted(_))
}

fn none_is_faulted(answers: &[Answer]) -> bool {
    for answer in answers {
        if is_faulted(answer) {
            return false;
        }
    }
    true
}

// Returns whether a server answers all deliveries and keeps their calls.
fn answers_all<B: Book + Drop>(alloc: Global, mut server: Server<B>) -> bool {
    match server.run(alloc, &nine_deliveries()) {
        Ok(answers) => {
            answers.len() == 9 && none_is_faulted(&answers) && server.book().len() == 6
        }
        Err(_) => false,
    }
}

#[test]
fn a_run_with_ample_memory_faults_nothing(rt: HostRuntime) {
    assert!(rt; answers_all(rt.alloc(), new_server(rt.alloc(), 100)));
}

// Returns whether a server gives this answer to a delivery, or `None` if it is itself refused
// memory.
fn gives_same_answer<B: Book>(
    server: &mut Server<B>,
    delivery: &Delivery,
    answer: &Answer,
) -> Option<bool> {
    match (
        answer,
        &server.handle(delivery.packet.bytes(), delivery.day),
    ) {
        (_, Answer::Faulted(_)) => None,
        (Answer::Reply(first), Answer::Reply(again)) => Some(first == again),
        (Answer::Dropped(first), Answer::Dropped(again)) => Some(first == again),
        _ => Some(false),
    }
}

// Returns whether a server gives the same answers to the deliveries that were not faulted, or
// `None` if it is itself refused memory.
fn gives_same_answers<B: Book>(
    server: &mut Server<B>,
    deliveries: &[Delivery],
    answers: &[Answer],
) -> Option<bool> {
    for at in 0..deliveries.len().min(answers.len()) {
        if !is_faulted(&answers[at]) {
            let is_alike = gives_same_answer(server, &deliveries[at], &answers[at]);
            if is_alike != Some(true) {
                return is_alike;
            }
        }
    }
    Some(true)
}

// Returns whether a run equals that of another server without the faulted deliveries. Returns
// `None` if there is no run, or if the other server is refused memory.
fn is_run_of_others<B: Book>(
    alloc: Global,
    server: &mut Server<B>,
    other: &mut Server<B>,
) -> Option<bool> {
    let deliveries = nine_deliveries();
    match server.run(alloc, &deliveries) {
        Ok(answers) => gives_same_answers(other, &deliveries, &answers),
        Err(_) if server.book().len() == 0 => None,
        Err(_) => Some(false),
    }
}

// Returns whether such a run is right or refused memory, and whether both servers have equal
// histories if it is compared.
fn is_there_with_its_history<B: Book + Drop>(
    alloc: Global,
    mut server: Server<B>,
    mut other: Server<B>,
) -> (bool, bool) {
    let is_run = is_run_of_others(alloc, &mut server, &mut other);
    let mut book = server.into_book();
    let mut same = other.into_book();
    let have_one = have_one_history(&mut book, &mut same);
    (is_run != Some(false), is_run.is_none() || have_one)
}

// checks/refused_memory.sh refuses each request for memory in turn; without it none is refused. A
// delivery for which the book had no memory counts as lost.
#[test]
fn a_refused_request_for_memory_leaves_a_run_of_the_other_deliveries(rt: HostRuntime) {
    let server = new_server(rt.alloc(), 100);
    let other = new_server(rt.alloc(), 100);
    let (is_run, has_history) = is_there_with_its_history(rt.alloc(), server, other);
    assert!(rt; is_run);
    assert!(rt; has_history);
}
