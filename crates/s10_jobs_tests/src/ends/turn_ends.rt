//! How turns of a server end.

use s10_book::BookFault;
use s10_ends::{ServerTurn, Turn};
use s10_link::{LinkFault, Peer};
use s10_wire::WireFault;

/// The expected end of a turn.
#[derive(Clone, Copy)]
pub enum Ends {
    /// The receiver of the reply, and its bytes.
    Replied(Peer, &'static [u8]),
    /// The sender of the datagram, and its fault.
    Dropped(Peer, WireFault),
    /// The sender of the request, and the fault of the book.
    Faulted(Peer, BookFault),
    Quiet,
    Failed(LinkFault),
}

/// Returns whether a turn without a fault of the link ends as expected.
fn has_ended(turn: &ServerTurn, ends: &Ends) -> bool {
    match (turn, ends) {
        (ServerTurn::Replied(to, frame), Ends::Replied(peer, reply)) => {
            to == peer && frame.bytes() == *reply
        }
        (ServerTurn::Dropped(from, fault), Ends::Dropped(peer, refusal)) => {
            from == peer && fault == refusal
        }
        (ServerTurn::Faulted(from, fault), Ends::Faulted(peer, failure)) => {
            from == peer && fault == failure
        }
        (ServerTurn::Quiet, Ends::Quiet) => true,
        _ => false,
    }
}

/// Returns whether a turn ends as expected.
pub(crate) fn is_expected_turn(turn: &Turn, ends: &Ends) -> bool {
    match (turn, ends) {
        (Ok(turn), _) => has_ended(turn, ends),
        (Err(fault), Ends::Failed(failure)) => fault == failure,
        _ => false,
    }
}
