//! Links that follow a script.

use s10_link::{Packet, Peer, Receipt, ScriptLink};
use std::alloc::{AllocError, Global};

/// What a receive gives.
#[derive(Clone, Copy)]
pub enum Meets {
    /// A datagram: its sender and its bytes.
    Bytes(Peer, &'static [u8]),
    Nothing,
    Fault,
}

fn receipt(meets: Meets) -> Receipt {
    match meets {
        Meets::Bytes(from, bytes) => Receipt::Deliver(from, Packet::new(bytes)),
        Meets::Nothing => Receipt::Nothing,
        Meets::Fault => Receipt::Fail,
    }
}

/// Returns a link whose receives give these, and whose sends succeed or fail as listed.
///
/// # Errors
///
/// `AllocError` if the link cannot be allocated.
pub(crate) fn link_of(
    alloc: Global,
    receipts: &[Meets],
    sends: &[bool],
) -> Result<ScriptLink, AllocError> {
    let mut list = Vec::new(alloc);
    for meets in receipts {
        list.push(receipt(*meets))?;
    }
    ScriptLink::new(alloc, list, sends.to_vec(alloc)?)
}

/// Returns the same link with one more receive, which fails before receipt number `failing`,
/// counted from 0.
///
/// # Errors
///
/// `AllocError` if the link cannot be allocated.
pub(crate) fn link_with_failure(
    alloc: Global,
    receipts: &[Meets],
    failing: usize,
    sends: &[bool],
) -> Result<ScriptLink, AllocError> {
    let mut list = Vec::new(alloc);
    for (at, meets) in receipts.iter().enumerate() {
        if at == failing {
            list.push(Receipt::Fail)?;
        }
        list.push(receipt(*meets))?;
    }
    ScriptLink::new(alloc, list, sends.to_vec(alloc)?)
}
