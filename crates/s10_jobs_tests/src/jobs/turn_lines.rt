//! The lines of a server's turns, and of faults of ledgers and links.

use s10_book::BookFault;
use s10_ends::{ServerTurn, Turn};
use s10_jobs::{write_ledger_fault, write_link_fault, write_turn};
use s10_lines::WriteFault;
use s10_link::{LinkFault, Peer};
use s10_rows::OpenFault;
use s10_test_help::datagrams::DRAWN;
use s10_test_help::expect::{holds, is_text};
use s10_test_help::hiccup::Hiccup;
use s10_test_help::refusing::Refusing;
use s10_wire::{WireFault, decode_reply, encode_reply};
use std::alloc::Global;

const PEER: Peer = Peer {
    ip: [10, 0, 0, 1],
    port: 4711,
};

/// How a turn ends.
#[derive(Clone, Copy)]
enum Ends {
    Quiet,
    Dropped(WireFault),
    Faulted(BookFault),
    Uncommitted(BookFault),
    /// The bytes of the reply.
    Replied(&'static [u8]),
    Failed(LinkFault),
}

/// Returns the turn of a reply, or a quiet turn if the bytes are no reply.
fn replied(bytes: &[u8]) -> Turn {
    Ok(match decode_reply(bytes) {
        Ok(reply) => ServerTurn::Replied(PEER, encode_reply(&reply)),
        Err(_) => ServerTurn::Quiet,
    })
}

fn turn(ends: Ends) -> Turn {
    match ends {
        Ends::Quiet => Ok(ServerTurn::Quiet),
        Ends::Dropped(fault) => Ok(ServerTurn::Dropped(PEER, fault)),
        Ends::Faulted(fault) => Ok(ServerTurn::Faulted(PEER, fault)),
        Ends::Uncommitted(fault) => Ok(ServerTurn::Uncommitted(PEER, fault)),
        Ends::Replied(reply) => replied(reply),
        Ends::Failed(fault) => Err(fault),
    }
}

/// Returns whether a writer that fails after `room` bytes has the beginning of the turn's line.
fn is_begun(alloc: Global, turn: &Turn, senders: bool, line: &[u8], room: usize) -> bool {
    let mut out = Hiccup::new(alloc, room);
    write_turn(turn, senders, &mut out) == Err(WriteFault)
        && out.bytes.len() == room
        && line.starts_with(out.bytes.as_slice())
}

/// Returns whether this is the line of the turn, and a writer that fails once has its beginning.
fn is_line_of_turn(alloc: Global, turn: &Turn, senders: bool, line: &[u8]) -> bool {
    for room in 0..line.len() {
        if !is_begun(alloc, turn, senders, line, room) {
            return false;
        }
    }
    let mut out = Vec::new(alloc);
    let written = write_turn(turn, senders, &mut out);
    is_text(out, line) && written == Ok(())
}

fn is_line_of_ledger_fault(alloc: Global, fault: OpenFault, line: &str) -> bool {
    let mut out = Vec::new(alloc);
    let written = write_ledger_fault(fault, &mut out);
    is_text(out, line.as_bytes())
        && written == Ok(())
        && write_ledger_fault(fault, &mut Refusing) == Err(WriteFault)
}

fn is_line_of_link_fault(alloc: Global, fault: LinkFault, line: &str) -> bool {
    let mut out = Vec::new(alloc);
    let written = write_link_fault(fault, &mut out);
    is_text(out, line.as_bytes())
        && written == Ok(())
        && write_link_fault(fault, &mut Refusing) == Err(WriteFault)
}

const TURNS: &[(Ends, &str)] = &[
    (Ends::Quiet, "quiet\n"),
    (Ends::Dropped(WireFault::Short), "dropped short\n"),
    (Ends::Dropped(WireFault::Field(12)), "dropped field 12\n"),
    (Ends::Faulted(BookFault::Full), "faulted full\n"),
    (Ends::Faulted(BookFault::Memory), "faulted memory\n"),
    (Ends::Uncommitted(BookFault::Store), "uncommitted store\n"),
    (
        Ends::Replied(DRAWN),
        "replied 533101820000000700000001524147420000004e2052413030303030303030354742\n",
    ),
    (Ends::Failed(LinkFault::Receive), "link receive\n"),
    (Ends::Failed(LinkFault::Spent), "link spent\n"),
];

#[test]
fn turns_have_their_lines(rt: HostRuntime) {
    for (ends, line) in TURNS {
        let is_line = is_line_of_turn(rt.alloc(), &turn(*ends), false, line.as_bytes());
        assert!(rt; holds(&rt, line, is_line));
    }
}

const SENDERS: &[(Ends, &str)] = &[
    (Ends::Quiet, "quiet\n"),
    (
        Ends::Dropped(WireFault::Field(12)),
        "dropped field 12 from 10.0.0.1:4711\n",
    ),
    (
        Ends::Faulted(BookFault::Full),
        "faulted full from 10.0.0.1:4711\n",
    ),
    (
        Ends::Uncommitted(BookFault::Store),
        "uncommitted store from 10.0.0.1:4711\n",
    ),
    (
        Ends::Replied(DRAWN),
        "replied 533101820000000700000001524147420000004e2052413030303030303030354742 from 10.0.0.1:4711\n",
    ),
    (Ends::Failed(LinkFault::Send), "link send\n"),
];

#[test]
fn turns_of_peers_name_their_senders(rt: HostRuntime) {
    for (ends, line) in SENDERS {
        let is_line = is_line_of_turn(rt.alloc(), &turn(*ends), true, line.as_bytes());
        assert!(rt; holds(&rt, line, is_line));
    }
}

const LEDGER_FAULTS: &[(OpenFault, &str)] = &[
    (OpenFault::NotALedger, "ledger not-a-ledger\n"),
    (OpenFault::Schema(0), "ledger schema 0\n"),
    (OpenFault::Schema(2), "ledger schema 2\n"),
    (OpenFault::Schema(-1), "ledger schema -1\n"),
    (
        OpenFault::Schema(i64::MAX),
        "ledger schema 9223372036854775807\n",
    ),
    (
        OpenFault::Schema(i64::MIN),
        "ledger schema -9223372036854775808\n",
    ),
    (OpenFault::Damaged(0), "ledger damaged 0\n"),
    (
        OpenFault::Damaged(1_000_000_000),
        "ledger damaged 1000000000\n",
    ),
    (OpenFault::NotEmpty, "ledger not-empty\n"),
    (OpenFault::Memory, "ledger memory\n"),
    (OpenFault::Store, "ledger store\n"),
];

#[test]
fn ledger_faults_have_their_lines(rt: HostRuntime) {
    for (fault, line) in LEDGER_FAULTS {
        assert!(rt; holds(&rt, line, is_line_of_ledger_fault(rt.alloc(), *fault, line)));
    }
}

const LINK_FAULTS: &[(LinkFault, &str)] = &[
    (LinkFault::Bind, "link bind\n"),
    (LinkFault::Receive, "link receive\n"),
    (LinkFault::Send, "link send\n"),
    (LinkFault::Spent, "link spent\n"),
];

#[test]
fn link_faults_have_their_lines(rt: HostRuntime) {
    for (fault, line) in LINK_FAULTS {
        assert!(rt; holds(&rt, line, is_line_of_link_fault(rt.alloc(), *fault, line)));
    }
}
