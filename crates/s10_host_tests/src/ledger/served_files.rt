//! Servers over ledgers in files that stop at one call, as on a full disk, closed with pending
//! calls.

use crate::ledger::calls::{closed, settings};
use s10_book::{Batched, Book};
use s10_ends::{BatchRoom, Server, serve_batch};
use s10_history::Settings;
use s10_ledger::{ClosedBook, HashSeed, NoObserver, Refused, SqlBook};
use s10_link::{Link, Packet, Peer, Receipt, ScriptLink};
use s10_test_help::expect::same;
use sqlite::{Alter, Connection, FileStore, Files, Options};
use sqlite_disk::{Crash, Disk, Fuse, Memory};
use std::alloc::Global;

const PEER: Peer = Peer {
    ip: [10, 0, 0, 7],
    port: 4711,
};

/// A number that no call of a file has.
const NEVER: u64 = u64::MAX;

/// The post's first Grant, RA GB 0 to 2 for customer 7, and three Draws of this customer.
const REQUESTS: &[&[u8]] = &[
    b"S1\x01\x01\0\0\0\0\0\0\0\x01\0\0\0\x07RAGB\0\0\0\0\0\0\0\x02",
    b"S1\x01\x02\0\0\0\x07\0\0\0\x01RAGB",
    b"S1\x01\x02\0\0\0\x07\0\0\0\x02RAGB",
    b"S1\x01\x02\0\0\0\x07\0\0\0\x03RAGB",
];

/// How the service of a ledger ended.
#[derive(Clone, Copy, Debug, PartialEq, Eq)]
struct Served {
    /// The number of replies sent.
    sent: u32,
    /// The number of calls in its history.
    kept: u32,
    /// Whether all of these are committed.
    is_committed: bool,
}

/// Returns a link over which the requests arrive and every send succeeds.
fn link_of_requests(alloc: Global) -> Option<ScriptLink> {
    let mut receipts = Vec::new(alloc);
    for request in REQUESTS {
        let receipt = Receipt::Deliver(PEER, Packet::new(request));
        receipts.push(receipt).ok()?;
    }
    let sends = [true; 4].to_vec(alloc).ok()?;
    ScriptLink::new(alloc, receipts, sends).ok()
}

/// Serves the requests in two batches of two, closes the ledger, and returns how that ended and the
/// connection.
fn served_in_batches<S: Alter>(alloc: Global, book: SqlBook<S>) -> (Option<Served>, Connection<S>) {
    let mut server = Server::new(Batched::new(book));
    let mut room = BatchRoom::new(alloc);
    let mut sent = None;
    if let Some(mut link) = link_of_requests(alloc) {
        let _ = serve_batch(&mut room, &mut server, &mut link, 20_000, 2);
        let _ = serve_batch(&mut room, &mut server, &mut link, 20_000, 2);
        sent = u32::try_from(link.log().len()).ok();
    }
    let book = server.into_book().into_inner();
    let kept = book.len();
    let ClosedBook {
        connection,
        committed,
    } = book.close();
    let is_committed = committed.is_ok();
    let served = sent.map(|sent| Served {
        sent,
        kept,
        is_committed,
    });
    (served, connection)
}

/// Does the same over a new ledger in a connection.
fn served_in<S: Alter + Drop>(
    alloc: Global,
    conn: Connection<S>,
    settings: Settings,
) -> (Option<Served>, S) {
    if !conn.is_autocommit() {
        return (None, conn.into_store());
    }
    match SqlBook::create(alloc, HashSeed::fixed(), conn, settings, &mut NoObserver) {
        Ok(book) => {
            let (served, conn) = served_in_batches(alloc, book);
            (served, conn.into_store())
        }
        Err(
            Refused {
                refusal: _,
                connection,
            },
        ) => (None, connection.into_store()),
    }
}

/// Does the same over a connection to files.
fn served_over<D: Disk + Drop>(
    alloc: Global,
    conn: Connection<FileStore<D>>,
    settings: Settings,
) -> (Option<Served>, Files<D>) {
    let (served, store) = served_in(alloc, conn, settings);
    (served, store.close())
}

/// Returns the number of calls of the ledger in a connection, or `None` if it has no ledger.
pub(crate) fn calls_in<S: Alter + Drop>(alloc: Global, conn: Connection<S>) -> Option<u32> {
    if !conn.is_autocommit() {
        return None;
    }
    match SqlBook::open(alloc, HashSeed::fixed(), conn, &mut NoObserver) {
        Ok(book) => {
            let calls = book.len();
            let _conn = closed(book);
            Some(calls)
        }
        Err(
            Refused {
                refusal: _,
                connection: _,
            },
        ) => None,
    }
}

/// Returns a file with these bytes that does not stop.
pub(crate) fn file_of(alloc: Global, bytes: &[u8]) -> Option<Memory> {
    let mut file = Memory::new(alloc);
    file.write_at(0, bytes).ok()?;
    Some(file)
}

/// Returns the number of calls of the ledger in these files, with only their synced bytes, or
/// `None` if they have no ledger.
fn calls_after_crash(alloc: Global, mut files: Files<Fuse<Memory>>) -> Option<u32> {
    files.log.crash();
    files.db.crash();
    let files = Files {
        log: file_of(alloc, files.log.inner().bytes())?,
        db: file_of(alloc, files.db.inner().bytes())?,
    };
    if !files.may_be_used() {
        return None;
    }
    let conn = Connection::open_files(alloc, files, Options::new(7)).ok()?;
    calls_in(alloc, conn)
}

/// Serves over a log that stops at one call. Returns how that ended and the number of calls found
/// afterwards, or `None` if nothing was served.
fn served_until(alloc: Global, settings: Settings, at: u64) -> Option<(Served, Option<u32>)> {
    let log = Fuse::new(Memory::new(alloc), at);
    let db = Fuse::new(Memory::new(alloc), NEVER);
    let files = Files { log, db };
    if !files.may_be_used() {
        return None;
    }
    let conn = Connection::open_files(alloc, files, Options::new(7)).ok()?;
    let (served, files) = served_over(alloc, conn, settings);
    Some((served?, calls_after_crash(alloc, files)))
}

/// Returns whether the file has the call of each reply that was sent, and only kept calls.
fn stands(served: Served, found: Option<u32>) -> bool {
    match found {
        Some(found) => {
            served.sent <= found
                && found <= served.kept
                && (found == served.kept || !served.is_committed)
        }
        None => served.sent == 0 && !served.is_committed,
    }
}

/// Returns at how many calls of the log a stop leaves calls that the closing cannot commit, or
/// `None` if a reply was sent to a call that is not found.
fn uncommitted_closings(alloc: Global, settings: Settings) -> Option<u32> {
    let mut count: u32 = 0;
    for at in 0..1000u64 {
        if let Some((served, found)) = served_until(alloc, settings, at) {
            if !stands(served, found) {
                return None;
            }
            if served.is_committed && served.sent == 4 {
                return Some(count);
            }
            if !served.is_committed {
                count = count.saturating_add(1);
            }
        }
    }
    None
}

#[test]
fn each_reply_stands_though_the_disk_is_full(rt: HostRuntime) {
    let count = uncommitted_closings(rt.alloc(), settings(&rt, 100));
    assert!(rt; same(&rt, &count, &(0 < count.unwrap_or(0)), &true));
}
