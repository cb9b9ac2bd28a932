//! Names the senders of dropped datagrams on standard error, in at most one line a minute.

use s10_ends::{ServerTurn, Turn};
use s10_link::Peer;
use std::time::{Clock, Duration, Instant};

/// The least number of seconds between two lines.
const SECONDS_BETWEEN_LINES: u64 = 60;

/// A log of dropped datagrams on standard error. A stranger can send any number of them, so their
/// lines must not fill a disk.
///
/// The turns continue if standard error is closed. If the clock fails, only the first line and the
/// last are printed.
#[derive(Drop)]
pub(crate) struct DropLog<'a, R> {
    rt: &'a R,
    // The number of datagrams dropped since the last line, and the sender of the last of them.
    dropped: Option<(u32, Peer)>,
    is_first: bool,
    // When the last line was printed.
    spoke: Option<Instant>,
}

impl<'a, R: Clock + Eprint> DropLog<'a, R> {
    pub(crate) fn new(rt: &'a R) -> DropLog<'a, R> {
        DropLog {
            rt,
            dropped: None,
            is_first: true,
            spoke: None,
        }
    }

    // Counts the datagram if this turn dropped one.
    pub(crate) fn count(&mut self, turn: &Turn) {
        if let Ok(ServerTurn::Dropped(from, _)) = turn {
            let before = match self.dropped {
                Some((count, _)) => count,
                None => 0,
            };
            self.dropped = Some((before.saturating_add(1), *from));
        }
    }

    // Prints a line if datagrams were dropped and the last line is a minute old.
    pub(crate) fn eprint_if_due(&mut self) {
        if self.dropped.is_some() && self.is_due() {
            self.eprint_rest();
        }
    }

    // Prints a line if datagrams were dropped since the last one.
    pub(crate) fn eprint_rest(&mut self) {
        let Some((count, from)) = self.dropped else {
            return;
        };
        let _ = if count == 1 {
            eprintln!(self.rt; "dropped from {from}")
        } else {
            eprintln!(self.rt; "dropped {count} datagrams, the last from {from}")
        };
        self.dropped = None;
        self.is_first = false;
        self.spoke = Instant::now(self.rt).ok();
    }

    fn is_due(&self) -> bool {
        let Some(spoke) = self.spoke else {
            return self.is_first;
        };
        match spoke.elapsed(self.rt) {
            Ok(silent) => silent >= Duration::from_secs(SECONDS_BETWEEN_LINES),
            Err(_) => false,
        }
    }
}
