//! A disk with space for some bytes.

ghost use Rattle.std.specs.Prelude.{◌+◌};

use sqlite_disk::{Disk, Tally};
use std::io;

/// A disk that fails each write beyond its first `room` bytes. Its other calls are those of the
/// inner disk.
#[derive(Drop)]
pub(crate) struct NarrowDisk<D: Disk> {
    inner: D,
    room: usize,
    // The end of the furthest write, in bytes.
    reach: usize,
    refused: u64,
}

impl<D: Disk> NarrowDisk<D> {
    /// Returns a disk with space for `room` bytes over this one.
    pub(crate) fn new(inner: D, room: usize) -> NarrowDisk<D> {
        NarrowDisk {
            inner,
            room,
            reach: 0,
            refused: 0,
        }
    }

    /// Returns the end of the furthest write, in bytes.
    pub(crate) fn reach(&self) -> usize {
        self.reach
    }

    /// Returns the inner disk.
    pub(crate) fn inner(&self) -> &D {
        &self.inner
    }
}

impl<D: Disk> Disk for NarrowDisk<D> {
    ghost seen = { λ n. D.Disk.seen n.inner };

    ghost may_leave = { λ n. D.Disk.may_leave n.inner };

    ghost is_usable = { λ n. D.Disk.is_usable n.inner };

    ghost faults = { λ n. D.Disk.faults n.inner + n.refused };

    ghost tally_of = { λ n. D.Disk.tally_of n.inner };

    ghost key_of = { λ n. D.Disk.key_of n.inner };

    ghost is_clean = { λ n. D.Disk.is_clean n.inner };

    ghost is_fair = { λ n. D.Disk.is_fair n.inner };

    ghost fair_if_clean = { λ n. D.Disk.fair_if_clean n.inner };

    ghost seen_may_stay = { λ n. D.Disk.seen_may_stay n.inner };

    ghost is_mixing = { λ n. D.Disk.is_mixing n.inner };

    fn mixes(&self) -> bool {
        self.inner.mixes()
    }

    fn key(&self) -> u64 {
        self.inner.key()
    }

    fn tally(&self) -> Tally {
        self.inner.tally()
    }

    fn may_be_used(&self) -> bool {
        self.inner.may_be_used()
    }

    fn len(&mut self) -> io::Result<usize> {
        self.inner.len()
    }

    fn read_at(&mut self, at: usize, buf: &mut [u8]) -> io::Result<()> {
        self.inner.read_at(at, buf)
    }

    fn read_checked(&mut self, key: u64, want: u64, at: usize, buf: &mut [u8]) -> io::Result<()> {
        self.inner.read_checked(key, want, at, buf)
    }

    fn write_at(&mut self, at: usize, bytes: &[u8]) -> io::Result<()> {
        let end = at.saturating_add(bytes.len());
        if self.room < end {
            self.refused = self.refused.saturating_add(1);
            return Err(io::Error::other("the disk is full"));
        }
        self.reach = self.reach.max(end);
        self.inner.write_at(at, bytes)
    }

    fn set_len(&mut self, len: usize) -> io::Result<()> {
        self.inner.set_len(len)
    }

    fn sync(&mut self) -> io::Result<()> {
        self.inner.sync()
    }
}
