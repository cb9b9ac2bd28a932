//! The log beside a database file, as it was before the file was opened.

use sqlite_wal::checksum_of;
use std::fs::OpenOptions;
use std::io::ErrorKind;
use std::os::unix::fs::FileExt;
use std::{fs, io};

/// The length in bytes of a log that holds no commits: its header and its mark.
const EMPTY_LOG: usize = 41;

/// The length in bytes of a header and that of a frame: a shorter log has no frame.
const SHORTEST_WITH_FRAME: usize = 56;

/// The bytes of a header before its checksum.
const SUMMED: usize = 24;

/// The first bytes of a header, whose numbers are in big-endian or little-endian order for checksums.
const BIG_ENDIAN: [u8; 4] = [0x37, 0x7f, 0x06, 0x83];

const LITTLE_ENDIAN: [u8; 4] = [0x37, 0x7f, 0x06, 0x82];

/// The position of the salt in a header.
const SALT: usize = 16;

/// How many bytes an opening may write after the last commit, to mark it as the last one.
const MARK: usize = 9;

/// What was beside a database file before an opening.
#[derive(Drop)]
pub(crate) struct LogBefore {
    path: String,
    // `None` if there was no log.
    bytes: Option<Vec<u8>>,
}

impl LogBefore {
    /// Reads what is at the path of a log. Anything but a regular file is not read.
    pub(crate) fn find(rt: &HostRuntime, path: String) -> io::Result<LogBefore> {
        let bytes = match fs::symlink_metadata(rt, path.as_str()) {
            Ok(found) if found.is_file() => Some(fs::read(rt, path.as_str())?),
            Ok(_) => return Err(ErrorKind::Unsupported.into()),
            Err(error) if error.kind() == ErrorKind::NotFound => None,
            Err(error) => return Err(error),
        };
        Ok(LogBefore { path, bytes })
    }

    /// Returns whether there was a log that was not empty.
    pub(crate) fn has_bytes(&self) -> bool {
        match &self.bytes {
            Some(bytes) => !bytes.is_empty(),
            None => false,
        }
    }

    /// Returns whether the log may have held commits.
    pub(crate) fn may_hold_commits(&self) -> bool {
        match &self.bytes {
            Some(bytes) => may_hold_commits(bytes.as_slice()),
            None => false,
        }
    }

    /// Puts the log back after an opening that was refused, if it holds no other commits than
    /// before. The file must still be locked, so that no other program has the log open.
    ///
    /// A log that the opening created is removed: beside it, a user who may only read the file could
    /// not open it.
    pub(crate) fn put_back(&self, rt: &HostRuntime) {
        let path = self.path.as_str();
        let Ok(now) = fs::read(rt, path) else {
            return;
        };
        match &self.bytes {
            Some(before) => {
                let _ = put_back_bytes(rt, path, before.as_slice(), now.as_slice());
            }
            None => {
                if now.len() <= EMPTY_LOG {
                    let _ = fs::remove_file(rt, path);
                }
            }
        }
    }

    /// Empties the log, or removes it if there was none. Only for a log beside a file that was empty,
    /// and that has no ledger since.
    pub(crate) fn clear(&self, rt: &HostRuntime) {
        let path = self.path.as_str();
        let _ = match &self.bytes {
            Some(_) => fs::write(rt, path, b""),
            None => fs::remove_file(rt, path),
        };
    }
}

// Puts back the bytes that an opening writes: a log without commits is begun again, and after the
// last commit of another one a mark is written, over a byte or at the end.
fn put_back_bytes(rt: &HostRuntime, path: &str, before: &[u8], now: &[u8]) -> io::Result<()> {
    if now == before {
        return Ok(());
    }
    if now.len() <= EMPTY_LOG && !may_hold_commits(before) {
        return fs::write(rt, path, before);
    }
    let file = OpenOptions::new().write(true).open(rt, path)?;
    if now.len() > before.len() && now.len() - before.len() <= MARK && now.starts_with(before) {
        return file.set_len(before.len() as u64);
    }
    match mark_in(before, now) {
        Some((at, byte)) => file.write_all_at(&[byte], at as u64),
        None => Ok(()),
    }
}

// Returns the position of the only byte that differs, and what it was, if that is the first byte of
// the log's salt: a frame in which it is another one is not taken.
fn mark_in(before: &[u8], now: &[u8]) -> Option<(usize, u8)> {
    if before.len() != now.len() {
        return None;
    }
    let salt = before.get(SALT)?;
    let mut found = None;
    for at in 0..before.len() {
        let (Some(was), Some(is)) = (before.get(at), now.get(at)) else {
            return None;
        };
        if was != is {
            if found.is_some() || was != salt {
                return None;
            }
            found = Some((at, *was));
        }
    }
    found
}

// Returns whether the bytes are long enough for a commit and begin with the header of a log.
fn may_hold_commits(bytes: &[u8]) -> bool {
    if bytes.starts_with(&BIG_ENDIAN) {
        return is_summed(true, bytes);
    }
    bytes.starts_with(&LITTLE_ENDIAN) && is_summed(false, bytes)
}

// Returns whether the bytes are long enough for a commit, and their header has its checksum.
fn is_summed(is_big: bool, bytes: &[u8]) -> bool {
    if bytes.len() < SHORTEST_WITH_FRAME {
        return false;
    }
    let (first, second) = checksum_of(is_big, (0, 0), &bytes[..SUMMED]);
    bytes[SUMMED..].starts_with(&first.to_be_bytes())
        && bytes[SUMMED + 4..].starts_with(&second.to_be_bytes())
}
