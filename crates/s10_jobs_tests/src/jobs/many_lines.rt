//! Inputs with the greatest number of lines that they may have, and with one more.

use s10_book::PlainBook;
use s10_ends::Server;
use s10_history::Settings;
use s10_jobs::{InputFault, JobStatus, LineJob, print_each, replay_on};
use s10_test_help::expect::holds;
use std::alloc::Global;
use std::io;
use std::io::{Read, Write};

/// A day and no bytes, the line after the empty lines.
const LAST: &[u8] = b"1 \n";

/// A reader that gives empty lines, and then these bytes.
#[derive(Drop)]
struct Lines<'a> {
    /// The number of empty lines left.
    empty: u32,
    last: &'a [u8],
}

impl Read for Lines<'_> {
    fn read(&mut self, buf: &mut [u8]) -> io::Result<usize> {
        if self.empty == 0 || buf.is_empty() {
            return self.last.read(buf);
        }
        self.empty -= 1;
        buf[0] = b'\n';
        Ok(1)
    }
}

/// A writer that counts lines.
#[derive(Drop)]
struct Counting {
    lines: u32,
}

impl Write for Counting {
    fn write(&mut self, buf: &[u8]) -> io::Result<usize> {
        if buf.ends_with(b"\n") {
            self.lines = self.lines.saturating_add(1);
        }
        Ok(buf.len())
    }

    fn flush(&mut self) -> io::Result<()> {
        Ok(())
    }
}

/// Returns whether a replay of `empty` empty lines and the last one has this answer, writes
/// `written` lines and leaves `left` bytes unread.
fn is_replayed(
    alloc: Global,
    empty: u32,
    want: Result<u32, InputFault>,
    written: u32,
    left: usize,
) -> bool {
    let settings = Settings::new(30, 100).unwrap();
    let mut server = Server::new(PlainBook::new(alloc, settings));
    let mut input = Lines { empty, last: LAST };
    let mut output = Counting { lines: 0 };
    let answer = replay_on(&mut server, &mut input, &mut output);
    answer == want && output.lines == written && input.last.len() == left
}

/// Number of empty lines, the answer, the number of lines written, and the number of bytes left.
const LONG_INPUTS: &[(u32, Result<u32, InputFault>, u32, usize)] = &[
    (999_999, Ok(1), 1, 0),
    (1_000_000, Err(InputFault::Line(1_000_001)), 0, 2),
];

#[test]
fn the_line_past_the_millionth_is_refused(rt: HostRuntime) {
    for (empty, want, written, left) in LONG_INPUTS {
        let is_replayed = is_replayed(rt.alloc(), *empty, *want, *written, *left);
        assert!(rt; holds(&rt, empty, is_replayed));
    }
}

/// Returns whether `show` over `empty` empty lines and the last one has this answer, writes
/// `written` lines and leaves `left` bytes unread.
fn is_shown(empty: u32, want: Result<JobStatus, InputFault>, written: u32, left: usize) -> bool {
    let mut input = Lines { empty, last: LAST };
    let mut output = Counting { lines: 0 };
    let end = print_each(LineJob::Show, &mut input, &mut output);
    end == want && output.lines == written && input.last.len() == left
}

/// The same for a job that prints a line for each line.
const LONG_LISTS: &[(u32, Result<JobStatus, InputFault>, u32, usize)] = &[
    (999_999, Ok(JobStatus::Refused), 1_000_000, 0),
    (1_000_000, Err(InputFault::Line(1_000_001)), 1_000_000, 2),
];

#[test]
fn line_past_the_millionth_has_no_line(rt: HostRuntime) {
    for (empty, want, written, left) in LONG_LISTS {
        assert!(rt; holds(&rt, empty, is_shown(*empty, *want, *written, *left)));
    }
}
