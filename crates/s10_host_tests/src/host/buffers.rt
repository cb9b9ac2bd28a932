//! The buffered output of a command line.

use crate::host::command_lines::status_of;
use s10_cli::run_buffered;
use s10_test_help::refusing::Refusing;
use s10_test_help::words::Words;
use std::io;
use std::io::Write;

const CHECK: &str = "s10 check RA473124829US";

/// The line that it prints.
const REGISTERED: &str = "RA473124829US valid registered\n";

const NOTHING: &[u8] = b"";

/// Returns the status of a check and the output after it, or `None` if the output fails.
fn checked<R: Eprint + AllocGlobal, W: Write + Drop>(rt: &R, output: W) -> Option<(Option<u8>, W)> {
    let words = Words::of(CHECK);
    match run_buffered(rt, words.as_slice(), NOTHING, output) {
        Ok((ended, left)) => Some((status_of(&ended), left)),
        Err(_) => None,
    }
}

/// Returns whether a check is done and its line is in the output.
fn is_written_out<R: Eprint + AllocGlobal>(rt: &R) -> bool {
    match checked(rt, Vec::new(rt.alloc())) {
        Some((status, output)) => {
            status == Some(0) && output.as_slice() == REGISTERED.as_bytes()
        }
        None => false,
    }
}

#[test]
fn the_buffer_is_written_out(rt: HostRuntime) {
    assert!(rt; is_written_out(&rt));
}

#[test]
fn a_buffer_that_cannot_be_written_out_is_an_error(rt: HostRuntime) {
    assert!(rt; checked(&rt, Refusing).is_none());
}

/// A writer that accepts every byte, and cannot be flushed.
#[derive(Drop)]
struct Stuck;

impl Write for Stuck {
    fn write(&mut self, buf: &[u8]) -> io::Result<usize> {
        Ok(buf.len())
    }

    fn flush(&mut self) -> io::Result<()> {
        Err(io::Error::from(io::ErrorKind::Other))
    }
}

#[test]
fn an_output_that_cannot_be_flushed_is_an_error(rt: HostRuntime) {
    assert!(rt; checked(&rt, Stuck).is_none());
}
