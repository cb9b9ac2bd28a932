//! A writer that accepts nothing.

use std::io;
use std::io::Write;

/// A writer that refuses every byte.
#[derive(Drop)]
pub struct Refusing;

impl Write for Refusing {
    fn write(&mut self, _buf: &[u8]) -> io::Result<usize> {
        Err(io::Error::from(io::ErrorKind::Other))
    }

    fn flush(&mut self) -> io::Result<()> {
        Ok(())
    }
}
