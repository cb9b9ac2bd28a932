//! A writer that fails once.

use std::alloc::Global;
use std::io;
use std::io::Write;

/// A writer that accepts n bytes, fails once, and accepts everything after that.
#[derive(Drop)]
pub struct Hiccup {
    /// The accepted bytes.
    pub bytes: Vec<u8>,
    /// The number of bytes that it accepts before it fails.
    room: usize,
    failed: bool,
}

impl Write for Hiccup {
    fn write(&mut self, text: &[u8]) -> io::Result<usize> {
        if self.failed {
            return self.bytes.write(text);
        }
        let taken = self.room.min(text.len());
        if taken == 0 && !text.is_empty() {
            self.failed = true;
            return Err(io::Error::from(io::ErrorKind::Other));
        }
        self.room -= taken;
        self.bytes.write(&text[..taken])
    }

    fn flush(&mut self) -> io::Result<()> {
        Ok(())
    }
}

impl Hiccup {
    /// Returns a writer that accepts `room` bytes before it fails.
    pub fn new(alloc: Global, room: usize) -> Hiccup {
        Hiccup {
            bytes: Vec::new(alloc),
            room,
            failed: false,
        }
    }
}
