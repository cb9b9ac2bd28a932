//! A reader that explains on standard error why a read failed.

use std::io;
use std::io::{ErrorKind, Read};

/// An input, whose failures are printed to standard error in the words of the system.
#[derive(Drop)]
pub(crate) struct Input<'a, R, I: Drop> {
    rt: &'a R,
    reader: I,
}

impl<'a, R: Eprint, I: Read + Drop> Input<'a, R, I> {
    ghost use Rattle.std.specs.Prelude.{◌≡◌};

    pub(crate) fn new(rt: &'a R, reader: I) -> Input<'a, R, I>
        ensures { result.reader ≡ reader }
    {
        Input { rt, reader }
    }
}

impl<R: Eprint, I: Read + Drop> Read for Input<'_, R, I> {
    ghost remaining = { λ input. I.remaining input.reader };

    fn read(&mut self, buf: &mut [u8]) -> io::Result<usize> {
        let read = self.reader.read(buf);
        if let Err(cause) = &read
            && cause.kind() != ErrorKind::Interrupted
        {
            let _ = eprintln!(self.rt; "cannot read the input: {cause}");
        }
        read
    }
}
