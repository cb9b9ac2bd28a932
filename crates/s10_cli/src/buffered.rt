//! Flushes the output of a job.
ghost use Rattle.std.specs.Prelude.{IfOk};
ghost use Rattle.std.specs.Io.KnownBytes.{Keeps};
ghost use Rattle.std.specs.Io.Buffered.{writer_contents};

use std::io;
use std::io::{BufWriter, Write};

/// Writes the rest of the buffer, flushes the writer, and returns it.
///
/// # Errors
///
/// The error of the writer if a write or the flush fails.
pub fn flush_buffer<W: Write + Drop>(mut output: BufWriter<W>) -> io::Result<W>
    ensures { IfOk result (λ left. Keeps (writer_contents W.contents output) (W.contents left)) }
{
    output.flush()?;
    Ok(output.into_inner()?)
}
