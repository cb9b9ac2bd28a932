//! Makes an identifier from its parts.
ghost use Rattle.std.specs.Prelude.{IfOk};
ghost use Rattle.s10_jobs.specs.Lines.{IsMade};
ghost use Rattle.s10_jobs.specs.Shown.{Prints};

use crate::job_status::JobStatus;
use crate::parts::{read_country, read_service};
use crate::refusals::refuse;
use s10_core::{Id, Serial};
use s10_lines::{WriteFault, write_text};
use std::io::Write;

/// Writes the identifier of these parts, or `refused` and the first part that is invalid.
///
/// The service and the country are two capital letters, and the serial is eight digits. The status
/// is `Done` or `Refused`.
///
/// # Errors
///
/// `WriteFault` if the writer fails; part of the line may be written.
pub fn make<W: Write>(
    service: &[u8],
    serial: &[u8],
    country: &[u8],
    out: &mut W,
) -> Result<JobStatus, WriteFault>
    ensures { IfOk result (λ status. Prints (W.contents out.old) (W.contents out.new)
        (IsMade service.now serial.now country.now status)) }
{
    let Some(service) = read_service(service) else {
        return refuse(b"service", out);
    };
    let Some(serial) = Serial::read(serial) else {
        return refuse(b"serial", out);
    };
    let Some(country) = read_country(country) else {
        return refuse(b"country", out);
    };
    let id = Id {
        service,
        serial,
        country,
    };
    write_text(&id.write(), out)?;
    write_text(b"\n", out)?;
    Ok(JobStatus::Done)
}
