//! Shows a datagram as a line.
ghost use Rattle.std.specs.Prelude.{◌≡◌, IfOk};
ghost use Rattle.s10_jobs.specs.Shown.{is_marked_reply, IsRequestShown, IsReplyShown, IsShown};
ghost use Rattle.s10_jobs.specs.Shown.{IsShownByDigits, Prints};

use crate::delivery_line::read_bytes;
use crate::job_status::JobStatus;
use crate::refusals::{refuse, refuse_datagram};
use s10_lines::{WriteFault, write_reply_line, write_request_line};
use s10_wire::{decode_reply, decode_request};
use std::io::Write;

/// Writes the line of the datagram with these hexadecimal digits, or `refused` and the first fault.
///
/// The line is `refused hex` if the text is not an even number of hexadecimal digits, 0 to 1024.
/// The status is `Done` or `Refused`.
///
/// # Errors
///
/// `WriteFault` if the writer fails; part of the line may be written.
pub fn show<W: Write>(text: &[u8], out: &mut W) -> Result<JobStatus, WriteFault>
    ensures { IfOk result (λ status. Prints (W.contents out.old) (W.contents out.new)
        (IsShownByDigits text.now status)) }
{
    match read_bytes(text) {
        Some(packet) => show_datagram(packet.bytes(), out),
        None => refuse(b"hex", out),
    }
}

fn show_datagram<W: Write>(bytes: &[u8], out: &mut W) -> Result<JobStatus, WriteFault>
    ensures { IfOk result (λ status. Prints (W.contents out.old) (W.contents out.new)
        (IsShown bytes.now status)) }
{
    if is_reply(bytes) {
        show_reply(bytes, out)
    } else {
        show_request(bytes, out)
    }
}

fn is_reply(bytes: &[u8]) -> bool
    ensures { result ≡ is_marked_reply bytes.now }
{
    bytes.len() >= 4 && bytes[3] >= 0x80
}

fn show_request<W: Write>(bytes: &[u8], out: &mut W) -> Result<JobStatus, WriteFault>
    ensures { IfOk result (λ status. Prints (W.contents out.old) (W.contents out.new)
        (IsRequestShown bytes.now status)) }
{
    match decode_request(bytes) {
        Ok(request) => {
            write_request_line(&request, out)?;
            Ok(JobStatus::Done)
        }
        Err(fault) => refuse_datagram(fault, out),
    }
}

fn show_reply<W: Write>(bytes: &[u8], out: &mut W) -> Result<JobStatus, WriteFault>
    ensures { IfOk result (λ status. Prints (W.contents out.old) (W.contents out.new)
        (IsReplyShown bytes.now status)) }
{
    match decode_reply(bytes) {
        Ok(reply) => {
            write_reply_line(&reply, out)?;
            Ok(JobStatus::Done)
        }
        Err(fault) => refuse_datagram(fault, out),
    }
}
