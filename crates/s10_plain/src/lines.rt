//! Datagrams as lines of text.
ghost use Rattle.std.specs.Prelude.{◌≡◌, ◌≤◌, ℕ, List, length};
ghost use Rattle.s10_wire.specs.Padding.{zero_padded};
ghost use Rattle.s10_lines.specs.LineText.{Holds};
ghost use Rattle.s10_plain.specs.Lines.{line_of, no_room_code, WritesLine, ReportsRequest};
ghost use Rattle.s10_plain.specs.Lines.{ReportsReply};
ghost use Rattle.s10_plain.specs.Lines.{WritesRequestLine, WritesReplyLine};

use crate::result_code::{ResultCode, success, wire_fault_code};
use s10_lines::{LineText, text_of_reply, text_of_request};
use s10_wire::{Reply, Request, WireFault, decode_reply, decode_request};

/// A line of text with its line feed.
#[repr(C)]
#[derive(Clone, Copy, Debug, PartialEq, Eq)]
pub struct Line {
    /// The number of characters, with the line feed.
    pub len: usize,
    /// The characters, padded with zeros.
    pub text: [u8; 512],
}

fn padded(text: &[u8]) -> [u8; 512]
    requires { length text.now ≤ 512 }
    ensures { result ≡ zero_padded 512 text.now }
{
    let mut bytes = [0u8; 512];
    bytes[..text.len()].copy_from_slice(text);
    bytes
}

fn filled_line(text: &[u8]) -> Line
    requires { length text.now ≤ 512 }
    ensures { result ≡ line_of text.now }
{
    Line {
        len: text.len(),
        text: padded(text),
    }
}

fn no_room() -> ResultCode
    ensures { result ≡ no_room_code }
{
    ResultCode { code: 41, at: 0 }
}

fn report_line(line: &LineText, out: &mut Line) -> ResultCode
    ensures { (text : List ℕ) → Holds line.now text → WritesLine text result out.old out.new }
{
    match line.as_slice() {
        Some(text) => {
            *out = filled_line(text);
            success()
        }
        None => no_room(),
    }
}

fn report_request(read: Result<Request, WireFault>, out: &mut Line) -> ResultCode
    ensures { ReportsRequest read result out.old out.new }
{
    match read {
        Ok(request) => report_line(&text_of_request(&request), out),
        Err(fault) => wire_fault_code(fault),
    }
}

fn report_reply(read: Result<Reply, WireFault>, out: &mut Line) -> ResultCode
    ensures { ReportsReply read result out.old out.new }
{
    match read {
        Ok(reply) => report_line(&text_of_reply(&reply), out),
        Err(fault) => wire_fault_code(fault),
    }
}

/// Writes the line of the datagram of a request. If refused, `out` is unchanged.
///
/// # Errors
/// As `decode`.
/// 41: the line is longer than 512 characters.
pub fn request_line_of(bytes: &[u8], out: &mut Line) -> ResultCode
    ensures { WritesRequestLine bytes.now result out.old out.new }
{
    report_request(decode_request(bytes), out)
}

/// Writes the line of the datagram of a reply. If refused, `out` is unchanged.
///
/// # Errors
/// As `accept`, except 21 and 22.
/// 41: the line is longer than 512 characters.
pub fn reply_line_of(bytes: &[u8], out: &mut Line) -> ResultCode
    ensures { WritesReplyLine bytes.now result out.old out.new }
{
    report_reply(decode_reply(bytes), out)
}
