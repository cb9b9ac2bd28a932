//! Writes the output line of a server's turn.

ghost use Rattle.std.specs.Prelude.{◌++◌, OnOk, codes};
ghost use Rattle.std.specs.Io.KnownBytes.{Appends};
ghost use Rattle.s10_lines.specs.Lines.{line_of};
ghost use Rattle.s10_jobs.specs.Words.{book_fault_words, wire_fault_words};
ghost use Rattle.s10_jobs.specs.TurnLines.{replied_line, sender_words, turn_line};

use crate::answer_line::write_digits;
use crate::link_fault::write_link_fault;
use crate::sender_words::write_sender;
use crate::words::{write_book_fault, write_wire_fault};
use s10_book::BookFault;
use s10_ends::{ServerTurn, Turn};
use s10_lines::{WriteFault, write_text};
use s10_link::Peer;
use s10_wire::{Frame, WireFault};
use std::io::Write;

/// Writes the line of a turn. If `senders` is true, ` from` and the sender of its datagram are at the
/// end.
///
/// The line is `quiet`; `dropped`, `faulted`, `uncommitted` or `link` with the fault; or `replied`
/// with the reply in lower-case hex. `quiet` and `link` have no sender.
///
/// # Errors
///
/// `WriteFault` if the writer fails; part of the line may be written.
pub fn write_turn<W: Write>(turn: &Turn, senders: bool, out: &mut W) -> Result<(), WriteFault>
    ensures { OnOk result (Appends (W.contents out.old) (W.contents out.new)
        (turn_line senders turn.now)) }
{
    match turn {
        Ok(ServerTurn::Quiet) => write_text(b"quiet\n", out),
        Ok(ServerTurn::Dropped(from, fault)) => write_dropped(*fault, *from, senders, out),
        Ok(ServerTurn::Faulted(from, fault)) => write_faulted(*fault, *from, senders, out),
        Ok(ServerTurn::Uncommitted(to, fault)) => write_uncommitted(*fault, *to, senders, out),
        Ok(ServerTurn::Replied(to, frame)) => write_replied(frame, *to, senders, out),
        Err(fault) => write_link_fault(*fault, out),
    }
}

fn write_dropped<W: Write>(
    fault: WireFault,
    from: Peer,
    senders: bool,
    out: &mut W,
) -> Result<(), WriteFault>
    ensures { OnOk result (Appends (W.contents out.old) (W.contents out.new)
        (line_of (codes "dropped") (wire_fault_words fault ++ sender_words senders from))) }
{
    write_text(b"dropped", out)?;
    write_wire_fault(fault, out)?;
    write_sender(from, senders, out)?;
    write_text(b"\n", out)
}

fn write_faulted<W: Write>(
    fault: BookFault,
    from: Peer,
    senders: bool,
    out: &mut W,
) -> Result<(), WriteFault>
    ensures { OnOk result (Appends (W.contents out.old) (W.contents out.new)
        (line_of (codes "faulted") (book_fault_words fault ++ sender_words senders from))) }
{
    write_text(b"faulted", out)?;
    write_book_fault(fault, out)?;
    write_sender(from, senders, out)?;
    write_text(b"\n", out)
}

fn write_uncommitted<W: Write>(
    fault: BookFault,
    to: Peer,
    senders: bool,
    out: &mut W,
) -> Result<(), WriteFault>
    ensures { OnOk result (Appends (W.contents out.old) (W.contents out.new)
        (line_of (codes "uncommitted") (book_fault_words fault ++ sender_words senders to))) }
{
    write_text(b"uncommitted", out)?;
    write_book_fault(fault, out)?;
    write_sender(to, senders, out)?;
    write_text(b"\n", out)
}

fn write_replied<W: Write>(
    frame: &Frame,
    to: Peer,
    senders: bool,
    out: &mut W,
) -> Result<(), WriteFault>
    ensures { OnOk result (Appends (W.contents out.old) (W.contents out.new)
        (replied_line senders to frame.now)) }
{
    write_text(b"replied ", out)?;
    write_digits(frame, out)?;
    write_sender(to, senders, out)?;
    write_text(b"\n", out)
}
