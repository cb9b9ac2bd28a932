//! Writes who sent a datagram.

ghost use Rattle.std.specs.Prelude.{[], ◌∷◌, OnOk};
ghost use Rattle.std.specs.Io.KnownBytes.{Appends};
ghost use Rattle.s10_link.specs.Peer.{peer_text};
ghost use Rattle.s10_lines.specs.Lines.{spaced};
ghost use Rattle.s10_jobs.specs.TurnLines.{sender_words};

use s10_lines::{WriteFault, write_text, write_word};
use s10_link::Peer;
use std::io::Write;

/// Writes ` from` and the address of a sender, if senders are named, and otherwise nothing.
///
/// # Errors
///
/// `WriteFault` if the writer fails; part of the words may be written.
pub(crate) fn write_sender<W: Write>(
    peer: Peer,
    senders: bool,
    out: &mut W,
) -> Result<(), WriteFault>
    ensures { OnOk result (Appends (W.contents out.old) (W.contents out.new)
        (spaced (sender_words senders peer))) }
{
    if senders {
        write_word(b"from", out)?;
        return write_peer(peer, out);
    }
    Ok(())
}

// Writes a space and an address.
fn write_peer<W: Write>(peer: Peer, out: &mut W) -> Result<(), WriteFault>
    ensures { OnOk result (Appends (W.contents out.old) (W.contents out.new)
        (spaced (peer_text peer ∷ []))) }
{
    write_text(b" ", out)?;
    let Ok(()) = write!(out, "{peer}") else {
        return Err(WriteFault);
    };
    Ok(())
}
