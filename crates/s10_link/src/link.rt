//! The trait of links.

ghost use Rattle.std.specs.Prelude.{◌≡◌, ⊤, Err};
ghost use Rattle.s10_link.specs.declared.trace.Trace.{Trace};
ghost use Rattle.s10_link.specs.Link.{Receives, Sends};
ghost use Rattle.s10_link.specs.Counts.{counts_of};

use crate::counts::Counts;
use crate::link_fault::LinkFault;
use crate::packet::Packet;
use crate::peer::Peer;
use s10_wire::Frame;

/// An end of an unreliable network: it may lose, repeat or reorder datagrams.
pub trait Link {
    /// The trace of the link: its calls since it was created, in order, each with what it carried.
    ghost trace_of: { Self → Trace };

    /// How one call may change the link, besides its trace.
    ghost step: { Self → Self → Type 0 } = { λ _ _. ⊤ };

    /// No send is left to the link: its calls have reached the greatest u64, or its script has no
    /// send left.
    ghost spent: { Self → Type 0 };

    /// Waits for the next datagram and returns it with its sender, or `None` if nothing arrived.
    ///
    /// # Errors
    ///
    /// - `Receive` if receiving failed.
    /// - `Spent` if no call is left to the link; its trace is unchanged.
    fn receive(&mut self) -> Result<Option<(Peer, Packet)>, LinkFault>
        ensures trace { Receives (trace_of self.old) (trace_of self.new) result }
        ensures step { step self.old self.new };

    /// Returns the next datagram with its sender if it has already arrived, without waiting.
    ///
    /// # Errors
    ///
    /// The errors of `receive`.
    fn try_receive(&mut self) -> Result<Option<(Peer, Packet)>, LinkFault>
        ensures trace { Receives (trace_of self.old) (trace_of self.new) result }
        ensures step { step self.old self.new };

    /// Sends a frame to a peer.
    ///
    /// # Errors
    ///
    /// - `Send` if sending failed; whether the frame was sent is unknown.
    /// - `Spent` if no send is left to the link; its trace is unchanged.
    fn send(&mut self, to: Peer, frame: &Frame) -> Result<(), LinkFault>
        ensures trace { Sends (trace_of self.old) (trace_of self.new) (to, frame.now) result }
        ensures spent { result ≡ Err LinkFault.Spent → spent self.old }
        ensures step { step self.old self.new };

    /// Returns how many calls the link had since it was created.
    fn counts(&self) -> Counts
        ensures { result ≡ counts_of (trace_of self.now) };
}
