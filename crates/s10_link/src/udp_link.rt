//! Links the two ends over a UDP socket.

ghost use Rattle.std.specs.Prelude.{◌≡◌, ◌↔◌, IsTrue};
ghost use Rattle.std.specs.Net.Addr.{ipv4_octets};
ghost use Rattle.std.specs.Net.Socket.{v4_ip, v4_port};
ghost use Rattle.s10_link.specs.UdpLink.{IsBoundAt};

use crate::counts::Counts;
use crate::link::Link;
use crate::link_call::LinkCall;
use crate::link_fault::LinkFault;
use crate::packet::Packet;
use crate::peer::Peer;
use crate::trace::Trace;
use s10_wire::Frame;
use std::io;
use std::io::ErrorKind;
use std::marker::Model;
use std::net::{Ipv4Addr, Net, SocketAddr, SocketAddrV4, UdpSocket};
use std::time::Duration;

/// A link over an IPv4 UDP socket.
///
/// A receive returns `None` if no datagram arrived in time, if the sender's address is not IPv4, or
/// if the receive was interrupted.
#[derive(Drop)]
pub struct UdpLink {
    socket: UdpSocket,
    at: Peer,
    trace: Trace,
    // Whether a receive from the socket waits for a datagram.
    waits: bool,
    // The system's error of the last call that failed.
    failure: Option<io::Error>,
}

impl Model for UdpLink {
    ghost use Rattle.s10_link.specs.UdpLink.{BoundLink};

    ghost Value = { BoundLink };

    ghost view = { λ link. record { at = link.at; trace = link.trace } };
}

impl UdpLink {
    ghost use Rattle.std.specs.Prelude.{◌≡◌, ◌-◌, ◌^◌, ◌<◌, length, IfOk, IfErr};
    ghost use Rattle.s10_link.specs.Link.{Receives, new_trace};
    ghost use Rattle.s10_link.specs.UdpLink.{IsBoundAt};

    /// Binds a socket to the address `at`; with port 0 the system picks a port.
    ///
    /// A receive waits at most `wait_ms` milliseconds, where 0 means 1.
    ///
    /// # Errors
    ///
    /// `Bind` if the address cannot be bound, if the system bound another one, or if the socket's
    /// wait or address cannot be set or read.
    pub fn bind<N: Net>(net: &N, at: Peer, wait_ms: u32) -> Result<UdpLink, LinkFault>
        ensures ok { IfOk result (λ link. link.trace ≡ new_trace) }
        ensures at { IfOk result (λ link. IsBoundAt at link.at) }
        ensures refused { IfErr result (λ fault. fault ≡ LinkFault.Bind) }
    {
        match bound_socket(net, at, wait_ms) {
            Ok((socket, SocketAddr::V4(bound))) if is_as_asked(at, peer_of(bound)) => Ok(UdpLink {
                socket,
                at: peer_of(bound),
                trace: Trace::new(),
                waits: true,
                failure: None,
            }),
            _ => Err(LinkFault::Bind),
        }
    }

    /// Returns the address to which the socket is bound, with the port that the system picked.
    pub fn local(&self) -> Peer
        ensures { result ≡ self.now.at }
    {
        self.at
    }

    /// Returns the system's error of the last call that failed, or `None` if no call has failed.
    pub fn last_failure(&self) -> Option<io::Error> {
        self.failure
    }

    // Returns the next datagram from an IPv4 sender if it has already arrived. Does not wait.
    fn waiting_datagram(&mut self) -> io::Result<Option<(Peer, Packet)>>
        ensures at { self.new.at ≡ self.old.at }
        ensures trace { self.new.trace ≡ self.old.trace }
    {
        self.set_waits(false)?;
        self.next_datagram()
    }

    // Returns the next datagram from an IPv4 sender if it arrives in time.
    fn awaited_datagram(&mut self) -> io::Result<Option<(Peer, Packet)>>
        ensures at { self.new.at ≡ self.old.at }
        ensures trace { self.new.trace ≡ self.old.trace }
    {
        self.set_waits(true)?;
        self.next_datagram()
    }

    // Sets whether a receive waits. Nothing is received if that fails, so no datagram is lost.
    fn set_waits(&mut self, waits: bool) -> io::Result<()>
        ensures at { self.new.at ≡ self.old.at }
        ensures trace { self.new.trace ≡ self.old.trace }
    {
        if self.waits != waits {
            self.socket.set_nonblocking(!waits)?;
            self.waits = waits;
        }
        Ok(())
    }

    // Adds a receive to the trace, by its result.
    fn trace_receive(
        &mut self,
        came: io::Result<Option<(Peer, Packet)>>,
    ) -> Result<Option<(Peer, Packet)>, LinkFault>
        requires room { length self.old.trace < 2 ^ 64 - 1 }
        ensures trace { Receives self.old.trace self.new.trace result }
        ensures at { self.new.at ≡ self.old.at }
    {
        match came {
            Ok(Some((from, packet))) => {
                self.trace.add(LinkCall::Received(from, packet));
                Ok(Some((from, packet)))
            }
            Ok(None) => {
                self.trace.add(LinkCall::Quiet);
                Ok(None)
            }
            Err(cause) => {
                self.failure = Some(cause);
                self.trace.add(LinkCall::FailedReceive);
                Err(LinkFault::Receive)
            }
        }
    }

    // Returns the next datagram from an IPv4 sender, as the socket receives it.
    fn next_datagram(&self) -> io::Result<Option<(Peer, Packet)>> {
        let mut room = [0u8; 512];
        match self.socket.recv_from(&mut room) {
            Ok((len, SocketAddr::V4(from))) => {
                Ok(Some((peer_of(from), Packet::new(&room[..len]))))
            }
            Ok((_, SocketAddr::V6(_))) => Ok(None),
            Err(error) => match error.kind() {
                ErrorKind::WouldBlock | ErrorKind::TimedOut | ErrorKind::Interrupted => Ok(None),
                _ => Err(error),
            },
        }
    }
}

impl Link for UdpLink {
    ghost use Rattle.std.specs.Prelude.{◌≡◌, ◌-◌, ◌^◌, length, Err};
    ghost use Rattle.s10_link.specs.Link.{Receives, Sends};

    ghost trace_of = { λ link. link.trace };

    ghost step = { λ old new. new.at ≡ old.at };

    ghost spent = { λ link. length link.trace ≡ 2 ^ 64 - 1 };

    fn receive(&mut self) -> Result<Option<(Peer, Packet)>, LinkFault>
        ensures trace { Receives self.old.trace self.new.trace result }
        ensures step { self.new.at ≡ self.old.at }
    {
        if self.trace.is_full() {
            return Err(LinkFault::Spent);
        }
        let came = self.awaited_datagram();
        self.trace_receive(came)
    }

    fn try_receive(&mut self) -> Result<Option<(Peer, Packet)>, LinkFault>
        ensures trace { Receives self.old.trace self.new.trace result }
        ensures step { self.new.at ≡ self.old.at }
    {
        if self.trace.is_full() {
            return Err(LinkFault::Spent);
        }
        let came = self.waiting_datagram();
        self.trace_receive(came)
    }

    fn send(&mut self, to: Peer, frame: &Frame) -> Result<(), LinkFault>
        ensures trace { Sends self.old.trace self.new.trace (to, frame.now) result }
        ensures spent { result ≡ Err LinkFault.Spent → length self.old.trace ≡ 2 ^ 64 - 1 }
        ensures step { self.new.at ≡ self.old.at }
    {
        if self.trace.is_full() {
            return Err(LinkFault::Spent);
        }
        let bytes = frame.bytes();
        match self.socket.send_to(bytes, SocketAddr::V4(address(to))) {
            Ok(len) if len == bytes.len() => {
                self.trace.add(LinkCall::Sent(to, *frame));
                Ok(())
            }
            sent => {
                self.failure = sent.err();
                self.trace.add(LinkCall::FailedSend(to, *frame));
                Err(LinkFault::Send)
            }
        }
    }

    fn counts(&self) -> Counts {
        self.trace.counts()
    }
}

// Binds a socket whose receives wait at most `wait_ms` milliseconds. Also returns its address.
fn bound_socket<N: Net>(net: &N, at: Peer, wait_ms: u32) -> io::Result<(UdpSocket, SocketAddr)> {
    let socket = UdpSocket::bind(net, SocketAddr::V4(address(at)))?;
    let wait = Duration::from_millis(u64::from(wait_ms.max(1)));
    socket.set_read_timeout(Some(wait))?;
    let at = socket.local_addr()?;
    Ok((socket, at))
}

// Returns whether a socket that was asked for at one address is bound there.
fn is_as_asked(asked: Peer, bound: Peer) -> bool
    ensures { IsTrue result ↔ IsBoundAt asked bound }
{
    bound.ip == asked.ip && (asked.port == 0 || bound.port == asked.port)
}

fn address(peer: Peer) -> SocketAddrV4
    ensures ip { ipv4_octets (v4_ip result) ≡ peer.ip }
    ensures port { v4_port result ≡ peer.port }
{
    let [a, b, c, d] = peer.ip;
    SocketAddrV4::new(Ipv4Addr::new(a, b, c, d), peer.port)
}

fn peer_of(at: SocketAddrV4) -> Peer
    ensures ip { result.ip ≡ ipv4_octets (v4_ip at) }
    ensures port { result.port ≡ v4_port at }
{
    Peer {
        ip: at.ip().octets(),
        port: at.port(),
    }
}
