//! Binds a socket and makes it a link.

ghost use Rattle.std.specs.Prelude.{◌≡◌, IfOk, IfErr};
ghost use Rattle.s10_link.specs.UdpLink.{IsBoundAt};
ghost use Rattle.s10_link.specs.Link.{new_trace};
ghost use Rattle.s10_jobs.specs.Questioning.{any_address};

use s10_link::{LinkFault, Peer, UdpLink};
use std::net::{Ipv4Addr, Net, SocketAddr, SocketAddrV4, UdpSocket};

/// The maximum wait of a receive in milliseconds, at a server and at a client.
const WAIT: u32 = 1_000;

/// Any address of this machine, with a port that the system picks.
const ANY_ADDRESS: Peer = Peer {
    ip: [0, 0, 0, 0],
    port: 0,
};

/// Binds a link to an address. If that fails, standard error has the reason.
///
/// # Errors
///
/// `Bind` if the address cannot be bound.
pub fn bind_link<R: Net + Eprint>(rt: &R, at: Peer) -> Result<UdpLink, LinkFault>
    ensures ok { IfOk result (λ link. link.trace ≡ new_trace) }
    ensures at { IfOk result (λ link. IsBoundAt at link.at) }
    ensures refused { IfErr result (λ fault. fault ≡ LinkFault.Bind) }
{
    match UdpLink::bind(rt, at, WAIT) {
        Ok(link) => Ok(link),
        Err(fault) => {
            eprint_cause(rt, at);
            Err(fault)
        }
    }
}

/// Binds a client's link to any address of this machine, with a port that the system picks.
///
/// # Errors
///
/// `Bind` if no socket can be bound. Standard error has the reason.
pub fn bind_client<R: Net + Eprint>(rt: &R) -> Result<UdpLink, LinkFault>
    ensures ok { IfOk result (λ link. link.trace ≡ new_trace) }
    ensures at { IfOk result (λ link. IsBoundAt any_address link.at) }
    ensures refused { IfErr result (λ fault. fault ≡ LinkFault.Bind) }
{
    bind_link(rt, ANY_ADDRESS)
}

// Binds again, because only the error of the system has the reason in words.
fn eprint_cause<R: Net + Eprint>(rt: &R, at: Peer) {
    let [a, b, c, d] = at.ip;
    let address = SocketAddrV4::new(Ipv4Addr::new(a, b, c, d), at.port);
    if let Err(cause) = UdpSocket::bind(rt, SocketAddr::V4(address)) {
        let _ = eprintln!(rt; "cannot bind {at}: {cause}");
    }
}
