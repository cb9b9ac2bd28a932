//! Links, which carry datagrams: an end of an unreliable network, its peers, and its trace; the
//! link over a UDP socket.
#![tactic(auto)]

mod counts;
mod laws;
mod link;
mod link_call;
mod link_fault;
mod packet;
mod peer;
mod receipt;
mod script_link;
mod trace;
mod udp_link;

pub use counts::Counts;
pub use laws::datagrams_fit;
pub use link::Link;
pub use link_call::LinkCall;
pub use link_fault::LinkFault;
pub use packet::Packet;
pub use peer::Peer;
pub use receipt::Receipt;
pub use script_link::ScriptLink;
pub use trace::Trace;
pub use udp_link::UdpLink;
