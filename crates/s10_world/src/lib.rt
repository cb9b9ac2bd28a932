//! Defines a server, its clients and the network between them, with every loss, repeat and order.
#![tactic(auto)]

mod event;
mod laws;
mod network;
mod world;

pub use event::Event;
pub use laws::reachable_worlds;
pub use network::WorldFault;
pub use world::World;
