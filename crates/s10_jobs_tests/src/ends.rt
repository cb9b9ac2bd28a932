//! Tests of the server, the client and the links between them, and of both ends in one world.

mod batches;
mod calls;
mod clients;
mod days;
mod failures;
mod fixtures;
mod memory;
mod near_links;
mod odd_datagrams;
mod odd_worlds;
mod ranges;
mod refusals;
mod refused_worlds;
mod repeats;
mod scripts;
mod story;
mod turn_ends;
mod turns;
mod udp_addresses;
mod udp_links;
mod waiting;
mod withdrawals;
mod worlds;
