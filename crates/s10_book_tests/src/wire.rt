//! Tests of identifiers, datagrams, lines and links.

mod datagrams;
mod frames;
mod identifiers;
mod lines;
mod messages;
mod notes;
mod packets;
mod peers;
mod refusals;
mod scripts;
mod sheets;
mod vectors;
