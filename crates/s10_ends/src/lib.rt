//! Defines both ends, the server and the client, and the link between two ends in one process.
#![tactic(auto)]

mod answer;
mod batch;
mod batch_room;
mod calls;
mod client;
mod committing;
mod delivery;
mod exchange;
mod laws;
mod near_link;
mod received;
mod receiving;
mod replying;
mod server;
mod server_turn;
mod turn;

pub use answer::Answer;
pub use batch::serve_batch;
pub use batch_room::BatchRoom;
pub use calls::{CallFault, call};
pub use client::{BadNumbers, Client, SubmitFault};
pub use delivery::Delivery;
pub use exchange::Exchange;
pub use laws::{batches_compose, batches_survive_stops, traces_say_what_was_carried};
pub use near_link::NearLink;
pub use received::Received;
pub use server::Server;
pub use server_turn::{ServerTurn, Turn};
pub use turn::{serve_batch_of_one, serve_one};
