//! Requests, replies and their datagrams (docs/DATAGRAMS.md).
#![tactic(auto)]

mod body;
mod count;
mod encoders;
mod equality;
mod fields;
mod frame;
mod ids;
mod kind;
mod laws;
mod outcome;
mod reply;
mod reply_decoder;
mod request;
mod request_decoder;
mod status;
mod wire_fault;

pub use body::Body;
pub use count::Count;
pub use encoders::{encode_reply, encode_request};
pub use equality::{same_outcome, same_request};
pub use frame::Frame;
pub use ids::Ids;
pub use laws::{
    datagrams_are_short, decoded_reply_encodes, decoded_request_encodes, encoded_reply_decodes,
    encoded_request_decodes, identifier_fields_are_spellings, one_datagram_each,
};
pub use outcome::Outcome;
pub use reply::Reply;
pub use reply_decoder::decode_reply;
pub use request::Request;
pub use request_decoder::decode_request;
pub use status::Status;
pub use wire_fault::WireFault;
