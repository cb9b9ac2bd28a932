//! Identifiers, requests and replies in structs of plain bytes and numbers, which C can read.
#![tactic(auto)]

mod client;
mod field_fault;
mod identifiers;
mod lines;
mod plain_client;
mod plain_frame;
mod plain_id;
mod plain_outcome;
mod plain_request;
mod received;
mod replies;
mod requests;
mod result_code;
mod submit_fault;
mod words;

pub use client::{give_up, receive, submit};
pub use identifiers::{make, read, read_label};
pub use lines::{Line, reply_line_of, request_line_of};
pub use plain_client::PlainClient;
pub use plain_frame::PlainFrame;
pub use plain_id::PlainId;
pub use plain_outcome::PlainOutcome;
pub use plain_request::PlainRequest;
pub use replies::accept;
pub use requests::{decode, encode};
pub use result_code::ResultCode;
pub use words::{Word, write_word};
