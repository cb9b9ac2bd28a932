//! Requests and replies as lines of text, and the words of these lines.
#![tactic(auto)]

mod line_text;
mod lines;
mod words;
mod write_fault;

pub use line_text::LineText;
pub use lines::{text_of_reply, text_of_request, write_reply_line, write_request_line};
pub use words::{
    write_decimal, write_first_decimal, write_id, write_letters, write_serials, write_text,
    write_word,
};
pub use write_fault::WriteFault;
