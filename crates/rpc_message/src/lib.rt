//! The messages of JSON-RPC 2.0, and the fixed texts that are written.
#![tactic(auto)]

mod code;
mod envelope;
mod id;
mod laws;
mod message;
mod names;
mod parts;
mod sort;
mod texts;

pub use code::ErrorCode;
pub use envelope::Envelope;
pub use id::{is_integer, is_quoted, same_id};
pub use json_span;
pub use json_span::Tape;
pub use laws::{
    answers_law, calls_law, opening_law, parts_law, puts_law, refusals_law, renamed_law,
};
pub use message::Message;
pub use sort::{Malformed, Sort};
pub use texts::{
    error_answer, error_reply, initialize, initialized, notification, ok_reply, request,
};
