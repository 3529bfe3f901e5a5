//! The reader of JSON texts (RFC 8259): bytes in, their values as nodes out, or the place of the first fault.
#![tactic(auto)]

mod class;
mod fault;
mod nodes;
mod reader;
mod state;
mod string;
mod tape;
mod word;

pub use fault::JsonFault;
pub use json_nodes;
pub use json_text::{Change, Kind, Span, splice};
pub use json_token::{decode, same_characters, spells_text};
pub use message_body::{Body, Memory};
pub use string::{append_quoted, quote};
pub use tape::{Tape, same};
