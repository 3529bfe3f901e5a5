//! The texts of documents, and the changes that a client makes of them (LSP 3.17, Text Document Synchronization).
#![tactic(auto)]

mod change;
mod doc_text;
mod fault;
mod gap;
mod number;
mod read;
mod text;

pub use change::{ContentChange, Extent, Position, Range};
pub use doc_text::DocText;
pub use fault::ChangeFault;
pub use json_span;
pub use read::changes;
pub use text::Text;
