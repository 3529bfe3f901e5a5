//! What editors have open: a table of documents in the order of opening, with indexes by their URIs and by their editors (LSP 3.17, Text Document Synchronization).
#![tactic(auto)]

mod numbers;
mod opens;
mod rows;

pub use document_model::{Agreement, doc_text, json_span, rpc_message};
pub use opens::{Opening, Opens};
