//! The documents of the editors that share a server: what each editor has open, and what the server is told of it (LSP 3.17, Text Document Synchronization).
#![tactic(auto)]

mod held;
mod notice;
mod shared;
mod telling;
mod texts;
mod version;

pub use document_table::Agreement;
pub use shared::Shared;
pub use version::DocumentVersion;
