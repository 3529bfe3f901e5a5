//! What an editor's `initialize` says of its group: the key, and the capabilities that the editor offers (LSP 3.17,
//! InitializeParams); and the server that it names before.
#![tactic(auto)]

mod folders;
mod key;
mod server;

pub use key::{key_of, offered};
pub use server::server_asked;
