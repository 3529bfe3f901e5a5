//! The progress tokens that one start of a server created (LSP 3.17, Work Done Progress).
#![tactic(auto)]

mod editor;
mod kind;
mod names;
mod tokens;
mod waiting;

pub use kind::Kind;
pub use tokens::{Due, Handed, Tokens};
