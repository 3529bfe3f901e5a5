//! The classes of the methods of LSP 3.17: what the multiplexer does with a message, by its method, its sender and its sort.
#![tactic(auto)]

mod table;
mod variants;

pub use table::class;
pub use variants::{Class, Origin};
