//! The values of a JSON text as a list of nodes in preorder, and the look-ups over it.
#![tactic(auto)]

mod index;
mod look;
mod maybe;
mod member;
mod names;
mod node;
mod puts;
mod same;
mod span_bytes;
mod steps;
mod values;

pub use index::Indexed;
pub use json_token;
pub use node::{Node, Place};
pub use puts::Put;
pub use span_bytes::part;
pub use values::Values;
