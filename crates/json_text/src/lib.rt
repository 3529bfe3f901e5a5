//! What a JSON text is (RFC 8259), and the plain types of the layers that read one: kinds of values, places, changes.
#![tactic(auto)]

mod change;
mod kind;
mod span;
mod tree;

pub use change::{Change, splice};
pub use kind::{Kind, Word};
pub use message_body;
pub use span::Span;
pub use tree::tree_of_law;
