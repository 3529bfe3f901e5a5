//! Two plain types that every layer shares: the bytes of one message, and the answer when memory runs out.
#![tactic(auto)]

mod body;

pub use body::{Body, Memory};
