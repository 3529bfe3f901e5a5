//! What the multiplexer is told and what it says: causes, outs, and entries.
#![tactic(auto)]

mod cause;
mod entry;
mod out;
mod outs;

pub use cause::{Cause, Why};
pub use entry::Entry;
pub use out::Out;
pub use outs::Outs;
