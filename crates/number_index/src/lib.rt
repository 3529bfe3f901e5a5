//! Numbers by keys: which numbers stand under a key of bytes, in rising order.
#![tactic(auto)]

mod index;

pub use index::Index;
