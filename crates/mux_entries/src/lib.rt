//! One entry of the multiplexer over its tables: a cause comes, and the row of the routing table that it meets gives the outs.
#![tactic(auto)]

mod editors;
mod entry;
mod servers;

pub use entry::take;
