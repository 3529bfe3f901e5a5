//! What the rows of the documents that a group shares send and keep, entry by entry: they are those of the
//! routing table over several editors.
#![tactic(auto)]

pub use group_rows::{mux_members, registrations};
