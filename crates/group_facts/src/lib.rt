//! What holds of every legal history of several editors and groups, and why each out of the routing table over them is sent.
#![tactic(auto)]

mod laws;

pub use group_rows::{mux_members, registrations};
pub use laws::{every_history, every_out, every_settled, own_moments, own_versions, switches};
