//! What several editors that share servers have open, and the routing table over them, in part: definitions, which nothing runs.
#![tactic(auto)]

pub use held_requests;
pub use refresh_debts;
pub use registrations;
pub use registrations::mux_members;
