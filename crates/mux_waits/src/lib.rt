//! The requests of editors that wait until a start of their group is ready, by the numbers of groups (rows E10, E11 and S2 of the routing
//! table).
#![tactic(auto)]

mod waiting;

pub use held_requests;
pub use waiting::Waiting;
