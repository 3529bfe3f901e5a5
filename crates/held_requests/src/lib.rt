//! The requests of editors that wait until a start of their group is ready (rows E10, E11 and S2 of the routing table).
#![tactic(auto)]

mod held;
mod request;
mod rows;

pub use held::Held;
pub use request::Request;
