//! The daemon's threads over any core: makes the queues of all lanes, runs the lanes side by side, joins their queues behind
//! them, and says how the work ended.
#![tactic(auto)]

mod law;
mod open;
mod serve;
mod settle;

pub use law::{berth_law, events_law, port_law, served_law};
pub use open::Lanes;
pub use serve::{Answer, Served, serve_core};
