//! The progress tokens that starts of servers created, of each start (LSP 3.17, Work Done Progress).
#![tactic(auto)]

mod created;

pub use created::Created;
pub use progress_route::{Due, Handed, Kind, Tokens};
