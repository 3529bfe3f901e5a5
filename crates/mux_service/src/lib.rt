//! The daemon: the threads of all its lanes over one hub, from its ports, berths and clock to its answer.
#![tactic(auto)]

mod named;
mod threads;

pub use mux_daemon::{Answer, Lanes};
pub use mux_serve::LaneJob;
pub use threads::{Left, own_port, serve};
