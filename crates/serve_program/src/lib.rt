//! The daemon of some settings: its door, and what serves behind it.
#![tactic(auto)]

mod daemon;
mod fault;

pub use daemon::{Ended, serve_by};
pub use fault::{ServeFault, report};
pub use mux_service::Lanes;
