//! The lanes of the daemon side by side: each port's, each berth's, the clock's, and at the end the daemon's own link.
#![tactic(auto)]

mod job;
mod lanes;

pub use job::{LaneJob, run_berth, run_berths, run_port, run_ports};
pub use lanes::{Editors, Others, Ran, run_lanes};
