//! The three queues of a lane, whose items go from one thread to another: what was pushed is what was taken, and then what
//! the queue holds.
#![tactic(auto)]

mod lane;
mod line;

pub use lane::{HubEnds, Lane, LaneIn, LaneOut, Settled, settle};
pub use lane_lists::{Order, Posted, Side};
