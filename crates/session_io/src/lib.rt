//! How one session of a link is read and written: its frames are posted to a lane, and the bodies that the lane is ordered
//! to write go out as frames (LSP 3.17, Base Protocol).
#![tactic(auto)]

mod part;
mod read;
mod write;

pub use part::{Core, End};
pub use read::{Stop, read_session};
pub use write::{Wrote, write_session};
