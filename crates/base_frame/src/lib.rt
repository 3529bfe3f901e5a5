//! The framing of messages (LSP 3.17, Base Protocol).
#![tactic(auto)]

mod block;
mod front;
mod law;
mod reader;
mod written;

pub use block::BadWhy;
pub use law::{fault_law, frame_law, frames_law, worked_law, written_law};
pub use reader::{FrameReader, Next};
pub use written::frame;
