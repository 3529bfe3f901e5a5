//! The threads of the daemon: each lane reads and writes what it serves, and has the core take what it posts.
#![tactic(auto)]

mod bell;
mod editor;
mod lane_end;
mod meeting;
mod post;
mod server;
mod session;
mod switchboard;
mod ticker;

pub use editor::editor_lane;
pub use lane_end::{Lane, LaneEnd};
pub use meeting::Meeting;
pub use server::server_lane;
pub use session::Ends;
pub use switchboard::Switchboard;
pub use ticker::ticker_lane;
